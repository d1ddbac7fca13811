//! What the entries of a session say of each message's fate.

ghost use Rattle.am_session.specs.Tables as tables;
ghost use Rattle.am_session.specs.Tables.{AreKnown};
ghost use Rattle.std.specs.Prelude.{◌≡◌, ℕ, IfOk, OnOk, Some};

use am_restart::{SessionEntry, SessionFate, SessionOutcome};
use std::alloc::{AllocError, Global};
use std::collections::BTreeMap;

/// What an entry says of a message's fate.
#[derive(Clone, Copy)]
pub(crate) enum News {
    Put,
    Returned,
    Unknown,
}

/// What is known of a message's fate.
#[derive(Clone, Copy)]
pub(crate) struct Known {
    pub(crate) put: bool,
    pub(crate) returned: bool,
    pub(crate) unknown: bool,
}

impl Known {
    ghost use Rattle.std.specs.Prelude.{◌≡◌};
    ghost use Rattle.am_session.specs.Tables.{nothing_known, known_with, fate_in};

    fn nothing() -> Self
        ensures { result ≡ nothing_known }
    {
        Known {
            put: false,
            returned: false,
            unknown: false,
        }
    }

    fn with(self, news: News) -> Self
        ensures { result ≡ known_with self news }
    {
        match news {
            News::Put => Known { put: true, ..self },
            News::Returned => Known {
                returned: true,
                ..self
            },
            News::Unknown => Known {
                unknown: true,
                ..self
            },
        }
    }

    /// The fate of a message of which this is known.
    pub(crate) fn fate(self) -> SessionFate
        ensures { result ≡ fate_in self }
    {
        match (self.returned, self.unknown, self.put) {
            (true, _, _) => SessionFate::Returned,
            (false, true, true) => SessionFate::UnknownButPut,
            (false, true, false) => SessionFate::Unknown,
            (false, false, true) => SessionFate::Put,
            (false, false, false) => SessionFate::Pending,
        }
    }
}

// What an outcome says of a message's fate, and of which message.
fn news_in(outcome: SessionOutcome) -> Option<(u64, News)>
    ensures { result ≡ tables.news_in outcome }
{
    match outcome {
        SessionOutcome::Accepted { message, .. } => Some((u64::from(message), News::Put)),
        SessionOutcome::Returned(message) => Some((u64::from(message), News::Returned)),
        SessionOutcome::Unknown(message) => Some((u64::from(message), News::Unknown)),
        SessionOutcome::Peer {
            unknown: Some(message),
            ..
        } => Some((u64::from(message), News::Unknown)),
        _ => None,
    }
}

/// What the table knows of a message.
pub(crate) fn known_in(table: &BTreeMap<u64, Known>, message: u64) -> Known
    ensures { result ≡ tables.known_in table.now message }
{
    match table.get(&message) {
        Some(known) => *known,
        None => Known::nothing(),
    }
}

fn learn(table: &mut BTreeMap<u64, Known>, message: u64, news: News) -> Result<(), AllocError>
    ensures { OnOk result ((m : ℕ) → tables.known_in table.new m ≡ tables.known_after m (tables.known_in table.old m) (Some (message, news))) }
{
    let known = known_in(table, message).with(news);
    table.insert(message, known)?;
    Ok(())
}

fn learn_from(table: &mut BTreeMap<u64, Known>, entry: &SessionEntry) -> Result<(), AllocError>
    ensures { OnOk result ((m : ℕ) → tables.known_in table.new m ≡ tables.known_after m (tables.known_in table.old m) (tables.news_in entry.now.outcome)) }
{
    match news_in(entry.outcome) {
        None => Ok(()),
        Some((message, news)) => learn(table, message, news),
    }
}

/// What the entries of a session say of each message's fate.
pub(crate) fn known_of(
    alloc: Global,
    entries: &[SessionEntry],
) -> Result<BTreeMap<u64, Known>, AllocError>
    ensures { IfOk result (λ table. AreKnown table entries.now) }
{
    let mut table = BTreeMap::new(alloc);
    for entry in entries {
        learn_from(&mut table, entry)?;
    }
    Ok(table)
}
