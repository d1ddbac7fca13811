//! What an entry of a journal says of a message's fate.

ghost use Rattle.std.specs.Prelude.{◌≡◌};
ghost use Rattle.am_office_entries.specs.Entries.{run_of};
ghost use Rattle.am_office_report.specs.Tables as tables;

use am_names::{Cause, Serial};
use am_office_entries::{Call, Entry, Event, Fate, Outcome, return_of, unknown_of};

/// What an entry says of a message's fate.
#[derive(Clone, Copy)]
pub(crate) enum News {
    Ran,
    Unknown,
    Returned(Cause),
}

/// What is known of a message's fate: the cause of its first return, whether it was left unknown, whether it ran.
#[derive(Clone, Copy)]
pub(crate) struct Known {
    pub(crate) cause: Option<Cause>,
    pub(crate) unknown: bool,
    pub(crate) ran: bool,
}

impl Known {
    ghost use Rattle.std.specs.Prelude.{◌≡◌, option_to_list};
    ghost use Rattle.am_office_entries.specs.Fates as fates;
    ghost use Rattle.am_office_report.specs.Tables.{nothing_known, known_with};

    /// What is known of a message of which no entry says anything.
    pub(crate) fn nothing() -> Self
        ensures { result ≡ nothing_known }
    {
        Known {
            cause: None,
            unknown: false,
            ran: false,
        }
    }

    /// What is known after the news; the first cause stays.
    pub(crate) fn with(self, news: News) -> Self
        ensures { result ≡ known_with self news }
    {
        match news {
            News::Ran => Known { ran: true, ..self },
            News::Unknown => Known {
                unknown: true,
                ..self
            },
            News::Returned(cause) => Known {
                cause: self.cause.or(Some(cause)),
                ..self
            },
        }
    }

    /// The fate of an accepted message of which this is known.
    pub(crate) fn fate(self) -> Fate
        ensures { result ≡ fates.fate_by (option_to_list self.cause) self.unknown self.ran }
    {
        Fate::of(self.cause, self.unknown, self.ran)
    }
}

// The serial of the message that an entry runs. The message itself stays where it was logged.
fn serial_run(entry: &Entry) -> Option<Serial>
    ensures { result ≡ tables.serial_of (run_of entry.now) }
{
    match (entry.event, entry.outcome) {
        (
            Event::Call {
                call: Call::Poll,
                ..
            },
            Outcome::Ran { message, .. },
        ) => Some(message.serial),
        _ => None,
    }
}

/// What an entry says of a message's fate, and of which message.
pub(crate) fn news_in(entry: &Entry) -> Option<(Serial, News)>
    ensures { result ≡ tables.news_in entry.now.event entry.now.outcome }
{
    if let Some(serial) = serial_run(entry) {
        return Some((serial, News::Ran));
    }
    if let Some(serial) = unknown_of(entry) {
        return Some((serial, News::Unknown));
    }
    match return_of(entry) {
        Some((serial, cause)) => Some((serial, News::Returned(cause))),
        None => None,
    }
}
