//! What is heard of a journal's messages while its entries are walked over once.

ghost use Rattle.std.specs.Prelude.{◌≡◌, ◌∷◌, ◌++◌, [], List, OnOk, IfOk, option_to_list};
ghost use Rattle.am_office_entries.specs.declared.Entry.{Entry};
ghost use Rattle.am_office_entries.specs.Logged.Behind.{entries_behind};
ghost use Rattle.am_office_report.specs.Report as report;
ghost use Rattle.am_office_entries.specs.Entries.{accepted_of};
ghost use Rattle.am_office_report.specs.Tables.{HasHeard, kind_of};

use crate::known::{News, news_in};
use crate::messages::{MessageFate, MessageTable};
use am_names::{MsgKind, Serial};
use am_office_entries::{Call, Entry, Event, Outcome};
use std::alloc::{AllocError, Global};

/// The accepted messages of the entries so far, and the news of messages' fates in order: these may come in front of the
/// acceptance, in a journal that is no history.
#[derive(Drop)]
pub(crate) struct Heard {
    pub(crate) messages: MessageTable,
    pub(crate) news: Vec<(Serial, News)>,
}

// The serial and the kind of the message that an entry accepts. The message itself, of 72 bytes, stays where it was logged.
fn accepted_in(entry: &Entry) -> Option<(Serial, MsgKind)>
    ensures { result ≡ kind_of (accepted_of entry.now) }
{
    let Event::Call { call, .. } = entry.event else {
        return None;
    };
    match (call, entry.outcome) {
        (Call::Request { .. }, Outcome::Requested(message)) => Some((message.serial, message.kind)),
        (
            Call::Poll,
            Outcome::Ran {
                sends: Some(reply),
                ..
            },
        ) => Some((reply.serial, reply.kind)),
        _ => None,
    }
}

fn put_news(news: &mut Vec<(Serial, News)>, found: Option<(Serial, News)>) -> Result<(), AllocError>
    ensures { OnOk result (news.new.items ≡ news.old.items ++ option_to_list found) }
{
    match found {
        None => Ok(()),
        Some(one) => {
            news.push(one)?;
            Ok(())
        }
    }
}

impl Heard {
    ghost use Rattle.std.specs.Prelude.{◌∷◌, ◌++◌, ◌≡◌, [], List, OnOk, IfOk};
    ghost use Rattle.am_office_entries.specs.declared.Entry.{Entry};
    ghost use Rattle.am_office_report.specs.Report as report;
    ghost use Rattle.am_office_report.specs.Tables.{HasHeard};

    /// What is heard of no entries.
    pub(crate) fn new(alloc: Global) -> Result<Self, AllocError>
        ensures { IfOk result (λ heard. HasHeard heard []) }
    {
        let messages = MessageTable::new(alloc)?;
        let news = Vec::new(alloc);
        Ok(Heard { messages, news })
    }

    /// Takes in one entry more.
    pub(crate) fn hear(&mut self, entry: &Entry) -> Result<(), AllocError>
        ensures { (past : List Entry) → HasHeard self.old past → OnOk result (HasHeard self.new (past ++ entry.now ∷ [])) }
    {
        self.messages.accept_of(accepted_in(entry))?;
        put_news(&mut self.news, news_in(entry))
    }

    /// The accepted messages, each serial once, in ascending order of source and count, with their fates.
    pub(crate) fn told(mut self, alloc: Global) -> Result<Vec<MessageFate>, AllocError>
        ensures { (journal : List Entry) → HasHeard self journal → IfOk result (λ told. told.items ≡ report.told journal) }
    {
        self.messages.learn_all(self.news.as_slice());
        self.messages.told(alloc)
    }
}

/// The accepted messages of a journal, as [`Heard::told`] gives them.
#[tactic(auto, using(am_office_entries::proofs::Entries::length_behind, am_office_entries::proofs::Entries::behind_next))]
pub(crate) fn told(alloc: Global, entries: &[&Entry]) -> Result<Vec<MessageFate>, AllocError>
    ensures { IfOk result (λ told. told.items ≡ report.told (entries_behind entries.now)) }
{
    let mut heard = Heard::new(alloc)?;
    for entry in entries {
        heard.hear(entry)?;
    }
    heard.told(alloc)
}
