//! The requests of a run that did not run, by their ends.

ghost use Rattle.std.specs.Prelude.{◌≡◌, ◌++◌, List, IfOk, OnOk, option_to_list};
ghost use Rattle.am_library_views.specs.Accounts.{IsAccountOf};
ghost use Rattle.am_library_views.specs.Ends.{ended_in, is_ended, refused_in, words_ended, words_if};
ghost use Rattle.am_office_entries.specs.declared.Entry.{Entry};

use crate::account::Account;
use am_names::{Message, NoMemory, Words};
use am_office_entries::logged::LoggedJournal;
use am_office_entries::{Call, Entry, Event, Fate, Outcome, accepted_of};
use std::alloc::Global;

/// How a request ended that did not run.
#[derive(Clone, Copy)]
pub enum Ending {
    /// It was refused when it was asked for.
    Refused,
    /// Its message came back.
    Returned,
    /// What became of its message is unknown, and no poll ran it.
    Unknown,
}

// The words of the request that an entry refuses.
fn refused_in(entry: &Entry) -> Option<Words>
    ensures { result ≡ refused_in entry.now.event entry.now.outcome }
{
    match (entry.event, entry.outcome) {
        (
            Event::Call {
                call: Call::Request { words, .. },
                ..
            },
            Outcome::Refused(_),
        ) => Some(words),
        _ => None,
    }
}

// Whether a message with this fate ended so.
fn is_ended(ending: Ending, fate: Option<Fate>) -> bool
    ensures { result ≡ is_ended ending fate }
{
    match (ending, fate) {
        (Ending::Returned, Some(Fate::Returned(_))) => true,
        (Ending::Unknown, Some(Fate::Unknown)) => true,
        _ => false,
    }
}

// The words of a message, if it is a request that ended so.
fn words_if(account: &Account, ending: Ending, message: Option<Message>) -> Option<Words>
    ensures { (journal : List Entry) → IsAccountOf journal account.now → result ≡ words_if (is_ended ending) journal message }
{
    let message = message?;
    let fate = account.fate_of(message.serial);
    if message.is_request() && is_ended(ending, fate) {
        Some(message.words)
    } else {
        None
    }
}

// The words of the request that an entry asks for, if it ended so.
fn ended_in(account: &Account, ending: Ending, entry: &Entry) -> Option<Words>
    ensures { (journal : List Entry) → IsAccountOf journal account.now → result ≡ ended_in journal ending entry.now }
{
    match ending {
        Ending::Refused => refused_in(entry),
        Ending::Returned | Ending::Unknown => words_if(account, ending, accepted_of(entry)),
    }
}

// Words more, if there are any.
fn put_words(list: &mut Vec<Words>, words: Option<Words>) -> Result<(), NoMemory>
    ensures { OnOk result (list.new.items ≡ list.old.items ++ option_to_list words) }
{
    if let Some(words) = words {
        list.push(words)?;
    }
    Ok(())
}

impl Account {
    /// The words of the requests that ended so, in order, behind those of a list, where the account is of this journal. It goes over the
    /// journal once. `NoMemory` comes where there is none for them.
    pub(crate) fn add_ended(
        &self,
        journal: &LoggedJournal,
        ending: Ending,
        list: &mut Vec<Words>,
    ) -> Result<(), NoMemory>
        ensures { IsAccountOf journal.now self.now → OnOk result (list.new.items ≡ list.old.items ++ words_ended ending journal.now) }
    {
        let entries = journal.entries();
        for entry in entries {
            put_words(list, ended_in(self, ending, entry))?;
        }
        Ok(())
    }

    /// The words of the requests that ended so, in order, where the account is of this journal: what was refused or came back may be sent
    /// again. It goes over the journal once. `NoMemory` comes where there is none for them.
    pub fn words_ended(
        &self,
        alloc: Global,
        journal: &LoggedJournal,
        ending: Ending,
    ) -> Result<Vec<Words>, NoMemory>
        ensures { IsAccountOf journal.now self.now → IfOk result (λ words. words.items ≡ words_ended ending journal.now) }
    {
        let mut words = Vec::new(alloc);
        self.add_ended(journal, ending, &mut words)?;
        Ok(words)
    }
}
