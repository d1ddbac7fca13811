//! What became of each message of a run, and the reply to each request, found by their serials without a look at the entries.

ghost use Rattle.std.specs.Prelude.{◌≡◌, ◌||◌, OnOk};
ghost use Rattle.std.specs.Option.{option_or};
ghost use Rattle.am_library_views.specs.Accounts.{answer_of, cause_in, has, reply_for, reply_in};
ghost use Rattle.am_office_entries.specs.Fates.{cause_for};
ghost use Rattle.am_names.specs.Names.{has_serial};
ghost use Rattle.am_names.specs.declared.Serial.{Serial};
ghost use Rattle.am_office_entries.specs.Entries.{is_serial, passes};

use am_names::{Cause, Message, NoMemory, Serial};
use am_office_entries::logged::LoggedJournal;
use am_office_entries::{Entry, Fate, accepted_of, return_of, run_of, unknown_of};
use std::alloc::Global;
use std::collections::{BTreeMap, BTreeSet};

/// The account of a run: what its journal says of each message, by its serial.
#[derive(Drop)]
pub struct Account {
    accepted: BTreeSet<Serial>,
    returned: BTreeMap<Serial, Cause>,
    unknown: BTreeSet<Serial>,
    ran: BTreeSet<Serial>,
    replies: BTreeMap<Serial, Message>,
}

fn serial_of(message: Option<Message>) -> Option<Serial>
    ensures { (s : Serial) → is_serial s result ≡ passes (has_serial s) message }
{
    match message {
        Some(message) => Some(message.serial),
        None => None,
    }
}

// The request that a message answers, with the message.
fn answer_of(ran: Option<Message>) -> Option<(Serial, Message)>
    ensures { result ≡ answer_of ran }
{
    let message = ran?;
    let request = message.about?;
    Some((request, message))
}

// A serial more, if there is one.
fn note(set: &mut BTreeSet<Serial>, serial: Option<Serial>) -> Result<(), NoMemory>
    ensures { OnOk result ((s : Serial) → has set.new s ≡ (has set.old s || is_serial s serial)) }
{
    if let Some(serial) = serial {
        set.insert(serial)?;
    }
    Ok(())
}

// The cause of a return, if there is one and it is the first of its serial.
fn note_return(
    causes: &mut BTreeMap<Serial, Cause>,
    returned: Option<(Serial, Cause)>,
) -> Result<(), NoMemory>
    ensures { OnOk result ((s : Serial) → cause_in causes.new s ≡ option_or (cause_in causes.old s) (cause_for s returned)) }
{
    let Some((serial, cause)) = returned else {
        return Ok(());
    };
    if !causes.contains_key(&serial) {
        causes.insert(serial, cause)?;
    }
    Ok(())
}

// The reply to a request, if there is one and it is the first to it.
fn note_reply(
    replies: &mut BTreeMap<Serial, Message>,
    reply: Option<(Serial, Message)>,
) -> Result<(), NoMemory>
    ensures { OnOk result ((s : Serial) → reply_in replies.new s ≡ option_or (reply_in replies.old s) (reply_for s reply)) }
{
    let Some((request, message)) = reply else {
        return Ok(());
    };
    if !replies.contains_key(&request) {
        replies.insert(request, message)?;
    }
    Ok(())
}

impl Account {
    ghost use Rattle.std.specs.Prelude.{◌≡◌, [], ◌∷◌, ◌++◌, List, IfOk, OnOk};
    ghost use Rattle.am_library_views.specs.Accounts.{IsAccountOf};
    ghost use Rattle.am_library_views.specs.Views.{reply_to};
    ghost use Rattle.am_office_entries.specs.Fates.{fate};
    ghost use Rattle.am_office_entries.specs.declared.Entry.{Entry};

    // Of no entries.
    fn new(alloc: Global) -> Account
        ensures { IsAccountOf [] result }
    {
        Account {
            accepted: BTreeSet::new(alloc),
            returned: BTreeMap::new(alloc),
            unknown: BTreeSet::new(alloc),
            ran: BTreeSet::new(alloc),
            replies: BTreeMap::new(alloc),
        }
    }

    // What one entry more says.
    fn learn(&mut self, entry: &Entry) -> Result<(), NoMemory>
        ensures { (past : List Entry) → IsAccountOf past self.old → OnOk result (IsAccountOf (past ++ entry.now ∷ []) self.new) }
    {
        let accepted = serial_of(accepted_of(entry));
        let message = run_of(entry);
        let ran = serial_of(message);
        let answer = answer_of(message);
        note(&mut self.accepted, accepted)?;
        note_return(&mut self.returned, return_of(entry))?;
        note(&mut self.unknown, unknown_of(entry))?;
        note(&mut self.ran, ran)?;
        note_reply(&mut self.replies, answer)?;
        Ok(())
    }

    /// The account of a journal, made in one pass. `NoMemory` comes where there is none for it.
    pub fn of(alloc: Global, journal: &LoggedJournal) -> Result<Account, NoMemory>
        ensures { IfOk result (IsAccountOf journal.now) }
    {
        let entries = journal.entries();
        let mut account = Account::new(alloc);
        for entry in entries {
            account.learn(entry)?;
        }
        Ok(account)
    }

    /// What became of a message. None exactly where no entry accepts it.
    pub fn fate_of(&self, serial: Serial) -> Option<Fate>
        ensures { (journal : List Entry) → IsAccountOf journal self.now → result ≡ fate journal serial }
    {
        if !self.accepted.contains(&serial) {
            return None;
        }
        let cause = self.returned.get(&serial).copied();
        let unknown = self.unknown.contains(&serial);
        let ran = self.ran.contains(&serial);
        Some(Fate::of(cause, unknown, ran))
    }

    /// The reply or empty reply to a request, where the endpoint that made the request ran it.
    pub fn reply_to(&self, serial: Serial) -> Option<Message>
        ensures { (journal : List Entry) → IsAccountOf journal self.now → result ≡ reply_to journal serial }
    {
        self.replies.get(&serial).copied()
    }
}
