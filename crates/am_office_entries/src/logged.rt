//! A journal whose entries stay where they were logged.

ghost use Rattle.am_office_entries.specs.Logged.Behind.{entries_behind};
ghost use Rattle.std.specs.Prelude.{◌≡◌, ◌∷◌, ◌++◌, [], IfOk, OnErr, OnOk};

use crate::{Entry, Journal, NoMemory};
use std::alloc::Global;
use std::marker::Model;
use std::slice::from_ref;

/// Entries in order, each where it was logged. Contracts see the list of the entries.
#[derive(Drop)]
pub struct LoggedJournal<'a> {
    entries: Vec<&'a Entry>,
}

impl<'a> Model for LoggedJournal<'a> {
    ghost use Rattle.am_office_entries.specs.declared.Entry.{Entry};
    ghost use Rattle.am_office_entries.specs.Logged.Behind.{entries_behind};
    ghost use Rattle.std.specs.Prelude.{List};

    ghost Value = { List Entry };

    ghost view = { λ journal. entries_behind journal.entries.items };
}

impl<'a> LoggedJournal<'a> {
    /// An empty journal, with room for so many entries.
    pub fn with_capacity(alloc: Global, capacity: usize) -> Result<LoggedJournal<'a>, NoMemory>
        ensures { IfOk result (λ journal. journal ≡ []) }
    {
        let entries = Vec::with_capacity(alloc, capacity)?;
        Ok(LoggedJournal { entries })
    }

    /// The journal of these entries.
    pub fn of(alloc: Global, entries: &'a [Entry]) -> Result<LoggedJournal<'a>, NoMemory>
        ensures { IfOk result (λ journal. journal ≡ entries.now) }
    {
        let mut journal = LoggedJournal::with_capacity(alloc, entries.len())?;
        for entry in entries {
            journal.push(entry)?;
        }
        Ok(journal)
    }

    /// Puts an entry behind the others. After an error the journal is as it was.
    pub fn push(&mut self, entry: &'a Entry) -> Result<(), NoMemory>
        ensures ok { OnOk result (self.new ≡ self.old ++ entry.now ∷ []) }
        ensures err { OnErr result (self.new ≡ self.old) }
    {
        self.entries.push(entry)?;
        Ok(())
    }

    /// The entries in order.
    pub fn entries(&self) -> &[&'a Entry]
        ensures { entries_behind result.now ≡ self.now }
    {
        self.entries.as_slice()
    }

    /// A copy that has the entries itself.
    pub fn copied(&self, alloc: Global) -> Result<Journal, NoMemory>
        ensures { IfOk result (λ journal. journal ≡ self.now) }
    {
        let entries = copies(alloc, self.entries())?;
        Ok(Journal { entries })
    }
}

/// Copies of these entries.
#[tactic(auto, using(crate::proofs::Entries::behind_next, crate::proofs::Entries::length_behind))]
fn copies(alloc: Global, entries: &[&Entry]) -> Result<Vec<Entry>, NoMemory>
    ensures { IfOk result (λ copies. copies.items ≡ entries_behind entries.now) }
{
    let mut copies = Vec::with_capacity(alloc, entries.len())?;
    for entry in entries {
        copies.extend_from_slice(from_ref(*entry))?;
    }
    Ok(copies)
}
