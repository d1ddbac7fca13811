//! What is kept of a journal, to be looked up.

use crate::fates::FateTable;
use crate::ways::{note_emitter, note_received};
use am_names::Way;
use am_office_entries::Entry;
use std::alloc::{AllocError, Global};
use std::collections::{BTreeMap, BTreeSet};

/// What a journal says of its messages' fates, the places of the entries that emit packets, and the packets that are
/// received.
#[derive(Drop)]
pub(crate) struct JournalTable {
    pub(crate) fates: FateTable,
    pub(crate) emitters: BTreeMap<Way, usize>,
    pub(crate) received: BTreeSet<Way>,
}

impl JournalTable {
    ghost use Rattle.std.specs.Prelude.{◌≡◌, [], ◌∷◌, ◌++◌, List, IfOk, OnOk, length};
    ghost use Rattle.am_lab_picture.specs.Tables.{AreTables};
    ghost use Rattle.am_office_entries.specs.declared.Entry.{Entry};

    // Of no entries.
    fn new(alloc: Global) -> Self
        ensures { AreTables result [] }
    {
        JournalTable {
            fates: FateTable::new(alloc),
            emitters: BTreeMap::new(alloc),
            received: BTreeSet::new(alloc),
        }
    }

    // What one entry more says, which stands at this place.
    fn learn(&mut self, entry: &Entry, place: usize) -> Result<(), AllocError>
        ensures { (past : List Entry) → place ≡ length past → AreTables self.old past → OnOk result (AreTables self.new (past ++ entry.now ∷ [])) }
    {
        self.fates.learn(entry)?;
        note_emitter(&mut self.emitters, entry, place)?;
        note_received(&mut self.received, entry)?;
        Ok(())
    }

    /// What a journal's entries say.
    pub(crate) fn of(alloc: Global, entries: &[Entry]) -> Result<Self, AllocError>
        ensures { IfOk result (λ table. AreTables table entries.now) }
    {
        let mut table = JournalTable::new(alloc);
        for (place, entry) in entries.iter().enumerate() {
            table.learn(entry, place)?;
        }
        Ok(table)
    }
}
