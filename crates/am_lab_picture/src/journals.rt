//! A journal with what is looked up in it.

use crate::tables::JournalTable;
use am_names::{NoMemory, Serial, Way};
use am_office_entries::{Entry, Fate, Journal};
use std::alloc::Global;
use std::marker::Model;

/// A journal whose messages' fates and whose packets' entries are found without a look at all its entries. Contracts
/// see the entries.
#[derive(Drop)]
pub struct IndexedJournal {
    journal: Journal,
    table: JournalTable,
}

impl Model for IndexedJournal {
    ghost use Rattle.std.specs.Prelude.{List};
    ghost use Rattle.am_office_entries.specs.declared.Entry.{Entry};
    ghost use Rattle.am_lab_picture.specs.Tables.{AreTables};

    ghost Value = { List Entry };

    ghost view = { λ indexed. indexed.journal };

    ghost invariant = { λ indexed. AreTables indexed.table indexed.journal };
}

impl IndexedJournal {
    ghost use Rattle.std.specs.Prelude.{◌≡◌, IfOk};
    ghost use Rattle.am_lab_picture.specs.Ways.{emitter, is_received};
    ghost use Rattle.am_office_entries.specs.Fates.{fate};

    /// The journal with its tables, for which it goes over the entries once. `NoMemory` comes where there is none for
    /// them, and nothing is left of the journal.
    pub fn new(alloc: Global, journal: Journal) -> Result<IndexedJournal, NoMemory>
        ensures { IfOk result (λ indexed. indexed ≡ journal) }
    {
        let table = JournalTable::of(alloc, &journal.entries)?;
        Ok(IndexedJournal { journal, table })
    }

    /// The entries.
    pub fn entries(&self) -> &[Entry]
        ensures { result.now ≡ self.now }
    {
        &self.journal.entries
    }

    /// What became of a message (`fate` of am_office_entries). None exactly where no entry accepts it.
    pub fn fate(&self, serial: Serial) -> Option<Fate>
        ensures { result ≡ fate self.now serial }
    {
        self.table.fates.fate(serial)
    }

    /// The place of the entry that emits a packet, the first where there are several (`emitter` of specs/Ways). None
    /// where no entry does.
    pub fn emitter(&self, way: Way) -> Option<usize>
        ensures { result ≡ emitter self.now way }
    {
        self.table.emitters.get(&way).copied()
    }

    /// Whether an entry receives a packet (`is_received` of specs/Ways).
    pub fn is_received(&self, way: Way) -> bool
        ensures { result ≡ is_received self.now way }
    {
        self.table.received.contains(&way)
    }
}
