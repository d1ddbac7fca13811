//! A run by a seed.

use am_names::NoMemory;
use am_office_entries::logged::LoggedJournal;
use am_office_entries::{Journal, Part};
use std::alloc::Global;

/// What a run by a seed made.
#[derive(Drop)]
pub struct SeedRun {
    pub seed: u64,
    /// Whose full log the run met, if it met one; then the journal is what it made before.
    pub full: Option<Part>,
    pub journal: Journal,
}

impl SeedRun {
    ghost use Rattle.std.specs.Prelude.{◌≡◌, IfOk};
    ghost use Rattle.am_lab_schedules.specs.Outcomes.Outcomes.{is_cut};

    /// Whether the run met a full log.
    pub fn is_cut(&self) -> bool
        ensures { result ≡ is_cut self.now }
    {
        self.full.is_some()
    }

    /// Its journal by references to the entries.
    pub(crate) fn logged<'a>(&'a self, alloc: Global) -> Result<LoggedJournal<'a>, NoMemory>
        ensures { IfOk result (λ journal. journal ≡ self.now.journal) }
    {
        LoggedJournal::of(alloc, &self.journal.entries)
    }
}
