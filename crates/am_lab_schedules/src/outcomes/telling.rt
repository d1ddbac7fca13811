//! The runs of some seeds, as far as they are told.

ghost use Rattle.std.specs.Prelude.{◌≡◌, ◌||◌, if◌then◌else◌};
ghost use Rattle.am_lab_schedules.specs.Outcomes.Outcomes.{is_cut};

use crate::distinct::DistinctTexts;
use crate::outcomes::fates::FirstFates;
use crate::outcomes::lines::{put_distinct, put_run_line};
use crate::outcomes::runs::SeedRun;
use am_main_lines::Output;
use am_names::NoMemory;
use am_office_report::{fates, journal_lines};
use std::alloc::Global;

/// Whether a run met a full log, this one or one before.
fn with_cut(full: bool, run: &SeedRun) -> bool
    ensures { result ≡ (full || is_cut run.now) }
{
    full || run.is_cut()
}

/// The status where a run met a full log, or none did.
fn status_of(full: bool) -> u8
    ensures { result ≡ (if full then 6 else 0) }
{
    if full { 6 } else { 0 }
}

/// The runs of some seeds, as far as they are told: their lines, their distinct journals, and whether one met a full log.
#[derive(Drop)]
pub struct Telling {
    first: FirstFates,
    text: Vec<u8>,
    seen: DistinctTexts,
    full: bool,
}

impl Telling {
    ghost use Rattle.std.specs.Prelude.{◌≡◌, ◌∷◌, ◌++◌, [], IfOk, List, OnOk};
    ghost use Rattle.am_lab_schedules.specs.Outcomes.Outcomes.{first_fates, outcomes};
    ghost use Rattle.am_lab_schedules.specs.Outcomes.Telling.{HasToldRuns};
    ghost use Rattle.am_lab_schedules.specs.declared.outcomes.runs.SeedRun.{SeedRun};
    ghost use Rattle.am_main_lines.specs.Lines.{answer_in};
    ghost use Rattle.am_office_report.specs.Report.{told};
    ghost use Rattle.am_office_report.specs.declared.messages.MessageFate.{MessageFate};

    /// No run is told yet; each will be compared with this one.
    pub fn new(alloc: Global, first: &SeedRun) -> Result<Telling, NoMemory>
        ensures { IfOk result (λ telling. HasToldRuns telling (told first.now.journal) []) }
    {
        let logged = first.logged(alloc)?;
        Ok(Telling {
            first: FirstFates::new(alloc, fates(alloc, &logged)?)?,
            text: Vec::new(alloc),
            seen: DistinctTexts::new(alloc),
            full: false,
        })
    }

    /// Tells one run more.
    pub fn tell(self, alloc: Global, run: &SeedRun) -> Result<Telling, NoMemory>
        ensures { (first : List MessageFate) (runs : List SeedRun) → HasToldRuns self first runs → IfOk result (λ telling. HasToldRuns telling first (runs ++ run.now ∷ [])) }
    {
        let mut telling = self;
        telling.note(alloc, run)?;
        Ok(telling)
    }

    fn note(&mut self, alloc: Global, run: &SeedRun) -> Result<(), NoMemory>
        ensures { (first : List MessageFate) (runs : List SeedRun) → HasToldRuns self.old first runs → OnOk result (HasToldRuns self.new first (runs ++ run.now ∷ [])) }
    {
        put_run_line(alloc, &mut self.text, &self.first, run)?;
        let logged = run.logged(alloc)?;
        self.seen.keep(journal_lines(alloc, &logged)?)?;
        self.full = with_cut(self.full, run);
        Ok(())
    }

    /// What is answered, when all runs are told: status 6 where one met a full log, else 0, and the text.
    pub fn output(self) -> Result<Output, NoMemory>
        ensures { (runs : List SeedRun) → HasToldRuns self (first_fates runs) runs → IfOk result (λ output. answer_in output ≡ outcomes runs) }
    {
        let status = status_of(self.full);
        let count = self.seen.count();
        let mut text = self.text;
        put_distinct(&mut text, count)?;
        Ok(Output { status, text })
    }
}
