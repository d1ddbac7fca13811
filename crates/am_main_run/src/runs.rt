//! The run of a scenario.

ghost use Rattle.std.specs.Prelude.{◌≡◌, ◌++◌, IfErr, IfOk};
ghost use Rattle.am_cluster.specs.Runs.{IsRunDone, IsRunStopped, ObeysRunLaws};
ghost use Rattle.am_laws_runs.specs.Turns.Runs.{IsWholeRun};
ghost use Rattle.am_main_lines.specs.Lines.{answer_in, full_line, ids_of};
ghost use Rattle.am_main_run.specs.Runs.{IsRunAnswer, RunAnswers, TellsEnd};
ghost use Rattle.am_office_report.specs.Report.{report};
ghost use Rattle.am_scenario.specs.Grammar.{grammar};
ghost use Rattle.am_scenario_types.specs.Lawful.{IsLawful};
ghost use Rattle.am_scenario_types.specs.declared.parts.Form.TheVariants as Forms;
ghost use Rattle.am_scenario_types.specs.declared.parts.Network.TheVariants as Networks;

use am_cluster::{Finished, OpenGate, RunFault, RunJournal, run};
use am_main_lines::{Output, cut_text, fault_output, report_of};
use am_office_entries::Part;
use am_scenario::{Form, ReadFault, Scenario, read};
use std::alloc::{AllocError, Global};
use std::thread::Threads;

/// The report of the journal of a run with the endpoints of its scenario.
pub fn run_text(
    alloc: Global,
    scenario: &Scenario,
    journal: &RunJournal,
) -> Result<Vec<u8>, AllocError>
    ensures { IfOk result (λ text. text.items ≡ report (ids_of scenario.now.ends) journal.now) }
{
    match journal.logged(alloc) {
        Ok(journal) => report_of(alloc, scenario, &journal),
        Err(_) => Err(AllocError),
    }
}

/// The line that tells the full log which a run met, and behind it the report of what was made before.
pub fn cut_run_text(
    alloc: Global,
    scenario: &Scenario,
    part: Part,
    journal: &RunJournal,
) -> Result<Vec<u8>, AllocError>
    ensures { IfOk result (λ text. text.items ≡ full_line part ++ report (ids_of scenario.now.ends) journal.now) }
{
    match journal.logged(alloc) {
        Ok(journal) => cut_text(alloc, scenario, part, &journal),
        Err(_) => Err(AllocError),
    }
}

/// What is printed of a scenario's run that ended so: the report of its journal; or the full log that it met, and the report of what
/// was made before.
#[tactic(auto, using(crate::proofs::RunMeaning::run_reported, crate::proofs::RunMeaning::run_cut))]
pub fn ended_output(
    alloc: Global,
    scenario: &Scenario,
    ended: Result<Finished, RunFault>,
) -> Result<Output, AllocError>
    requires done { IfOk ended (λ finished. IsRunDone scenario.now finished.journal) }
    requires whole { IfOk ended (λ finished. IsWholeRun scenario.now finished.journal) }
    requires obeys { IfOk ended (λ finished. ObeysRunLaws scenario.now finished.journal) }
    requires stopped { IfErr ended (IsRunStopped scenario.now) }
    ensures answers { IfOk result (λ output. IsRunAnswer scenario.now (answer_in output)) }
    ensures told { IfOk result (λ output. TellsEnd scenario.now ended (answer_in output)) }
{
    match ended {
        Ok(finished) => {
            let text = run_text(alloc, scenario, &finished.journal)?;
            Ok(Output { status: 0, text })
        }
        Err(RunFault::LogFull { part, journal }) => {
            let text = cut_run_text(alloc, scenario, part, &journal)?;
            Ok(Output { status: 6, text })
        }
        Err(RunFault::NoMemory) => Err(AllocError),
    }
}

// What is printed of a scenario's run.
fn scenario_output<R: Threads + Sync>(
    rt: &R,
    alloc: Global,
    scenario: &Scenario,
) -> Result<Output, AllocError>
    requires lawful { IsLawful scenario.now }
    requires packet { scenario.now.network ≡ Networks.Packet }
    ensures { IfOk result (λ output. IsRunAnswer scenario.now (answer_in output)) }
{
    let ended = run(rt, alloc, scenario, &OpenGate);
    ended_output(alloc, scenario, ended)
}

/// What `run` prints of a text: the report of a run of the scenario that it spells, a phase of its threads and then the drain; the full
/// log that the drain met, and the report of what was made before; or the first fault of the text.
pub fn run_output<R: Threads + Sync>(
    rt: &R,
    alloc: Global,
    bytes: &[u8],
) -> Result<Output, AllocError>
    ensures { IfOk result (λ output. RunAnswers (grammar Forms.Run bytes.now) (answer_in output)) }
{
    match read(alloc, Form::Run, bytes) {
        Ok(scenario) => scenario_output(rt, alloc, &scenario),
        Err(ReadFault::Refused(fault)) => fault_output(alloc, fault),
        Err(ReadFault::NoMemory) => Err(AllocError),
    }
}
