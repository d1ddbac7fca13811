//! The run of a generated scenario.

ghost use Rattle.std.specs.Prelude.{◌≡◌, IfOk, length};
ghost use Rattle.am_scenario_types.specs.Lawful.{IsLawful};
ghost use Rattle.am_scenario_types.specs.declared.parts.Network.TheVariants as Networks;
ghost use Rattle.am_main_lines.specs.Lines.{answer_in};
ghost use Rattle.am_main_run.specs.Runs.{MakeAnswers, make_text};
ghost use Rattle.am_scenario_generator.specs.Scenarios.{generated};
ghost use Rattle.am_office_report.specs.Report.{summary};

use am_cluster::{RunFault, RunJournal, alone};
use am_main_lines::{Output, full_output};
use am_office_entries::NoMemory;
use am_office_report::summary;
use am_office_text::LinePiece::{Number, Text};
use am_office_text::put_line;
use am_scenario::{Scenario, generate};
use std::alloc::{AllocError, Global};

// The two lines of the summary of a run.
fn run_summary(alloc: Global, journal: &RunJournal) -> Result<Vec<u8>, NoMemory>
    ensures { IfOk result (λ lines. lines.items ≡ summary journal.now) }
{
    let logged = journal.logged(alloc)?;
    summary(alloc, &logged)
}

// The four lines.
#[tactic(auto, using(std::proofs::Common::append_assoc), unfolding(crate::specs::Runs::make_text))]
fn make_text(alloc: Global, n: u64, calls: u64, journal: &RunJournal) -> Result<Vec<u8>, AllocError>
    ensures { IfOk result (λ text. text.items ≡ make_text n calls journal.now) }
{
    let Ok(lines) = run_summary(alloc, journal) else {
        return Err(AllocError);
    };
    let mut text = Vec::new(alloc);
    put_line(&mut text, "am2", &[Text("make"), Number(n)])?;
    put_line(&mut text, "calls", &[Number(calls)])?;
    text.extend_from_slice(&lines)?;
    Ok(text)
}

// How many calls the scripts of a scenario have.
fn call_count(scenario: &Scenario) -> u64
    ensures { result ≡ length scenario.now.script }
{
    scenario.script.len() as u64
}

// What is printed of the run of the scenario of a number.
#[tactic(auto, using(crate::proofs::RunMeaning::make_reported, crate::proofs::RunMeaning::make_cut))]
fn scenario_summary(alloc: Global, n: u64, scenario: &Scenario) -> Result<Output, AllocError>
    requires made { scenario.now ≡ generated n }
    requires lawful { IsLawful scenario.now }
    requires packet { scenario.now.network ≡ Networks.Packet }
    requires calls { length scenario.now.script ≡ 1744 }
    ensures { IfOk result (λ output. MakeAnswers n (answer_in output)) }
{
    match alone(alloc, scenario) {
        Ok(finished) => {
            let text = make_text(alloc, n, call_count(scenario), &finished.journal)?;
            Ok(Output { status: 0, text })
        }
        Err(RunFault::LogFull { part, .. }) => full_output(alloc, part),
        Err(RunFault::NoMemory) => Err(AllocError),
    }
}

/// What `make` prints of a number: the summary of the run of the scenario that is generated from it, or the full log that the run met.
/// The run has no threaded turns and starts no thread.
pub fn make_output(alloc: Global, n: u64) -> Result<Output, AllocError>
    ensures { IfOk result (λ output. MakeAnswers n (answer_in output)) }
{
    match generate(alloc, n) {
        Ok(scenario) => scenario_summary(alloc, n, &scenario),
        Err(_) => Err(AllocError),
    }
}
