//! The command `replay`.

ghost use Rattle.am_check.specs.Laws.Laws.{IsRunHistory, IsTrueReport};
ghost use Rattle.am_lab_scenarios.specs.Texts.Replays.{IsReportOfRun, ReplayAnswers, TellsRun, journal_too_long};
ghost use Rattle.am_main_step.specs.Checks.{CheckAnswers};
ghost use Rattle.am_main_lines.specs.Lines.{answer_in};
ghost use Rattle.am_office_entries.specs.declared.Entry.{Entry};
ghost use Rattle.am_scenario_types.specs.Lawful.{IsLawful};
ghost use Rattle.am_scenario_types.specs.declared.parts.Form.TheVariants.{Run};
ghost use Rattle.std.specs.Prelude.{◌≡◌, ◌≤◌, ◌<◌, ◌^◌, IfOk, List, length};

use crate::replays::replays_are_the_run;
use crate::spelling::replay_text;
use am_lab_reasons::journal::reach_end;
use am_lab_reasons::parts_of;
use am_machine::Cluster;
use am_main_lines::Output;
use am_main_step::check_output;
use am_names::NoMemory;
use am_office_entries::Journal;
use am_scenario::{Form, Scenario};
use std::alloc::Global;

fn too_long(alloc: Global) -> Result<Output, NoMemory>
    ensures { IfOk result (λ o. answer_in o ≡ journal_too_long) }
{
    let text = Vec::from_slice(alloc, b"journal too long\n")?;
    Ok(Output { status: 11, text })
}

// The step script of a run's journal, printed.
fn printed(alloc: Global, scenario: &Scenario, journal: &Journal) -> Result<Output, NoMemory>
    requires lawful { IsLawful scenario.now }
    requires run { IsRunHistory scenario.now journal.now }
    requires few { length journal.now ≤ 65_536 }
    ensures { IfOk result (λ o. TellsRun scenario.now journal.now (answer_in o)) }
{
    replays_are_the_run();
    let text = replay_text(alloc, scenario, &journal.entries)?;
    Ok(Output { status: 0, text })
}

// What is told of a run's journal.
#[tactic(auto, using(crate::proofs::Replaying::tells_too_long))]
fn told(alloc: Global, scenario: &Scenario, journal: &Journal) -> Result<Output, NoMemory>
    requires lawful { IsLawful scenario.now }
    requires run { IsRunHistory scenario.now journal.now }
    ensures { IfOk result (λ o. TellsRun scenario.now journal.now (answer_in o)) }
{
    if journal.entries.len() <= 65_536 {
        printed(alloc, scenario, journal)
    } else {
        too_long(alloc)
    }
}

// What is told of the report of a run's scenario, whose journal is made again.
fn told_report(alloc: Global, scenario: &Scenario, bytes: &[u8]) -> Result<Output, NoMemory>
    requires few { length bytes.now < 2 ^ 31 }
    requires lawful { IsLawful scenario.now }
    requires report { (journal : List Entry) × IsReportOfRun scenario.now bytes.now journal }
    ensures { (journal : List Entry) → IsReportOfRun scenario.now bytes.now journal → IfOk result (λ o. TellsRun scenario.now journal (answer_in o)) }
{
    let mut cluster = Cluster::new(alloc, scenario)?;
    reach_end(&mut cluster, bytes)?;
    let logged = cluster.journal(alloc)?;
    let journal = logged.copied(alloc)?;
    told(alloc, scenario, &journal)
}

// What is told of a text that is a scenario and the report of a run of it.
fn told_text(alloc: Global, text: &[u8]) -> Result<Output, NoMemory>
    requires few { length text.now < 2 ^ 31 }
    requires right { IsTrueReport Run text.now }
    ensures { (r : IsTrueReport Run text.now) → IfOk result (λ o. TellsRun r.scenario r.journal (answer_in o)) }
{
    let (scenario, bytes) = parts_of(alloc, Form::Run, text)?;
    told_report(alloc, &scenario, bytes)
}

// What is told of a text to which `check` says yes.
fn told_right(alloc: Global, bytes: &[u8], checked: &Output) -> Result<Output, NoMemory>
    requires few { length bytes.now < 2 ^ 31 }
    requires checks { CheckAnswers Run bytes.now (answer_in checked.now) }
    requires right { checked.now.status ≡ 0 }
    ensures { IfOk result (λ o. ReplayAnswers bytes.now (answer_in o)) }
{
    told_text(alloc, bytes)
}

/// What `replay` prints of a scenario of a run and its report: the scenario as a step script, whose steps are the events
/// of the report's journal, each call and each want by anyone outside. The one history that follows it is that journal,
/// callers aside, so `am2 step` prints of it the same runs, fates and totals. A journal of more than 65,536 entries, which
/// is more steps than a script may have, is told with status 11 (`journal too long`). Of a text to which `check` doesn't
/// say yes it prints what `check` does.
///
/// `NoMemory` comes where there is none for the journal that is made again, or for the text.
#[tactic(auto, using(crate::proofs::Replaying::replays_other))]
pub fn replay_output(alloc: Global, bytes: &[u8]) -> Result<Output, NoMemory>
    requires { length bytes.now < 2 ^ 31 }
    ensures { IfOk result (λ o. ReplayAnswers bytes.now (answer_in o)) }
{
    let output = check_output(alloc, Form::Run, bytes)?;
    if output.status != 0 {
        return Ok(output);
    }
    told_right(alloc, bytes, &output)
}
