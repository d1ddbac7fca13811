//! The steps of a scenario, one after the other.

ghost use Rattle.std.specs.Prelude.{◌≡◌, []};
ghost use Rattle.am_model_scripts.specs.Layout.{events_of, layout_of};
ghost use Rattle.am_model_scripts.specs.Steps.Laws.{AreInRange};
ghost use Rattle.am_main_step.specs.Answer.{GivesText, Makes, TellsText, answer_of, fault_of};
ghost use Rattle.am_main_step.specs.Meaning.{TextMeans};
ghost use Rattle.am_model.specs.Steps.{made};
ghost use Rattle.am_scenario.specs.Grammar.{grammar};
ghost use Rattle.am_scenario_types.specs.declared.parts.Form.TheVariants as Forms;
ghost use Rattle.am_scenario_types.specs.Lawful.{IsLawful};

use crate::faults::StepFault;
use am_machine::Cluster;
use am_main_lines::report_of;
use am_model::EntryFault;
use am_scenario::{Form, ReadFault, Scenario, StepLine, read};
use std::alloc::Global;

/// Why the step in this line made no entry.
fn fault_of(line: u32, fault: EntryFault) -> StepFault
    ensures { result ≡ fault_of line fault }
{
    match fault {
        EntryFault::NotEnabled(condition) => StepFault::NotEnabled { line, condition },
        EntryFault::LogFull(part) => StepFault::LogFull(part),
        EntryFault::NoMemory => StepFault::NoMemory,
    }
}

/// Makes the events of the steps in order, up to the first that can't be made.
fn make_steps(cluster: &mut Cluster, steps: &[StepLine]) -> Result<(), StepFault>
    requires fresh { cluster.old.journal ≡ [] }
    requires in_range { AreInRange cluster.old.layout (events_of steps.now) }
    ensures layout { cluster.new.layout ≡ cluster.old.layout }
    ensures makes { Makes steps.now cluster.new.journal (made cluster.old.layout (events_of steps.now)) result }
{
    for step in steps {
        match cluster.make(&step.event) {
            Ok(()) => {}
            Err(fault) => return Err(fault_of(step.line, fault)),
        }
    }
    Ok(())
}

/// The scenario without its steps, whose memory is given back.
fn without_steps(alloc: Global, scenario: Scenario) -> Scenario
    ensures { result ≡ record scenario { steps = [] } }
{
    Scenario {
        steps: Vec::new(alloc),
        ..scenario
    }
}

/// The report of what the steps of a scenario make. The steps are given back before it is written.
fn scenario_text(alloc: Global, scenario: Scenario) -> Result<Vec<u8>, StepFault>
    requires lawful { IsLawful scenario }
    ensures { TellsText scenario (made (layout_of scenario) (events_of scenario.steps)) result }
{
    let Ok(mut cluster) = Cluster::new(alloc, &scenario) else {
        return Err(StepFault::NoMemory);
    };
    match make_steps(&mut cluster, &scenario.steps) {
        Ok(()) => {}
        Err(fault) => return Err(fault),
    }
    let scenario = without_steps(alloc, scenario);
    let Ok(journal) = cluster.journal(alloc) else {
        return Err(StepFault::NoMemory);
    };
    match report_of(alloc, &scenario, &journal) {
        Ok(text) => Ok(text),
        Err(_) => Err(StepFault::NoMemory),
    }
}

/// The text that a step script makes: the report of the one history that follows its lines.
///
/// It is refused with the first fault of the text; with the line and the condition of the first step that isn't enabled;
/// with the log that is full where one more entry is due; and for want of memory.
pub fn step_text(alloc: Global, bytes: &[u8]) -> Result<Vec<u8>, StepFault>
    ensures answer { GivesText result (answer_of (grammar Forms.Step bytes.now)) }
    ensures meaning { TextMeans result (grammar Forms.Step bytes.now) }
{
    match read(alloc, Form::Step, bytes) {
        Ok(scenario) => scenario_text(alloc, scenario),
        Err(ReadFault::Refused(fault)) => Err(StepFault::Scenario(fault)),
        Err(ReadFault::NoMemory) => Err(StepFault::NoMemory),
    }
}
