//! What stops the steps of a script: what the first step that can't happen finds, and the journal that stands before it.

ghost use Rattle.am_lab_reasons.specs.Stops.{AnswersFault, StopsBefore, found_if, front_if, made_text, stop_text};
ghost use Rattle.am_model.specs.History.{is_in_range};
ghost use Rattle.am_model_scripts.specs.Layout.{events_of, layout_of};
ghost use Rattle.am_model_scripts.specs.Steps.Laws.{AreInRange};
ghost use Rattle.am_office_text.specs.EntryLines.Lines.{line_of};
ghost use Rattle.am_scenario_types.specs.Lawful.{IsLawful};
ghost use Rattle.std.specs.List.{flat_map};
ghost use Rattle.std.specs.Prelude.{◌≡◌, ◌++◌, [], IfOk, IfSome, OnOk, true};

use crate::due::found::put_found;
use am_machine::Cluster;
use am_model::EntryFault;
use am_names::NoMemory;
use am_office_entries::{Condition, Event};
use am_office_report::journal_lines;
use am_scenario::{Scenario, StepLine};
use std::alloc::Global;

/// A step that can't happen, and the first condition of it that doesn't hold.
#[derive(Clone, Copy)]
pub(crate) struct RefusedStep {
    pub(crate) event: Event,
    pub(crate) condition: Condition,
}

// The step of which no entry was made, if it can't happen; a full log stops one that can.
fn refused_as(event: Event, fault: EntryFault) -> Result<Option<RefusedStep>, NoMemory>
    ensures { AnswersFault event fault result }
{
    match fault {
        EntryFault::NotEnabled(condition) => Ok(Some(RefusedStep { event, condition })),
        EntryFault::LogFull(_) => Ok(None),
        EntryFault::NoMemory => Err(NoMemory),
    }
}

// Makes the steps in order, up to the first that can't be made, and gives that one if it can't happen.
fn make_steps(cluster: &mut Cluster, steps: &[StepLine]) -> Result<Option<RefusedStep>, NoMemory>
    requires fresh { cluster.old.journal ≡ [] }
    requires in_range { AreInRange cluster.old.layout (events_of steps.now) }
    ensures layout { cluster.new.layout ≡ cluster.old.layout }
    ensures stops { IfOk result (StopsBefore cluster.old.layout steps.now cluster.new.journal) }
{
    for step in steps {
        match cluster.make(&step.event) {
            Ok(()) => {}
            Err(fault) => return refused_as(step.event, fault),
        }
    }
    Ok(None)
}

// Appends what a step that can't happen finds.
fn put_found_if(
    out: &mut Vec<u8>,
    cluster: &Cluster,
    scenario: &Scenario,
    step: Option<RefusedStep>,
) -> Result<(), NoMemory>
    requires layout { cluster.now.layout ≡ layout_of scenario.now }
    requires in_range { IfSome step (λ step. is_in_range (layout_of scenario.now) step.event ≡ true) }
    ensures { OnOk result (out.new.items ≡ out.old.items ++ found_if cluster.now.layout cluster.now.journal step) }
{
    match step {
        Some(step) => put_found(out, cluster, scenario, step.event, step.condition),
        None => Ok(()),
    }
}

// Appends the journal of a cluster.
fn put_front(out: &mut Vec<u8>, alloc: Global, cluster: &Cluster) -> Result<(), NoMemory>
    ensures { OnOk result (out.new.items ≡ out.old.items ++ flat_map line_of cluster.now.journal) }
{
    let lines = journal_lines(alloc, &cluster.journal(alloc)?)?;
    out.extend_from_slice(&lines)?;
    Ok(())
}

fn put_front_if(
    out: &mut Vec<u8>,
    alloc: Global,
    cluster: &Cluster,
    front: bool,
) -> Result<(), NoMemory>
    ensures { OnOk result (out.new.items ≡ out.old.items ++ front_if front cluster.now.journal) }
{
    if front {
        put_front(out, alloc, cluster)
    } else {
        Ok(())
    }
}

// Appends what stopped the steps that a cluster made.
#[tactic(auto, using(std::proofs::Common::append_assoc))]
fn put_made(
    out: &mut Vec<u8>,
    alloc: Global,
    cluster: &Cluster,
    scenario: &Scenario,
    step: Option<RefusedStep>,
    front: bool,
) -> Result<(), NoMemory>
    requires layout { cluster.now.layout ≡ layout_of scenario.now }
    requires in_range { IfSome step (λ step. is_in_range (layout_of scenario.now) step.event ≡ true) }
    ensures { OnOk result (out.new.items ≡ out.old.items ++ made_text front cluster.now.layout cluster.now.journal step) }
{
    put_found_if(out, cluster, scenario, step)?;
    put_front_if(out, alloc, cluster, front)
}

/// Appends what stops the steps of a script: what the first step finds that can't happen, and, where the front is asked for,
/// the lines of the entries that the steps before it make, as a report has them.
///
/// `NoMemory` comes where there is none for the journal, or for the text.
pub fn put_stop(
    out: &mut Vec<u8>,
    alloc: Global,
    scenario: &Scenario,
    front: bool,
) -> Result<(), NoMemory>
    requires { IsLawful scenario.now }
    ensures { OnOk result (out.new.items ≡ out.old.items ++ stop_text front (layout_of scenario.now) (events_of scenario.now.steps)) }
{
    let mut cluster = Cluster::new(alloc, scenario)?;
    let step = make_steps(&mut cluster, &scenario.steps)?;
    put_made(out, alloc, &cluster, scenario, step, front)
}
