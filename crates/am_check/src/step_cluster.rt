//! The journal of a step script: each event is that of the next step line.

ghost use Rattle.am_check.specs.Lines.{stop_of};
ghost use Rattle.am_model_scripts.specs.Layout.{events_of};
ghost use Rattle.am_scenario_types.specs.Lawful.{IsLawful};
ghost use Rattle.am_scenario_types.specs.declared.parts.Form.TheVariants.{Step};
ghost use Rattle.std.specs.Prelude.{◌≡◌, ◌↔◌, [], IfOk, IsTrue, Some, slice_get};

use crate::faults::{CheckWhat, LineStop};
use crate::follower::Follower;
use crate::same::is_same;
use am_machine::Cluster;
use am_model::EntryFault;
use am_names::NoMemory;
use am_office_entries::logged::LoggedJournal;
use am_office_entries::{Entry, Event};
use am_scenario::{Scenario, StepLine};
use std::alloc::Global;
use std::marker::Model;

/// A cluster that follows the steps of its scenario.
#[derive(Drop)]
pub(crate) struct StepCluster<'a> {
    scenario: &'a Scenario,
    cluster: Cluster,
    /// How many entries were made.
    made: usize,
}

impl<'a> Model for StepCluster<'a> {
    ghost use Rattle.am_cluster_scripted.specs.Scripted.{RunView};

    ghost Value = { RunView };

    ghost use Rattle.am_check.specs.Steps.{IsStepCluster, view_of};

    ghost view = { view_of };

    ghost invariant = { IsStepCluster };
}

impl<'a> StepCluster<'a> {
    /// The fresh cluster of a scenario.
    pub(crate) fn new(alloc: Global, scenario: &'a Scenario) -> Result<StepCluster<'a>, NoMemory>
        requires { IsLawful scenario.now }
        ensures scenario { IfOk result (λ one. one.scenario ≡ scenario.now) }
        ensures journal { IfOk result (λ one. one.journal ≡ []) }
    {
        let cluster = Cluster::new(alloc, scenario)?;
        Ok(StepCluster {
            scenario,
            cluster,
            made: 0,
        })
    }
}

/// The event of the step line at this place.
#[tactic(auto, using(crate::proofs::Steps::step_at))]
pub fn step_event(steps: &[StepLine], place: usize) -> Option<Event>
    ensures { result ≡ slice_get (events_of steps.now) place }
{
    match steps.get(place) {
        Some(step) => Some(step.event),
        None => None,
    }
}

/// Whether the step line at this place has this event.
fn is_step(steps: &[StepLine], place: usize, event: Event) -> bool
    ensures { IsTrue result ↔ (slice_get (events_of steps.now) place ≡ Some event) }
{
    match step_event(steps, place) {
        Some(next) => is_same(next, event),
        None => false,
    }
}

/// Why a line does not pass whose event the machine does not make.
pub(crate) fn stop_of(fault: EntryFault) -> LineStop
    ensures { result ≡ stop_of fault }
{
    match fault {
        EntryFault::NotEnabled(condition) => LineStop::What(CheckWhat::NotEnabled(condition)),
        EntryFault::LogFull(part) => LineStop::LogFull(part),
        EntryFault::NoMemory => LineStop::NoMemory,
    }
}

impl<'a> Follower for StepCluster<'a> {
    ghost form = { Step };

    ghost scenario = { λ m. m.scenario };

    ghost journal = { λ m. m.journal };

    fn may_come(&self, event: Event) -> bool {
        let scenario = self.scenario;
        is_step(&scenario.steps, self.made, event)
    }

    fn make(&mut self, event: Event) -> Result<Entry, LineStop> {
        match self.cluster.apply(&event) {
            Ok(entry) => {
                self.made += 1;
                Ok(entry)
            }
            Err(fault) => Err(stop_of(fault)),
        }
    }

    fn is_ended(&self) -> bool {
        let scenario = self.scenario;
        self.made == scenario.steps.len()
    }

    fn entries<'b>(&'b self, alloc: Global) -> Result<LoggedJournal<'b>, NoMemory> {
        self.cluster.journal(alloc)
    }
}
