//! What the workers of a run keep, put together when its phase is over: their logs merge into a phase that the drain may begin
//! with, wherever each worker stopped. Each theorem is the contract of a function with an empty body.
#![tactic(auto)]

ghost use Rattle.am_workers_laws.specs.Laws.{EmptyIsAPhase, EndsAreAPhase, NoTurnsNoPhase, WorkersAreDone};

pub mod books;
pub mod invariants;
pub mod phases;

/// What all workers keep at the end of the phase, with the books and the links, is what a good phase is made of.
pub fn workers_are_done()
    ensures { WorkersAreDone }
{}

/// So the logs of all endpoints and interfaces merge into a good phase of the scenario.
pub fn ends_are_a_phase()
    ensures { EndsAreAPhase }
{}

/// Without turns the phase is empty, and the empty phase is a good one of every scenario.
pub fn no_turns_no_phase()
    ensures none { NoTurnsNoPhase }
    ensures good { EmptyIsAPhase }
{}
