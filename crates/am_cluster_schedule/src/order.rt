//! The order in which workers take turns.

ghost use Rattle.am_cluster_opening.specs.Crews.{AreCrews};
ghost use Rattle.am_cluster_schedule.specs.Order.{behind, crew_turns, drawn_place, first_of, first_turns, threads_below};
ghost use Rattle.am_scenario_generator.specs.Words.{seeded};
ghost use Rattle.rand_pcg.specs.Pcg.{pcg32};
ghost use Rattle.std.specs.Prelude.{◌≡◌, ◌<◌, ◌≤◌, ◌*◌, ◌++◌, ◌∷◌, [], IfOk, IfSome, None, OnOk, length, slice_get};

use am_cluster_opening::NodeCrew;
use am_office_entries::NoMemory;
use am_scenario_types::Scenario;
use rand_core::utils::NextWord;
use rand_pcg::Lcg64Xsh32;
use std::alloc::Global;

/// The stream of the generator, which is that of generated scenarios.
const STREAM: u64 = 54;

/// A worker's part in the crew of its node.
#[derive(Clone, Copy, PartialEq, Eq)]
pub enum Role {
    /// The thread with this place among the node's.
    Thread(usize),
    Interface,
    Driver,
}

/// A worker of the crews of all nodes.
#[derive(Clone, Copy, PartialEq, Eq)]
pub struct Worker {
    /// The place of its crew among the crews.
    pub crew: usize,
    pub role: Role,
}

/// A turn of a worker.
#[derive(Clone, Copy)]
pub struct Turn {
    pub worker: Worker,
    /// How many turns the worker made before.
    pub number: u32,
}

/// Whose turn is next, from turn to turn: each time a worker that the generator draws among those with turns left.
#[derive(Drop)]
pub(crate) struct Order {
    generator: Lcg64Xsh32,
    /// The next turn of each worker that has one left, in the order of the workers.
    next: Vec<Turn>,
}

/// Adds a worker's first turn.
fn add_first(next: &mut Vec<Turn>, crew: usize, role: Role) -> Result<(), NoMemory>
    ensures { OnOk result (next.new.items ≡ next.old.items ++ first_of crew role ∷ []) }
{
    let worker = Worker { crew, role };
    next.push(Turn { worker, number: 0 })?;
    Ok(())
}

/// Adds the first turns of the threads of a crew with so many.
#[tactic(auto, using(crate::proofs::Orders::threads_none, crate::proofs::Orders::threads_more))]
fn add_threads(next: &mut Vec<Turn>, crew: usize, threads: usize) -> Result<(), NoMemory>
    ensures { OnOk result (next.new.items ≡ next.old.items ++ threads_below crew threads) }
{
    for thread in 0..threads {
        add_first(next, crew, Role::Thread(thread))?;
    }
    Ok(())
}

/// Adds the first turns of the workers of a crew with so many threads.
#[tactic(auto, using(crate::proofs::Orders::crew_pushed))]
fn add_crew(next: &mut Vec<Turn>, crew: usize, threads: usize) -> Result<(), NoMemory>
    ensures { OnOk result (next.new.items ≡ next.old.items ++ crew_turns crew threads) }
{
    add_threads(next, crew, threads)?;
    add_first(next, crew, Role::Interface)?;
    add_first(next, crew, Role::Driver)?;
    Ok(())
}

/// The first turns of the workers of a scenario's crews.
#[tactic(auto, using(crate::proofs::Linked::at_index, crate::proofs::Orders::turns_none, crate::proofs::Orders::turns_more))]
fn first_turns(
    alloc: Global,
    scenario: &Scenario,
    crews: &[NodeCrew],
) -> Result<Vec<Turn>, NoMemory>
    requires { AreCrews scenario.now 0 crews.now }
    ensures { IfOk result (λ next. next.items ≡ first_turns scenario.now) }
{
    let mut next = Vec::new(alloc);
    for crew in 0..crews.len() {
        add_crew(&mut next, crew, crews[crew].threads.len())?;
    }
    Ok(next)
}

impl Order {
    /// The order of a seed, before any turn of these crews. `NoMemory` comes only for want of memory.
    pub(crate) fn new(
        alloc: Global,
        seed: u64,
        scenario: &Scenario,
        crews: &[NodeCrew],
    ) -> Result<Order, NoMemory>
        requires { AreCrews scenario.now 0 crews.now }
        ensures generator { IfOk result (λ order. order.generator ≡ seeded seed) }
        ensures next { IfOk result (λ order. order.next.items ≡ first_turns scenario.now) }
    {
        let next = first_turns(alloc, scenario, crews)?;
        Ok(Order {
            generator: Lcg64Xsh32::new(seed, STREAM),
            next,
        })
    }

    /// How many turns are left, where each worker with turns left has so many.
    pub(crate) fn turns_left(&self, each: u32) -> u64
        requires few { length self.now.next.items ≤ 96 }
        ensures { result ≡ length self.now.next.items * each }
    {
        self.next.len() as u64 * u64::from(each)
    }

    /// The turn at this place is taken: there stands its worker's following turn, if it has one.
    #[tactic(auto, unfolding(crate::specs::Order::behind))]
    fn take(&mut self, at: usize, turn: Turn, turns: u32)
        requires at { at < length self.old.next.items }
        ensures next { self.new.next.items ≡ behind turns self.old.next.items at turn }
        ensures generator { self.new.generator ≡ self.old.generator }
    {
        if turn.number < turns && turn.number + 1 < turns {
            self.next[at] = Turn {
                worker: turn.worker,
                number: turn.number + 1,
            };
        } else {
            self.next.remove(at);
        }
    }

    /// Draws the turn that is taken next, where each worker makes so many; `None` where no worker has one left.
    pub(crate) fn draw(&mut self, turns: u32) -> Option<Turn>
        ensures drawn { result ≡ slice_get self.old.next.items (drawn_place self.old.generator self.old.next.items) }
        ensures generator { IfSome result (λ turn. self.new.generator ≡ (pcg32 self.old.generator).1) }
        ensures next { IfSome result (λ turn. self.new.next.items ≡ behind turns self.old.next.items (drawn_place self.old.generator self.old.next.items) turn) }
        ensures none { result ≡ None → self.new ≡ self.old }
    {
        let count = self.next.len();
        if count == 0 {
            return None;
        }
        let at = self.generator.next_word() as usize % count;
        let turn = self.next[at];
        self.take(at, turn, turns);
        Some(turn)
    }
}
