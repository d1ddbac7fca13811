//! An application thread, from turn to turn.
ghost use Rattle.am_scenario_types.specs.Lists.{ScenarioLists};
ghost use Rattle.am_names.specs.Names.{same_end};
ghost use Rattle.am_workers.specs.Turns.Callers.{CallTurns, HaveRange, IsScript, next_after};
ghost use Rattle.am_workers.specs.Turns.Turns.{clock_after};
ghost use Rattle.am_workers_laws.specs.Invariants.Seats.{IsIdle, SameSeat};
ghost use Rattle.am_workers_laws.specs.Invariants.Works.{ThreadWorks};
ghost use Rattle.std.specs.Prelude.{◌≡◌, ◌≢◌, ◌+◌, ◌≤◌, ℕ, IfNone, IfSome, Some, length, position, slice_get};
ghost use Rattle.am_places.specs.Seats.{pass_of, table_in};

use crate::turns::threads::thread_turn;
use crate::turns::turns::ThreadTurn;
use am_names::EndpointId;
use am_places::{Places, Seat};
use am_scenario_types::ScriptCall;
use am_workers_laws::books::EndBook;

/// The place of an endpoint of the node: the first that has its number. `None` where it is of another node.
pub(crate) fn place_of(ids: &[EndpointId], end: EndpointId) -> Option<usize>
    ensures place { result ≡ position (same_end end) ids.now }
    ensures there { IfSome result (λ k. slice_get ids.now k ≡ Some end) }
{
    ids.iter().position(|id| end.0 == id.0)
}

/// The call with this number, from 0, if there is one.
fn call_at(script: &[ScriptCall], number: usize) -> Option<ScriptCall>
    ensures { result ≡ slice_get script.now number }
{
    script.get(number).copied()
}

/// How many calls the thread has made after this turn.
fn next_after(next: usize, turn: &ThreadTurn) -> usize
    requires { next + 1 ≤ 65536 }
    ensures { result ≡ next_after next turn.now }
{
    match turn {
        ThreadTurn::Made(_) => next + 1,
        ThreadTurn::Wanted(_)
        | ThreadTurn::Busy { .. }
        | ThreadTurn::Waits
        | ThreadTurn::Full
        | ThreadTurn::Spent
        | ThreadTurn::NoMemory => next,
    }
}

/// A turn of a thread: its next call, if one is left. `None` where none is left that it can make on its node: nothing has changed
/// then. Its next call and its clock move on with a call that is made, and its clock with a want; with any other answer, want of
/// memory among them, both stay.
pub fn call_turn(
    places: &Places<EndBook>,
    seat: &mut Seat<EndBook>,
    ids: &[EndpointId],
    script: &[ScriptCall],
    thread: u8,
    next: &mut usize,
    clock: &mut u64,
) -> Option<ThreadTurn>
    requires idle { IsIdle (table_in places.now) seat.old.token }
    requires count { places.now.count ≡ length ids.now }
    requires guest { (pass_of seat.old).mark ≢ (pass_of seat.old).seats }
    requires numbers { HaveRange (pass_of seat.old) script.now }
    requires few { length script.now ≤ 65536 }
    ensures idle { IsIdle (table_in places.now) seat.new.token }
    ensures seat { SameSeat (pass_of seat.old) (pass_of seat.new) }
    ensures next { IfSome result (λ turn. next.new ≡ next_after next.old turn) }
    ensures clock { IfSome result (λ turn. clock.new ≡ clock_after clock.old turn) }
    ensures none { IfNone result ((next.new ≡ next.old) × (clock.new ≡ clock.old)) }
    ensures turn { CallTurns ids.now script.now thread next.old clock.old (pass_of seat.old) (pass_of seat.new) result }
    ensures works { (s : ScenarioLists) (turns : ℕ) → IsScript s thread script.now → ThreadWorks s ids.now thread turns next.old clock.old (pass_of seat.old) → ThreadWorks s ids.now thread (turns + 1) next.new clock.new (pass_of seat.new) }
{
    let Some(call) = call_at(script, *next) else {
        return None;
    };
    let Some(at) = place_of(ids, call.endpoint) else {
        return None;
    };
    let turn = thread_turn(places, seat, at, thread, call.call, clock);
    *next = next_after(*next, &turn);
    Some(turn)
}
