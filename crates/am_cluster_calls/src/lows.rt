//! Where the thread that made the fewest calls is found at once: no thread before the place made as few.

ghost use Rattle.am_cluster_drainer.specs.Firsts.{IsFewest, IsNext};
ghost use Rattle.am_cluster_drainer.specs.Reads.{left_of};
ghost use Rattle.am_cluster_calls.specs.Lows.{IsLow, IsLowAt, is_low};
ghost use Rattle.am_cluster_calls.specs.Threads.{Scripted, left_in, scripted_in};
ghost use Rattle.std.specs.Prelude.{◌≡◌, List, Some, map, option_map};

use crate::threads::{ThreadScript, fewest, left_to};
use am_cluster_drainer::LeftCall;
use am_office_entries::{Actor, Event};

/// Where the thread that made the fewest calls is looked for, of those to which a call is left.
#[derive(Clone, Copy)]
pub struct LowMark {
    /// Each of them made so many calls or more.
    made: u32,
    /// Each of them before this place made more.
    from: usize,
}

/// The mark of threads of which nothing is known.
pub fn no_low() -> Option<LowMark>
    ensures { (ts : List Scripted) → IsLow ts result }
{
    Some(LowMark { made: 0, from: 0 })
}

/// Whether a call is left to a thread, and it made no more than so many.
fn is_low(thread: &ThreadScript, made: u32) -> bool
    ensures { result ≡ is_low made (scripted_in thread.now) }
{
    thread.made <= made && (thread.made as usize) < thread.calls.len()
}

/// The place of the first thread at or behind a mark that made no more than the mark says, if there is one.
fn next_low(threads: &[ThreadScript], mark: LowMark) -> Option<usize>
    ensures { IsNext (is_low mark.made) (map scripted_in threads.now) mark.from result }
{
    let count = threads.len();
    for index in mark.from..count {
        if is_low(&threads[index], mark.made) {
            return Some(index);
        }
    }
    None
}

/// What is left to the thread that made the fewest calls, the least among equals, as a mark tells.
fn fewest_at(threads: &[ThreadScript], mark: LowMark) -> Option<LeftCall>
    requires { IsLowAt (map scripted_in threads.now) mark.made mark.from }
    ensures { IsFewest left_in (map scripted_in threads.now) (option_map left_of result) }
{
    match next_low(threads, mark) {
        Some(place) => left_to(&threads[place]),
        None => fewest(threads),
    }
}

/// The same, where nothing is left if there is no mark.
pub fn fewest_from(threads: &[ThreadScript], low: Option<LowMark>) -> Option<LeftCall>
    requires { IsLow (map scripted_in threads.now) low }
    ensures { IsFewest left_in (map scripted_in threads.now) (option_map left_of result) }
{
    match low {
        Some(mark) => fewest_at(threads, mark),
        None => None,
    }
}

/// The mark at the thread that made the fewest calls, found by a look at each.
fn low_of(threads: &[ThreadScript]) -> Option<LowMark>
    ensures { IsLow (map scripted_in threads.now) result }
{
    match fewest(threads) {
        Some(left) => Some(LowMark {
            made: left.after,
            from: 0,
        }),
        None => None,
    }
}

/// The mark moved on to the thread that made the fewest calls.
fn moved(threads: &[ThreadScript], mark: LowMark) -> Option<LowMark>
    requires { IsLowAt (map scripted_in threads.now) mark.made mark.from }
    ensures { IsLow (map scripted_in threads.now) result }
{
    match next_low(threads, mark) {
        Some(place) => Some(LowMark {
            made: mark.made,
            from: place,
        }),
        None => low_of(threads),
    }
}

/// Whether an event is a call of a thread.
fn is_call(event: &Event) -> bool {
    matches!(
        event,
        Event::Call {
            actor: Actor::Thread(_),
            ..
        }
    )
}

/// The mark after an event was counted: a call of a thread moves it on.
pub fn low_after(threads: &[ThreadScript], low: Option<LowMark>, event: &Event) -> Option<LowMark>
    requires { IsLow (map scripted_in threads.now) low }
    ensures { IsLow (map scripted_in threads.now) result }
{
    match low {
        Some(mark) if is_call(event) => moved(threads, mark),
        _ => low,
    }
}
