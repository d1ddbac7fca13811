//! A worker is made of its seat and what it has beside.

ghost use Rattle.am_cluster_opening.specs.Making.{AreSeated, AreThreadsMade, IsThreadMade};
ghost use Rattle.std.specs.Prelude.{◌≡◌, ◌+◌, ◌<◌, IfOk, Some, length, slice_get};

use crate::node::calls_of;
use am_names::NoMemory;
use am_places::Seat;
use am_scenario_types::Scenario;
use am_workers::ThreadWorker;
use am_workers_laws::books::EndBook;
use std::alloc::Global;

/// A thread with its script, of which it made no call.
fn open_thread(
    alloc: Global,
    scenario: &Scenario,
    thread: u8,
    seat: Seat<EndBook>,
) -> Result<ThreadWorker, NoMemory>
    ensures { IfOk result (IsThreadMade scenario.now thread seat) }
{
    let script = calls_of(alloc, &scenario.script, thread)?;
    Ok(ThreadWorker {
        seat,
        thread,
        script,
        next: 0,
        clock: 0,
        stop: None,
    })
}

/// The number with this place.
fn id_at(ids: &[u8], at: usize) -> u8
    requires { at < length ids.now }
    ensures { slice_get ids.now at ≡ Some result }
{
    ids[at]
}

/// The threads of these numbers, each with the seat of the same place.
fn open_threads(
    alloc: Global,
    scenario: &Scenario,
    ids: &[u8],
    seats: &mut Vec<Seat<EndBook>>,
) -> Result<Vec<ThreadWorker>, NoMemory>
    requires { length seats.old.items ≡ length ids.now }
    ensures { IfOk result (λ threads. AreThreadsMade scenario.now ids.now seats.old.items (length ids.now) threads.items) }
{
    let mut threads = Vec::new(alloc);
    seats.reverse();
    while let Some(seat) = seats.pop() {
        let id = id_at(ids, threads.len());
        let thread = open_thread(alloc, scenario, id, seat)?;
        threads.push(thread)?;
    }
    Ok(threads)
}

/// What the workers of a node need beside what it was opened with: its threads, and the seats of its interface and its driver.
#[derive(Drop)]
pub(crate) struct Seated {
    pub(crate) threads: Vec<ThreadWorker>,
    pub(crate) interface: Seat<EndBook>,
    pub(crate) driver: Seat<EndBook>,
}

/// The threads of these numbers at the first of the seats, then the interface's seat and the driver's.
pub(crate) fn seat_all(
    alloc: Global,
    scenario: &Scenario,
    ids: &[u8],
    seats: &mut Vec<Seat<EndBook>>,
) -> Result<Seated, NoMemory>
    requires { length seats.old.items ≡ length ids.now + 2 }
    ensures { IfOk result (AreSeated scenario.now ids.now seats.old.items) }
{
    let driver = seats.pop().unwrap();
    let interface = seats.pop().unwrap();
    let threads = open_threads(alloc, scenario, ids, seats)?;
    Ok(Seated {
        threads,
        interface,
        driver,
    })
}
