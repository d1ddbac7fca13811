//! Runs whose threads, interfaces and drivers work at the same time. That two of them do, and that they make entries at all,
//! no clause says.

use crate::disks::begins;
use crate::gates::{Hold, HoldingGate, StepGate};
use crate::workloads::{scenario_of, workload};
use am_cluster::{OpenGate, drain_phase, run};
use am_cluster_crew::make_phase;
use am_machine::Cluster;
use am_office_entries::logged::LoggedJournal;
use am_office_entries::{Entry, Event, accepted_of};
use am_office_report::report;
use std::alloc::Global;
use std::process::Abort;

/// Two clients on node 0 and a server on node 1, each with a thread that makes its calls.
const CLIENTS: &str = "am2 1\n\
    network packet\n\
    nodes 2\n\
    frames 2\n\
    channels 2\n\
    turns 1000\n\
    endpoint 0 0 11\n\
    endpoint 1 0 12\n\
    endpoint 2 1 20\n\
    thread 0 0\n\
    thread 1 0\n\
    thread 2 1\n\
    plan 0 1 2 lose\n\
    t0 handler 0 4 note\n\
    t0 map 0 0 2 20 2\n\
    t0 request 0 0 3 100 0 0 0\n\
    t0 poll 0\n\
    t1 handler 1 4 note\n\
    t1 map 1 0 2 20 2\n\
    t1 request 1 0 3 23 0 0 0\n\
    t1 poll 1\n\
    t2 handler 2 3 add 4\n\
    t2 poll 2\n\
    t2 poll 2\n\
    t2 poll 2\n";

/// An interface and a driver on each node, with one turn.
const ONE_NODE: &str = "am2 1\n\
    network packet\n\
    nodes 1\n\
    turns 1\n\
    endpoint 0 0 5\n";

const TWO_NODES: &str = "am2 1\n\
    network packet\n\
    nodes 2\n\
    turns 1\n\
    endpoint 0 0 5\n\
    endpoint 1 1 7\n";

/// A thread that makes three calls, worker 0. Worker 1 is the interface, and worker 2 the driver.
const ONE_THREAD: &str = "am2 1\n\
    network packet\n\
    nodes 1\n\
    turns 4\n\
    endpoint 0 0 5\n\
    endpoint 1 0 7\n\
    thread 0 0\n\
    t0 handler 1 1 note\n\
    t0 map 0 0 1 7 1\n\
    t0 request 0 0 1 9 0 0 0\n";

/// The driver waits until the thread has made its calls, the interface until the driver has loaded, and the driver again for the interface.
pub const IN_TURN: [Hold; 3] = [((2, 0), (0, 3)), ((1, 0), (2, 3)), ((2, 3), (1, 3))];

/// What these three make of it, each in its turn.
const FIRST_FIVE: &str = "t0 handler 1 1 note -> ok\n\
    t0 map 0 0 1 7 1 -> ok\n\
    t0 request 0 0 1 9 0 0 0 -> ok 0.1\n\
    d0 load 0 0\n\
    i0 bind 0 -> sent 0.1 0 0 1 0 1\n";

/// The number of accepted messages.
fn accepted(entries: &[&Entry]) -> usize {
    let mut count = 0usize;
    for entry in entries {
        if accepted_of(entry).is_some() {
            count = count.saturating_add(1);
        }
    }
    count
}

/// The number of fates that a journal's report tells, of which none is pending.
fn fates_told(rt: &impl Abort, alloc: Global, journal: &LoggedJournal) -> usize {
    let bytes = report(alloc, &[], journal).expect(rt, "a report");
    let text = String::from_utf8(bytes).expect(rt, "a text");
    assert!(rt; text.ends_with(" pending 0\n"));
    let mut told = 0usize;
    for line in text.lines() {
        if line.starts_with("fate ") {
            told = told.saturating_add(1);
        }
    }
    told
}

#[test]
fn clients_and_a_server_work_at_the_same_time(rt: HostRuntime) {
    let scenario = scenario_of(&rt, rt.alloc(), CLIENTS);
    let finished = run(&rt, rt.alloc(), &scenario, &OpenGate).expect(&rt, "a run");
    let journal = finished.journal.logged(rt.alloc()).expect(&rt, "a journal");
    assert!(rt; fates_told(&rt, rt.alloc(), &journal) == accepted(journal.entries()));
}

#[test]
fn two_workers_hold_each_other(rt: HostRuntime) {
    for (text, other) in [(ONE_NODE, 1), (TWO_NODES, 2)] {
        let holds = [((0, 0), (other, 0)), ((other, 0), (0, 0))];
        let gate = HoldingGate::new(&holds);
        let scenario = scenario_of(&rt, rt.alloc(), text);
        assert!(rt; run(&rt, rt.alloc(), &scenario, &gate).is_ok());
        assert!(rt; gate.held_in_vain() == 0);
    }
}

#[test]
fn thread_driver_and_interface_make_the_first_entries(rt: HostRuntime) {
    assert!(rt; begins(&rt, rt.alloc(), ONE_THREAD, &IN_TURN, FIRST_FIVE));
}

/// The number of entries that a phase made, and of the receipts of packets among them.
fn made_in(rt: &impl Abort, alloc: Global, phase: &Cluster) -> (usize, usize) {
    let journal = phase.journal(alloc).expect(rt, "a journal");
    let mut received = 0usize;
    for entry in journal.entries() {
        if let Event::Receive { .. } = entry.event {
            received = received.saturating_add(1);
        }
    }
    (journal.entries().len(), received)
}

/// The made workload has 16 workers: eight threads, and an interface and a driver on each of four nodes. Kept in step they make more entries
/// than the drain has to make after them, and what an interface emits on a link comes to the one at its other end.
#[test]
fn most_entries_are_made_in_the_phase(rt: HostRuntime) {
    let Ok(scenario) = workload(rt.alloc(), 1000) else {
        rt.panic("no workload")
    };
    let gate = StepGate::new(&rt, 16);
    let Ok(phase) = make_phase(&rt, rt.alloc(), &scenario, &gate) else {
        rt.panic("no phase")
    };
    let (by_workers, received) = made_in(&rt, rt.alloc(), &phase);
    assert!(rt; received > 0);
    let finished = drain_phase(&scenario, phase).expect(&rt, "a run");
    let journal = finished.journal.logged(rt.alloc()).expect(&rt, "a journal");
    assert!(rt; by_workers > journal.entries().len() / 2);
}
