//! Runs in which a node's disk fails: in a turn of its driver, and in the drain.

use crate::gates::{Hold, HoldingGate};
use crate::workloads::scenario_of;
use am_cluster::run;
use am_office_entries::Entry;
use am_office_text::entry_lines::entry_line;
use std::alloc::Global;
use std::process::Abort;
use std::thread::Threads;

/// A thread whose endpoint begins on disk, worker 0. Worker 1 is the interface, and worker 2 the driver. The first read of the disk fails.
const ON_DISK: &str = "am2 1\n\
    network packet\n\
    nodes 1\n\
    turns 4\n\
    endpoint 0 0 5 disk\n\
    thread 0 0\n\
    swapfault 0 1\n\
    t0 tag 0 6\n";

/// The thread wants its endpoint, the driver reads twice, and then the thread makes its call.
const READ_AGAIN_IN_TURNS: &str = "t0 want 0\n\
    d0 pagein 0 -> failed\n\
    d0 pagein 0 -> ok\n\
    t0 tag 0 6 -> ok\n";

/// The same without turns.
const ON_DISK_ALONE: &str = "am2 1\n\
    network packet\n\
    nodes 1\n\
    endpoint 0 0 5 disk\n\
    thread 0 0\n\
    swapfault 0 1\n\
    t0 tag 0 6\n";

const READ_AGAIN_IN_THE_DRAIN: &str =
    "d0 pagein 0 -> failed\nd0 pagein 0 -> ok\nt0 tag 0 6 -> ok\n";

/// Nothing is to stay on the host. Worker 0 is the interface, and worker 1 the driver, whose first write fails.
const CROWDED: &str = "am2 1\n\
    network packet\n\
    nodes 1\n\
    keep 0\n\
    turns 3\n\
    endpoint 0 0 5\n\
    swapfault 0 1\n";

const WRITTEN_AGAIN: &str = "d0 pageout 0 -> failed\nd0 pageout 0 -> ok\n";

/// The lines of the first entries, so many at most.
fn first_lines(rt: &impl Abort, alloc: Global, entries: &[&Entry], count: usize) -> Vec<u8> {
    let mut lines = Vec::new(alloc);
    for entry in entries.iter().take(count) {
        entry_line(entry, &mut lines).expect(rt, "a line");
    }
    lines
}

/// Whether a run whose workers are held so begins with these lines.
pub fn begins<R: Threads + Abort + Sync>(
    rt: &R,
    alloc: Global,
    text: &str,
    holds: &[Hold],
    lines: &str,
) -> bool {
    let gate = HoldingGate::new(holds);
    let scenario = scenario_of(rt, alloc, text);
    let finished = run(rt, alloc, &scenario, &gate).expect(rt, "a run");
    let journal = finished.journal.logged(alloc).expect(rt, "a journal");
    let made = first_lines(rt, alloc, journal.entries(), lines.lines().count());
    gate.held_in_vain() == 0 && made.as_slice() == lines.as_bytes()
}

#[test]
fn what_fails_is_tried_again(rt: HostRuntime) {
    let alloc = rt.alloc();
    let in_step = [((2, 0), (0, 1)), ((0, 1), (2, 2)), ((2, 2), (0, 2))];
    assert!(rt; begins(&rt, alloc, ON_DISK, &in_step, READ_AGAIN_IN_TURNS));
    assert!(rt; begins(&rt, alloc, ON_DISK_ALONE, &[], READ_AGAIN_IN_THE_DRAIN));
    let driver_first = [((0, 0), (1, 2))];
    assert!(rt; begins(&rt, alloc, CROWDED, &driver_first, WRITTEN_AGAIN));
}
