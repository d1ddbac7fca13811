//! The order of serials, and the line of each kind of event.

use crate::printed::entries::CALLS;
use crate::printed::events::OTHERS;
use am_names::{EndpointId, NodeId, Serial};
use am_office_entries::{Entry, Event, Outcome};
use am_office_text::entry_lines::entry_line;
use std::alloc::Global;

#[test]
fn serials_are_ordered_by_source_and_then_by_count(rt: HostRuntime) {
    let first = Serial {
        source: EndpointId(1),
        count: 9,
    };
    let second = Serial {
        source: EndpointId(2),
        count: 1,
    };
    let third = Serial {
        source: EndpointId(2),
        count: 3,
    };
    assert!(rt; first < second);
    assert!(rt; second < third);
    assert!(rt; EndpointId(2) < EndpointId(10));
    assert!(rt; NodeId(2) < NodeId(10));
}

/// Whether this is the line of an entry.
fn is_printed(alloc: Global, event: Event, outcome: Outcome, wanted: &str) -> bool {
    let entry = Entry {
        stamp: 1,
        event,
        outcome,
    };
    let mut line = Vec::new(alloc);
    entry_line(&entry, &mut line).is_ok() && line.as_slice() == wanted.as_bytes()
}

#[test]
fn calls_are_printed(rt: HostRuntime) {
    for (actor, end, call, outcome, wanted) in CALLS.iter() {
        let event = Event::Call {
            actor: *actor,
            end: EndpointId(*end),
            call: *call,
        };
        assert!(rt; is_printed(rt.alloc(), event, *outcome, wanted));
    }
}

#[test]
fn other_events_are_printed(rt: HostRuntime) {
    for (event, outcome, wanted) in OTHERS.iter() {
        assert!(rt; is_printed(rt.alloc(), *event, *outcome, wanted));
    }
}
