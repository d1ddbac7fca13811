//! What no clause says of an interface: that a channel keeps the slot that its bound message has in flight.

use crate::gates::HoldingGate;
use crate::phases::IN_TURN;
use crate::workloads::scenario_of;
use am_cluster_crew::make_phase;
use am_names::{EndpointId, NodeId, Serial};
use std::process::Abort;

/// A thread whose request is lost on its link, and turns too few for a time-out.
const LOST: &str = "am2 1\n\
    network packet\n\
    nodes 1\n\
    turns 4\n\
    endpoint 0 0 5\n\
    endpoint 1 0 7\n\
    thread 0 0\n\
    plan 0 0 1 lose\n\
    t0 handler 1 1 note\n\
    t0 map 0 0 1 7 1\n\
    t0 request 0 0 1 9 0 0 0\n";

const REQUEST: Serial = Serial {
    source: EndpointId(0),
    count: 1,
};

#[test]
fn a_bound_message_keeps_its_slot(rt: HostRuntime) {
    let scenario = scenario_of(&rt, rt.alloc(), LOST);
    let gate = HoldingGate::new(&IN_TURN);
    let Ok(phase) = make_phase(&rt, rt.alloc(), &scenario, &gate) else {
        rt.panic("no phase")
    };
    assert!(rt; scenario.nodes > 0 && scenario.channels > 0);
    let bound = phase
        .iface(NodeId(0))
        .bound(NodeId(0), 0)
        .expect(&rt, "a bound message");
    assert!(rt; bound.message.serial == REQUEST);
    let source = phase.end(EndpointId(0)).expect(&rt, "its source");
    assert!(rt; source.flight_slot(REQUEST) == Some(bound.slot));
}
