//! Each kind of line of a scenario, and the order of faults.

use crate::readers::{Reader, is_kept, try_rows};
use crate::scenarios::limits::LIMITS;
use crate::scenarios::runs::RUNS;
use crate::scenarios::single_lines::{
    PLAN_HEAD, PLAN_LINES, POOL_HEAD, POOL_LINES, RUN_HEAD, RUN_LINES, STEP_HEAD, STEP_LINES,
};
use crate::scenarios::tables::{DECLARATIONS, EVENTS, FIRST_LINES, SETTINGS};
use am_names::{AnswerPacket, NodeId, Packet, Verdict};
use am_scenario::{Form, LinkFault, PlanLine, shape};

const STEP: Reader = Reader::Scenario(Form::Step);

const RUN: Reader = Reader::Scenario(Form::Run);

#[test]
fn first_lines_and_settings_have_their_faults(rt: HostRuntime) {
    try_rows(&rt, rt.alloc(), STEP, "", FIRST_LINES.as_slice());
    try_rows(&rt, rt.alloc(), STEP, "", SETTINGS.as_slice());
}

#[test]
fn declarations_and_events_have_their_faults(rt: HostRuntime) {
    try_rows(&rt, rt.alloc(), STEP, "", DECLARATIONS.as_slice());
    try_rows(&rt, rt.alloc(), STEP, "", EVENTS.as_slice());
}

#[test]
fn steps_have_their_faults(rt: HostRuntime) {
    try_rows(&rt, rt.alloc(), STEP, STEP_HEAD, STEP_LINES.as_slice());
    try_rows(&rt, rt.alloc(), STEP, POOL_HEAD, POOL_LINES.as_slice());
}

#[test]
fn runs_have_their_faults(rt: HostRuntime) {
    try_rows(&rt, rt.alloc(), RUN, "", RUNS.as_slice());
    try_rows(&rt, rt.alloc(), RUN, RUN_HEAD, RUN_LINES.as_slice());
    try_rows(&rt, rt.alloc(), RUN, PLAN_HEAD, PLAN_LINES.as_slice());
}

#[test]
fn one_line_too_many(rt: HostRuntime) {
    for limit in LIMITS.iter() {
        assert!(rt; matches!(is_kept(rt.alloc(), *limit), Ok(true)));
    }
}

fn answer(number: u32) -> Packet {
    Packet::Answer(AnswerPacket {
        from: NodeId(0),
        to: NodeId(1),
        channel: 0,
        seq: 1,
        attempt: 0,
        number,
        stamp: 10,
        verdict: Verdict::Accepted,
    })
}

fn plan_line(number: u32, fault: LinkFault) -> PlanLine {
    PlanLine {
        from: NodeId(0),
        to: NodeId(1),
        number,
        fault,
    }
}

#[test]
fn five_packets(rt: HostRuntime) {
    let plan = [
        plan_line(2, LinkFault::Lose),
        plan_line(3, LinkFault::Late(2)),
        plan_line(4, LinkFault::Repeat),
    ];
    let emitted = [answer(1), answer(2), answer(3), answer(4), answer(5)];
    let released = [answer(1), answer(4), answer(4), answer(5), answer(3)];
    let (from, to) = (NodeId(0), NodeId(1));
    let five = shape(rt.alloc(), &plan, from, to, &emitted).expect(&rt, "ample memory");
    assert!(rt; five.as_slice() == released.as_slice());
    let four = shape(rt.alloc(), &plan, from, to, &emitted[..4]).expect(&rt, "ample memory");
    assert!(rt; four.as_slice() == &released[..3]);
}
