//! Links on one thread and between two.

ghost use Rattle.am_wire.specs.Links.{IsLink, SameLink};

use am_names::{AnswerPacket, NodeId, Packet, Verdict};
use am_scenario_plan::{LinkFault, PlanLine};
use am_wire::{LinkIn, LinkOut, make_link};
use am_wire_plain::{close_plain, make_plain};
use std::alloc::Global;
use std::process::Abort;
use std::thread;

fn answer(number: u32, stamp: u64) -> Packet {
    Packet::Answer(AnswerPacket {
        from: NodeId(0),
        to: NodeId(1),
        channel: 0,
        seq: 1,
        attempt: 0,
        number,
        stamp,
        verdict: Verdict::Accepted,
    })
}

macro_rules! line {
    ($from:expr, $to:expr, $number:expr, $fault:expr) => {
        PlanLine {
            from: NodeId($from),
            to: NodeId($to),
            number: $number,
            fault: $fault,
        }
    };
}

// Packet 1 is lost, 2 is repeated, 3 is late until the emission 6, and 4 until the emission 6 too. The other lines are of
// other links, of packets that are not emitted, or of a packet of which an earlier line speaks.
const PLAN: [PlanLine; 7] = [
    line!(1, 0, 2, LinkFault::Lose),
    line!(0, 1, 1, LinkFault::Lose),
    line!(0, 1, 2, LinkFault::Repeat),
    line!(0, 1, 3, LinkFault::Late(3)),
    line!(0, 1, 4, LinkFault::Late(2)),
    line!(0, 1, 2, LinkFault::Lose),
    line!(0, 1, 9, LinkFault::Lose),
];

// What the emissions 1 to 7 release, each packet by its number and its stamp.
const RELEASED: [(u32, u64); 7] = [
    (2, 102),
    (2, 102),
    (5, 105),
    (6, 106),
    (3, 106),
    (4, 106),
    (7, 107),
];

// Whether `next` gives these packets, and nothing after them.
fn gives(inn: &mut LinkIn, row: &[(u32, u64)]) -> bool {
    for (number, stamp) in row {
        if inn.next() != Some(answer(*number, *stamp)) {
            return false;
        }
    }
    inn.next().is_none()
}

// Offers seven packets, each emitted at the stamp 100 + its number, and pumps after each.
fn offer_all(out: &mut LinkOut) -> bool
    ensures { SameLink out.old out.new }
{
    for number in 1..=7_u32 {
        if out.offer(answer(number, 100 + u64::from(number))).is_err() {
            return false;
        }
        out.pump();
    }
    true
}

fn sends(out: LinkOut) -> bool {
    let mut out = out;
    offer_all(&mut out)
}

// The link with this plan.
fn opened(rt: &impl Abort, alloc: Global) -> (LinkOut, LinkIn)
    ensures { IsLink result.0 result.1 }
{
    let plan = Vec::from_slice(alloc, &PLAN).expect(rt, "a plan");
    let Ok(ends) = make_link(alloc, plan, NodeId(0), NodeId(1)) else {
        rt.panic("no link")
    };
    ends
}

#[test]
fn on_one_thread_with_and_without_beside(rt: HostRuntime) {
    for look in [true, false] {
        let (mut out, mut inn) = opened(&rt, rt.alloc());
        assert!(rt; inn.next().is_none());
        assert!(rt; offer_all(&mut out));
        if look {
            inn.beside(&mut out);
        }
        assert!(rt; gives(&mut inn, &RELEASED));
    }
}

// A thread of its own offers and pumps, and has ended when this one receives.
#[test]
fn from_one_thread_to_another(rt: HostRuntime) {
    let (out, mut inn) = opened(&rt, rt.alloc());
    let (offered, _) = thread::join(&rt, move || sends(out), || true);
    assert!(rt; offered);
    assert!(rt; gives(&mut inn, &RELEASED));
}

// A relay without faults, of items that bear no stamp.
#[test]
fn what_comes_is_what_was_sent(rt: HostRuntime) {
    let (mut out, inn) = make_plain::<u8>(rt.alloc()).expect(&rt, "a relay");
    out.offer(7).expect(&rt, "an item");
    out.pump();
    let all = close_plain(rt.alloc(), out, inn).expect(&rt, "a record");
    assert!(rt; all.left.as_slice() == [7].as_slice());
}
