//! The part of a channel in worked journals, as calls on its sending and its receiving end.

use am_channel::{Arrival, Bound, Ends, Sent, Settled, Slot, TimedOut};
use am_names::{
    AnswerPacket, Cause, EndpointId, Message, MsgKind, NodeId, Parcel, Serial, Tag, Verdict, Words,
};
use std::process::Abort;

const REQUEST: Message = Message {
    serial: Serial {
        source: EndpointId(0),
        count: 1,
    },
    kind: MsgKind::Request,
    dest: EndpointId(1),
    tag: Tag(7),
    reply_tag: Tag(5),
    handler: 1,
    words: Words {
        a: 9,
        b: 0,
        c: 0,
        d: 0,
    },
    about: None,
};

const ACCEPTED: Verdict = Verdict::Accepted;

const BAD_TAG: Verdict = Verdict::Refused(Cause::BadTag);

const SENT: Sent = Sent { seq: 1, attempt: 0 };

const RESENT: TimedOut = TimedOut::Resend(Sent { seq: 1, attempt: 1 });

const SECOND_TRY: Bound = Bound {
    message: REQUEST,
    slot: Slot(3),
    attempt: 1,
};

/// Binds the request to the sender, which is idle.
fn bind(rt: &impl Abort, ends: &mut Ends) -> Sent {
    assert!(rt; ends.sending.busy().is_none());
    assert!(rt; ends.sending.seq() < 9);
    ends.sending.bind(REQUEST, Slot(3))
}

/// No answer came in time to the sender, which is busy.
fn time_out(rt: &impl Abort, ends: &mut Ends, tries: u8) -> TimedOut {
    assert!(rt; ends.sending.busy().is_some());
    ends.sending.time_out(tries)
}

/// The parcel of an attempt comes, with the verdict that its destination gives where it is fresh.
fn arrive(ends: &mut Ends, attempt: u8, verdict: Verdict) -> Arrival {
    let packet = Parcel {
        from: NodeId(0),
        to: NodeId(1),
        channel: 0,
        seq: 1,
        attempt,
        number: 1,
        stamp: 7,
        message: REQUEST,
    };
    let arrival = ends.receiving.arrive(&packet);
    if let Arrival::Fresh = arrival {
        ends.receiving.decided(&packet, verdict);
    }
    arrival
}

/// The answer to an attempt comes.
fn answer(ends: &mut Ends, attempt: u8, verdict: Verdict) -> Settled {
    ends.sending.answer(&AnswerPacket {
        from: NodeId(1),
        to: NodeId(0),
        channel: 0,
        seq: 1,
        attempt,
        number: 1,
        stamp: 8,
        verdict,
    })
}

#[test]
fn a_lost_acknowledgement(rt: HostRuntime) {
    let mut ends = Ends::new();
    assert!(rt; bind(&rt, &mut ends) == SENT);
    assert!(rt; arrive(&mut ends, 0, ACCEPTED) == Arrival::Fresh);
    assert!(rt; time_out(&rt, &mut ends, 3) == RESENT);
    assert!(rt; arrive(&mut ends, 1, ACCEPTED) == Arrival::Again(ACCEPTED));
    assert!(rt; answer(&mut ends, 1, ACCEPTED) == Settled::Done(SECOND_TRY, ACCEPTED));
    assert!(rt; answer(&mut ends, 0, ACCEPTED) == Settled::Nothing);
}

#[test]
fn a_delayed_earlier_try(rt: HostRuntime) {
    let mut ends = Ends::new();
    assert!(rt; bind(&rt, &mut ends) == SENT);
    assert!(rt; time_out(&rt, &mut ends, 3) == RESENT);
    assert!(rt; arrive(&mut ends, 1, BAD_TAG) == Arrival::Fresh);
    assert!(rt; answer(&mut ends, 1, BAD_TAG) == Settled::Done(SECOND_TRY, BAD_TAG));
    assert!(rt; arrive(&mut ends, 0, ACCEPTED) == Arrival::Stale);
}

#[test]
fn an_old_refusal(rt: HostRuntime) {
    let mut ends = Ends::new();
    assert!(rt; bind(&rt, &mut ends) == SENT);
    assert!(rt; arrive(&mut ends, 0, BAD_TAG) == Arrival::Fresh);
    assert!(rt; time_out(&rt, &mut ends, 3) == RESENT);
    assert!(rt; arrive(&mut ends, 1, ACCEPTED) == Arrival::Fresh);
    assert!(rt; answer(&mut ends, 0, BAD_TAG) == Settled::Nothing);
    assert!(rt; answer(&mut ends, 1, ACCEPTED) == Settled::Done(SECOND_TRY, ACCEPTED));
}

#[test]
fn unknown_but_ran(rt: HostRuntime) {
    let mut ends = Ends::new();
    assert!(rt; bind(&rt, &mut ends) == SENT);
    assert!(rt; time_out(&rt, &mut ends, 2) == RESENT);
    assert!(rt; time_out(&rt, &mut ends, 2) == TimedOut::GaveUp(SECOND_TRY));
    assert!(rt; arrive(&mut ends, 1, ACCEPTED) == Arrival::Fresh);
    assert!(rt; answer(&mut ends, 1, ACCEPTED) == Settled::Nothing);
}
