//! Events that are no calls, with the lines that a journal prints of them.

use crate::printed::entries::{FIRST, REQUEST, SEVENTEENTH};
use am_names::{Cause, EndpointId, NodeId, Verdict};
use am_office_entries::{Actor, Event, Outcome, Received};

/// Every other kind of event, its outcome and the line.
pub static OTHERS: [(Event, Outcome, &str); 30] = [
    (
        Event::Want {
            actor: Actor::Outside,
            end: EndpointId(0),
        },
        Outcome::Silent,
        "x want 0\n",
    ),
    (
        Event::Want {
            actor: Actor::Thread(3),
            end: EndpointId(0),
        },
        Outcome::Silent,
        "t3 want 0\n",
    ),
    (
        Event::Carry { end: EndpointId(0) },
        Outcome::Accepted(REQUEST),
        "x carry 0 -> accepted 0.1\n",
    ),
    (
        Event::Carry { end: EndpointId(0) },
        Outcome::Requeued {
            message: SEVENTEENTH,
            cause: Cause::QueueFull,
            used: 1,
        },
        "x carry 0 -> requeued 0.17 queue-full\n",
    ),
    (
        Event::Carry { end: EndpointId(0) },
        Outcome::Returned {
            message: SEVENTEENTH,
            cause: Cause::QueueFull,
        },
        "x carry 0 -> returned 0.17 queue-full\n",
    ),
    (
        Event::Carry { end: EndpointId(0) },
        Outcome::Returned {
            message: REQUEST,
            cause: Cause::NoEndpoint,
        },
        "x carry 0 -> returned 0.1 no-endpoint\n",
    ),
    (
        Event::Carry { end: EndpointId(0) },
        Outcome::Returned {
            message: REQUEST,
            cause: Cause::NotResident,
        },
        "x carry 0 -> returned 0.1 not-resident\n",
    ),
    (
        Event::Carry { end: EndpointId(0) },
        Outcome::Returned {
            message: REQUEST,
            cause: Cause::BadTag,
        },
        "x carry 0 -> returned 0.1 bad-tag\n",
    ),
    (
        Event::Carry { end: EndpointId(0) },
        Outcome::Returned {
            message: REQUEST,
            cause: Cause::BadHandler,
        },
        "x carry 0 -> returned 0.1 bad-handler\n",
    ),
    (
        Event::Carry { end: EndpointId(0) },
        Outcome::Returned {
            message: REQUEST,
            cause: Cause::NoRequest,
        },
        "x carry 0 -> returned 0.1 no-request\n",
    ),
    (
        Event::Bind {
            node: NodeId(0),
            end: EndpointId(0),
        },
        Outcome::Sent {
            message: REQUEST,
            peer: NodeId(1),
            channel: 0,
            seq: 1,
            attempt: 0,
            number: 1,
        },
        "i0 bind 0 -> sent 0.1 1 0 1 0 1\n",
    ),
    (
        Event::Expire {
            node: NodeId(0),
            peer: NodeId(1),
            channel: 0,
        },
        Outcome::Sent {
            message: REQUEST,
            peer: NodeId(1),
            channel: 0,
            seq: 1,
            attempt: 1,
            number: 2,
        },
        "i0 expire 1 0 -> sent 0.1 1 0 1 1 2\n",
    ),
    (
        Event::Expire {
            node: NodeId(0),
            peer: NodeId(1),
            channel: 0,
        },
        Outcome::Delivered(FIRST),
        "i0 expire 1 0 -> delivered 0.1\n",
    ),
    (
        Event::Expire {
            node: NodeId(0),
            peer: NodeId(1),
            channel: 0,
        },
        Outcome::Unknown(FIRST),
        "i0 expire 1 0 -> unknown 0.1\n",
    ),
    (
        Event::Receive {
            node: NodeId(1),
            peer: NodeId(0),
            number: 1,
        },
        Outcome::Received {
            channel: 0,
            seq: 1,
            attempt: 0,
            result: Received::Accepted {
                message: REQUEST,
                answer: 1,
            },
        },
        "i1 receive 0 1 -> accepted 0.1 answer 1\n",
    ),
    (
        Event::Receive {
            node: NodeId(1),
            peer: NodeId(0),
            number: 2,
        },
        Outcome::Received {
            channel: 0,
            seq: 1,
            attempt: 0,
            result: Received::Refused {
                message: REQUEST,
                cause: Cause::BadTag,
                answer: 1,
            },
        },
        "i1 receive 0 2 -> refused 0.1 bad-tag answer 1\n",
    ),
    (
        Event::Receive {
            node: NodeId(1),
            peer: NodeId(0),
            number: 2,
        },
        Outcome::Received {
            channel: 0,
            seq: 1,
            attempt: 0,
            result: Received::Again {
                serial: FIRST,
                verdict: Verdict::Accepted,
                answer: 2,
            },
        },
        "i1 receive 0 2 -> again 0.1 accepted answer 2\n",
    ),
    (
        Event::Receive {
            node: NodeId(1),
            peer: NodeId(0),
            number: 2,
        },
        Outcome::Received {
            channel: 0,
            seq: 1,
            attempt: 0,
            result: Received::Again {
                serial: FIRST,
                verdict: Verdict::Refused(Cause::NotResident),
                answer: 2,
            },
        },
        "i1 receive 0 2 -> again 0.1 not-resident answer 2\n",
    ),
    (
        Event::Receive {
            node: NodeId(1),
            peer: NodeId(0),
            number: 1,
        },
        Outcome::Received {
            channel: 0,
            seq: 1,
            attempt: 0,
            result: Received::Stale,
        },
        "i1 receive 0 1 -> stale\n",
    ),
    (
        Event::Receive {
            node: NodeId(0),
            peer: NodeId(1),
            number: 2,
        },
        Outcome::Received {
            channel: 0,
            seq: 1,
            attempt: 0,
            result: Received::Delivered(FIRST),
        },
        "i0 receive 1 2 -> delivered 0.1\n",
    ),
    (
        Event::Receive {
            node: NodeId(0),
            peer: NodeId(1),
            number: 1,
        },
        Outcome::Received {
            channel: 0,
            seq: 1,
            attempt: 0,
            result: Received::Requeued {
                serial: FIRST,
                cause: Cause::NotResident,
                used: 1,
            },
        },
        "i0 receive 1 1 -> requeued 0.1 not-resident\n",
    ),
    (
        Event::Receive {
            node: NodeId(0),
            peer: NodeId(1),
            number: 1,
        },
        Outcome::Received {
            channel: 0,
            seq: 1,
            attempt: 0,
            result: Received::Returned {
                serial: FIRST,
                cause: Cause::BadTag,
            },
        },
        "i0 receive 1 1 -> returned 0.1 bad-tag\n",
    ),
    (
        Event::Receive {
            node: NodeId(0),
            peer: NodeId(1),
            number: 1,
        },
        Outcome::Received {
            channel: 0,
            seq: 1,
            attempt: 0,
            result: Received::Nothing,
        },
        "i0 receive 1 1 -> nothing\n",
    ),
    (
        Event::Drain {
            node: NodeId(0),
            end: EndpointId(1),
        },
        Outcome::Silent,
        "d0 drain 1\n",
    ),
    (
        Event::Unload {
            node: NodeId(0),
            end: EndpointId(1),
        },
        Outcome::Silent,
        "d0 unload 1\n",
    ),
    (
        Event::Load {
            node: NodeId(0),
            end: EndpointId(2),
            frame: 1,
        },
        Outcome::Silent,
        "d0 load 2 1\n",
    ),
    (
        Event::PageOut {
            node: NodeId(0),
            end: EndpointId(0),
        },
        Outcome::Done,
        "d0 pageout 0 -> ok\n",
    ),
    (
        Event::PageOut {
            node: NodeId(0),
            end: EndpointId(0),
        },
        Outcome::Failed,
        "d0 pageout 0 -> failed\n",
    ),
    (
        Event::PageIn {
            node: NodeId(0),
            end: EndpointId(0),
        },
        Outcome::Failed,
        "d0 pagein 0 -> failed\n",
    ),
    (
        Event::PageIn {
            node: NodeId(0),
            end: EndpointId(0),
        },
        Outcome::Done,
        "d0 pagein 0 -> ok\n",
    ),
];
