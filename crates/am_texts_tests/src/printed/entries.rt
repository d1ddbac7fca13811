//! Calls with the lines that a journal prints of them.

use am_names::{Cause, EndpointId, Message, MsgKind, Serial, Tag, Why, Words};
use am_office_entries::{Actor, Call, HandlerKind, Mask, Outcome, Refusal};

pub const FIRST: Serial = Serial {
    source: EndpointId(0),
    count: 1,
};

// A request of endpoint 0 for handler 1 of endpoint 1.
pub const REQUEST: Message = Message {
    serial: FIRST,
    kind: MsgKind::Request,
    dest: EndpointId(1),
    tag: Tag(7),
    reply_tag: Tag(5),
    handler: 1,
    words: Words {
        a: 9,
        b: 0,
        c: 0,
        d: 0,
    },
    about: None,
};

pub const SEVENTEENTH: Message = Message {
    serial: Serial {
        source: EndpointId(0),
        count: 17,
    },
    kind: MsgKind::Request,
    dest: EndpointId(1),
    tag: Tag(7),
    reply_tag: Tag(5),
    handler: 1,
    words: Words {
        a: 0,
        b: 0,
        c: 0,
        d: 0,
    },
    about: None,
};

// The answer of endpoint 1 to the first.
const REPLY: Message = Message {
    serial: Serial {
        source: EndpointId(1),
        count: 1,
    },
    kind: MsgKind::Reply,
    dest: EndpointId(0),
    tag: Tag(5),
    reply_tag: Tag(0),
    handler: 0,
    words: Words {
        a: 0,
        b: 0,
        c: 0,
        d: 0,
    },
    about: Some(FIRST),
};

const EMPTY: Message = Message {
    serial: Serial {
        source: EndpointId(1),
        count: 1,
    },
    kind: MsgKind::Empty,
    dest: EndpointId(0),
    tag: Tag(5),
    reply_tag: Tag(0),
    handler: 0,
    words: Words {
        a: 0,
        b: 0,
        c: 0,
        d: 0,
    },
    about: Some(FIRST),
};

/// Who calls on which endpoint, the call, its outcome and the line.
pub static CALLS: [(Actor, u8, Call, Outcome, &str); 43] = [
    (
        Actor::Outside,
        0,
        Call::Request {
            index: 0,
            handler: 1,
            words: Words {
                a: 10,
                b: 20,
                c: 30,
                d: 40,
            },
        },
        Outcome::Requested(REQUEST),
        "x request 0 0 1 10 20 30 40 -> ok 0.1\n",
    ),
    (
        Actor::Outside,
        0,
        Call::Request {
            index: 0,
            handler: 1,
            words: Words {
                a: 4,
                b: 0,
                c: 0,
                d: 0,
            },
        },
        Outcome::Refused(Refusal::Closed),
        "x request 0 0 1 4 0 0 0 -> refused closed\n",
    ),
    (
        Actor::Outside,
        0,
        Call::Request {
            index: 0,
            handler: 1,
            words: Words {
                a: 4,
                b: 0,
                c: 0,
                d: 0,
            },
        },
        Outcome::Refused(Refusal::OwnTagNone),
        "x request 0 0 1 4 0 0 0 -> refused own-tag-none\n",
    ),
    (
        Actor::Outside,
        0,
        Call::Request {
            index: 16,
            handler: 1,
            words: Words {
                a: 0,
                b: 0,
                c: 0,
                d: 0,
            },
        },
        Outcome::Refused(Refusal::BadIndex),
        "x request 0 16 1 0 0 0 0 -> refused bad-index\n",
    ),
    (
        Actor::Outside,
        0,
        Call::Request {
            index: 15,
            handler: 1,
            words: Words {
                a: 0,
                b: 0,
                c: 0,
                d: 0,
            },
        },
        Outcome::Refused(Refusal::NotMapped),
        "x request 0 15 1 0 0 0 0 -> refused not-mapped\n",
    ),
    (
        Actor::Outside,
        0,
        Call::Request {
            index: 0,
            handler: 2,
            words: Words {
                a: 1,
                b: 2,
                c: 3,
                d: 4,
            },
        },
        Outcome::Refused(Refusal::NoCredit),
        "x request 0 0 2 1 2 3 4 -> refused no-credit\n",
    ),
    (
        Actor::Outside,
        0,
        Call::Request {
            index: 0,
            handler: 2,
            words: Words {
                a: 1,
                b: 2,
                c: 3,
                d: 4,
            },
        },
        Outcome::Refused(Refusal::TableFull),
        "x request 0 0 2 1 2 3 4 -> refused table-full\n",
    ),
    (
        Actor::Outside,
        0,
        Call::Request {
            index: 0,
            handler: 2,
            words: Words {
                a: 1,
                b: 2,
                c: 3,
                d: 4,
            },
        },
        Outcome::Refused(Refusal::SendFull),
        "x request 0 0 2 1 2 3 4 -> refused send-full\n",
    ),
    (
        Actor::Outside,
        0,
        Call::Poll,
        Outcome::Zero {
            serial: FIRST,
            why: Why::Refused(Cause::BadTag),
        },
        "x poll 0 -> zero 0.1 bad-tag\n",
    ),
    (
        Actor::Outside,
        0,
        Call::Poll,
        Outcome::Zero {
            serial: FIRST,
            why: Why::Unknown,
        },
        "x poll 0 -> zero 0.1 unknown\n",
    ),
    (
        Actor::Outside,
        0,
        Call::Poll,
        Outcome::Ran {
            message: REPLY,
            handler: Some(3),
            sends: None,
        },
        "x poll 0 -> ran 1.1 3\n",
    ),
    (
        Actor::Outside,
        0,
        Call::Poll,
        Outcome::Ran {
            message: EMPTY,
            handler: None,
            sends: None,
        },
        "x poll 0 -> ran 1.1 -\n",
    ),
    (
        Actor::Outside,
        1,
        Call::Poll,
        Outcome::Ran {
            message: REQUEST,
            handler: Some(1),
            sends: Some(EMPTY),
        },
        "x poll 1 -> ran 0.1 1 sends 1.1\n",
    ),
    (
        Actor::Outside,
        1,
        Call::Poll,
        Outcome::Blocked,
        "x poll 1 -> blocked\n",
    ),
    (
        Actor::Thread(2),
        2,
        Call::Poll,
        Outcome::Empty,
        "t2 poll 2 -> empty\n",
    ),
    (
        Actor::Outside,
        1,
        Call::SetTag(Tag::ALL),
        Outcome::Done,
        "x tag 1 all -> ok\n",
    ),
    (
        Actor::Outside,
        1,
        Call::SetTag(Tag::NONE),
        Outcome::Refused(Refusal::Held {
            received: 1,
            messages: 0,
            outstanding: 0,
        }),
        "x tag 1 none -> refused in-use 1 0 0\n",
    ),
    (
        Actor::Outside,
        1,
        Call::SetTag(Tag(7)),
        Outcome::Refused(Refusal::Closed),
        "x tag 1 7 -> refused closed\n",
    ),
    (
        Actor::Outside,
        0,
        Call::Close,
        Outcome::Done,
        "x close 0 -> ok\n",
    ),
    (
        Actor::Outside,
        0,
        Call::Close,
        Outcome::Refused(Refusal::Closed),
        "x close 0 -> refused closed\n",
    ),
    (
        Actor::Outside,
        0,
        Call::Close,
        Outcome::Refused(Refusal::Held {
            received: 2,
            messages: 3,
            outstanding: 4,
        }),
        "x close 0 -> refused in-use 2 3 4\n",
    ),
    (
        Actor::Thread(0),
        0,
        Call::Map {
            index: 0,
            name: EndpointId(2),
            tag: Tag(20),
            credits: 2,
        },
        Outcome::Done,
        "t0 map 0 0 2 20 2 -> ok\n",
    ),
    (
        Actor::Thread(0),
        0,
        Call::Map {
            index: 0,
            name: EndpointId(2),
            tag: Tag(20),
            credits: 2,
        },
        Outcome::Refused(Refusal::Closed),
        "t0 map 0 0 2 20 2 -> refused closed\n",
    ),
    (
        Actor::Thread(0),
        0,
        Call::Map {
            index: 0,
            name: EndpointId(2),
            tag: Tag(20),
            credits: 2,
        },
        Outcome::Refused(Refusal::BadIndex),
        "t0 map 0 0 2 20 2 -> refused bad-index\n",
    ),
    (
        Actor::Thread(0),
        0,
        Call::Map {
            index: 0,
            name: EndpointId(2),
            tag: Tag(20),
            credits: 2,
        },
        Outcome::Refused(Refusal::InUse),
        "t0 map 0 0 2 20 2 -> refused in-use\n",
    ),
    (
        Actor::Thread(0),
        0,
        Call::Map {
            index: 0,
            name: EndpointId(2),
            tag: Tag(20),
            credits: 2,
        },
        Outcome::Refused(Refusal::OverShare(3)),
        "t0 map 0 0 2 20 2 -> refused over-share 3\n",
    ),
    (
        Actor::Outside,
        0,
        Call::Unmap(0),
        Outcome::Done,
        "x unmap 0 0 -> ok\n",
    ),
    (
        Actor::Outside,
        0,
        Call::Unmap(0),
        Outcome::Refused(Refusal::Closed),
        "x unmap 0 0 -> refused closed\n",
    ),
    (
        Actor::Outside,
        0,
        Call::Unmap(0),
        Outcome::Refused(Refusal::BadIndex),
        "x unmap 0 0 -> refused bad-index\n",
    ),
    (
        Actor::Outside,
        0,
        Call::Unmap(0),
        Outcome::Refused(Refusal::NotMapped),
        "x unmap 0 0 -> refused not-mapped\n",
    ),
    (
        Actor::Outside,
        0,
        Call::Unmap(0),
        Outcome::Refused(Refusal::Outstanding(2)),
        "x unmap 0 0 -> refused outstanding 2\n",
    ),
    (
        Actor::Outside,
        1,
        Call::SetHandler {
            index: 1,
            kind: HandlerKind::Note,
        },
        Outcome::Done,
        "x handler 1 1 note -> ok\n",
    ),
    (
        Actor::Outside,
        1,
        Call::SetHandler {
            index: 2,
            kind: HandlerKind::Echo(3),
        },
        Outcome::Done,
        "x handler 1 2 echo 3 -> ok\n",
    ),
    (
        Actor::Thread(2),
        2,
        Call::SetHandler {
            index: 3,
            kind: HandlerKind::Add(4),
        },
        Outcome::Done,
        "t2 handler 2 3 add 4 -> ok\n",
    ),
    (
        Actor::Outside,
        1,
        Call::SetHandler {
            index: 1,
            kind: HandlerKind::Note,
        },
        Outcome::Refused(Refusal::Closed),
        "x handler 1 1 note -> refused closed\n",
    ),
    (
        Actor::Outside,
        1,
        Call::SetHandler {
            index: 16,
            kind: HandlerKind::Note,
        },
        Outcome::Refused(Refusal::BadIndex),
        "x handler 1 16 note -> refused bad-index\n",
    ),
    (
        Actor::Outside,
        1,
        Call::SetHandler {
            index: 0,
            kind: HandlerKind::Note,
        },
        Outcome::Refused(Refusal::Reserved),
        "x handler 1 0 note -> refused reserved\n",
    ),
    (
        Actor::Outside,
        0,
        Call::GiveUp(FIRST),
        Outcome::Done,
        "x giveup 0 0.1 -> ok\n",
    ),
    (
        Actor::Outside,
        0,
        Call::GiveUp(FIRST),
        Outcome::Refused(Refusal::Closed),
        "x giveup 0 0.1 -> refused closed\n",
    ),
    (
        Actor::Outside,
        0,
        Call::GiveUp(FIRST),
        Outcome::Refused(Refusal::NoRequest),
        "x giveup 0 0.1 -> refused no-request\n",
    ),
    (
        Actor::Thread(2),
        2,
        Call::Test(Mask::NotEmpty),
        Outcome::Quiet,
        "t2 event 2 notempty -> quiet\n",
    ),
    (
        Actor::Thread(2),
        2,
        Call::Test(Mask::NotEmpty),
        Outcome::Ready,
        "t2 event 2 notempty -> ready\n",
    ),
    (
        Actor::Outside,
        2,
        Call::Test(Mask::NoEvents),
        Outcome::Quiet,
        "x event 2 noevents -> quiet\n",
    ),
];
