//! The images of a fresh body and of one with an index and a request, by hand.

use am_endpoint_body::EndSettings;
use am_model::{Awaited, Queued};
use am_names::{EndpointId, Message, MsgKind, NodeId, Serial, Tag, Words};
use am_office_entries::Place;

pub const SOURCE: EndpointId = EndpointId(0);

/// The image of a fresh body, and a zero byte behind it.
pub const FRESH: [u8; 63] = [
    0x41, 0x4d, 0x32, 0x49, 1, 0, 0, 0, 0, 0, 0, 0, 7, 0, 0, 0, 0, 0, 0, 0, 0, 0, 0, 0, 0, 0, 0, 0,
    0, 0, 0, 0, 0, 0, 0, 0, 0, 0, 0, 0, 0, 0, 0, 0, 0, 0, 0, 0, 0, 0, 0, 0, 0, 0, 0, 0, 0, 0, 0, 0,
    0, 0, 0,
];

// The tag is 7, the sum 0, and one message was accepted; index 0 is mapped to endpoint 1 under tag 7 with one credit;
// the one record waits; no handler is set; the one request bears the words 1 to 4.
pub const ASKING: [u8; 136] = [
    0x41, 0x4d, 0x32, 0x49, 1, 0, 0, 0, 0, 0, 0, 0, 7, 0, 0, 0, 0, 0, 0, 0, 0, 0, 0, 0, 1, 1, 1, 0,
    0, 0, 0, 0, 0, 0, 7, 1, 0, 0, 0, 0, 0, 0, 0, 0, 0, 0, 0, 0, 0, 0, 0, 1, 0, 0, 0, 0, 1, 0, 0, 0,
    0, 0, 0, 0, 0, 0, 0, 0, 0, 0, 0, 0, 0, 0, 1, 0, 0, 0, 0, 1, 0, 1, 0, 0, 0, 0, 0, 0, 0, 7, 1, 0,
    0, 0, 0, 0, 0, 0, 1, 0, 0, 0, 0, 0, 0, 0, 2, 0, 0, 0, 0, 0, 0, 0, 3, 0, 0, 0, 0, 0, 0, 0, 4, 0,
    0, 0, 0, 0, 0, 0, 7, 0, 0, 0, 0, 0,
];

pub const SETTINGS: EndSettings = EndSettings {
    id: SOURCE,
    node: NodeId(0),
    tag: Tag(7),
    place: Place::Host,
    log: 5,
    bounces: 3,
    pool: None,
};

const FIRST: Serial = Serial {
    source: SOURCE,
    count: 1,
};

pub const RECORD: Awaited = Awaited {
    index: 0,
    serial: FIRST,
    arrived: false,
};

pub const REQUEST: Queued = Queued {
    message: Message {
        serial: FIRST,
        kind: MsgKind::Request,
        dest: EndpointId(1),
        tag: Tag(7),
        reply_tag: Tag(7),
        handler: 1,
        words: Words {
            a: 1,
            b: 2,
            c: 3,
            d: 4,
        },
        about: None,
    },
    bounces: 0,
};
