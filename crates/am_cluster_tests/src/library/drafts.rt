//! A scenario whose run comes to the same end in whatever order its workers take turns. Each takes one before the drain: a thread sets the
//! server's handler or maps the client's index, so no request is made before both are done.

use am_library::calls::poll;
use am_library::lines::repeated;
use am_library::{Draft, Setting};
use am_names::{EndpointId, NodeId, Tag, Words};
use am_office_entries::HandlerKind;
use std::alloc::Global;
use std::process::Abort;

pub const SERVER: EndpointId = EndpointId(0);

pub const CLIENT: EndpointId = EndpointId(1);

/// The words of a request or a reply with this first word.
pub fn words(first: u64) -> Words {
    Words {
        a: first,
        b: 30,
        c: 20,
        d: 10,
    }
}

/// Node 0 has the server, whose handler 1 adds.
fn serve(rt: &impl Abort, draft: &mut Draft) -> EndpointId {
    let server = draft.endpoint(NodeId(0), Tag(100)).expect(rt, "the server");
    let thread = draft.thread(NodeId(0)).expect(rt, "its thread");
    assert!(rt;
        draft
            .handler(thread, server, 1, HandlerKind::Add(2))
            .is_ok()
    );
    assert!(rt;
        draft
            .calls(&[poll(thread, server), poll(thread, server)])
            .is_ok()
    );
    server
}

/// Node 1 has the client, which asks for 3, 4 and 5; the third request is for a handler that isn't set.
fn ask(rt: &impl Abort, draft: &mut Draft, server: EndpointId) {
    let client = draft.endpoint(NodeId(1), Tag(7)).expect(rt, "the client");
    let thread = draft.thread(NodeId(1)).expect(rt, "its thread");
    assert!(rt; draft.map(thread, client, 0, server, Tag(100), 3).is_ok());
    assert!(rt; draft.request(thread, client, 0, 1, words(3)).is_ok());
    assert!(rt; draft.request(thread, client, 0, 1, words(4)).is_ok());
    assert!(rt; draft.request(thread, client, 0, 9, words(5)).is_ok());
    assert!(rt; draft.poll(thread, client).is_ok());
}

/// The first request is lost once, the first reply is late until it is sent again, and the answer to it comes twice. So would a packet that is
/// never sent.
fn withhold(rt: &impl Abort, draft: &mut Draft) {
    assert!(rt; draft.lose(NodeId(1), NodeId(0), 1).is_ok());
    assert!(rt; draft.late(NodeId(0), NodeId(1), 2, 1).is_ok());
    assert!(rt; draft.repeat(NodeId(1), NodeId(0), 3).is_ok());
    assert!(rt;
        draft
            .plans(&[repeated(NodeId(1), NodeId(0), 1_000)])
            .is_ok()
    );
}

/// The draft.
pub fn draft(rt: &impl Abort, alloc: Global) -> Draft {
    let mut draft = Draft::new(alloc, 2).expect(rt, "a draft");
    assert!(rt; draft.set(Setting::Turns(1)).is_ok());
    let server = serve(rt, &mut draft);
    ask(rt, &mut draft, server);
    withhold(rt, &mut draft);
    draft
}
