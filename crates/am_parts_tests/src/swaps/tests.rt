//! Images of bodies, byte by byte.

use crate::swaps::images::{ASKING, FRESH, RECORD, REQUEST, SETTINGS, SOURCE};
use am_endpoint_body::Body;
use am_names::Tag;
use am_swap::{decode, encode};
use std::process::Abort;

#[test]
fn a_fresh_body_is_encoded(rt: HostRuntime) {
    let Ok(fresh) = Body::opening(rt.alloc(), &SETTINGS) else {
        rt.panic("no body")
    };
    let image = encode(rt.alloc(), &fresh).expect(&rt, "an image");
    assert!(rt; image.as_slice() == &FRESH[..62]);
    for (bytes, is_image) in [
        (&FRESH[..61], false),
        (&FRESH[..62], true),
        (&FRESH[..63], false),
    ] {
        let found = decode(rt.alloc(), SOURCE, None, bytes).expect(&rt, "an answer");
        assert!(rt; found.is_some() == is_image);
    }
}

#[test]
fn a_body_with_a_request_is_decoded(rt: HostRuntime) {
    let Ok(Some(asking)) = decode(rt.alloc(), SOURCE, None, ASKING.as_slice()) else {
        rt.panic("no body")
    };
    assert!(rt; asking.tag == Tag(7));
    assert!(rt; asking.accepted == 1);
    assert!(rt; asking.front() == Some(REQUEST));
    assert!(rt; asking.translate.records() == [RECORD].as_slice());
    let image = encode(rt.alloc(), &asking).expect(&rt, "an image");
    assert!(rt; image.as_slice() == ASKING.as_slice());
}
