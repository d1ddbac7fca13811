//! A body as lists.

ghost use Rattle.am_swap_codec.specs.Counts.{AreCounted};
ghost use Rattle.std.specs.Prelude.{◌≡◌, [], IfOk};

use am_endpoint_body::Body;
use am_office_entries::NoMemory;
use am_swap_codec::BodyLists;
use std::alloc::Global;

/// The body as lists, each from the front on.
pub(crate) fn lists_of(alloc: Global, body: &Body) -> Result<BodyLists, NoMemory>
    requires { body.now.body.in_flight ≡ [] }
    ensures lists { IfOk result (λ lists. lists ≡ body.now.body) }
    ensures counted { IfOk result AreCounted }
{
    Ok(BodyLists {
        tag: body.tag,
        sum: body.sum,
        accepted: body.accepted,
        mapped: Vec::from_slice(alloc, body.translate.mappings())?,
        awaited: Vec::from_slice(alloc, body.translate.records())?,
        handlers: Vec::from_slice(alloc, body.handlers.kinds())?,
        requests: body.requests(alloc)?,
        replies: body.replies(alloc)?,
        notices: body.notices(alloc)?,
        received: body.received(alloc)?,
    })
}
