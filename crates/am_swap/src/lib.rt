//! The image of an endpoint's body, by which the body goes to the disk of its node and comes back, and the disk as a
//! device that is handed in.
#![tactic(auto)]

ghost use Rattle.am_swap_image.specs.Image.{image};
ghost use Rattle.am_swap_image.specs.Range.{IsInRange};
ghost use Rattle.am_swap_image.specs.Valid.{IsValid};
ghost use Rattle.am_model.specs.Endpoint.{Body as Held};
ghost use Rattle.am_names.specs.declared.EndpointId.{EndpointId as Id};
ghost use Rattle.am_swap.specs.Decoded.{FindsEach, IsImaged, NoBodyHas, reads_as_body};
ghost use Rattle.am_swap.specs.Laws.{DamageIsSeen};
ghost use Rattle.std.specs.Prelude.{◌≡◌, ◌↔◌, ◌<◌, [], IfErr, IfOk, None, length, true};

mod listed;
mod made;

use crate::listed::lists_of;
use crate::made::body_of;
use am_endpoint_body::Body;
use am_names::EndpointId;
use am_office_entries::NoMemory;
use am_swap_codec::BodyLists;
pub use am_swap_device::{Look, MemorySwap, Swap, SwapFault};
use std::alloc::Global;

/// The image of a body with nothing in flight. No other body that the endpoint may have has it, and it has fewer than
/// 6,000 bytes where the endpoint may have the body. The numbers of the body are in range, since it is held.
pub fn encode(alloc: Global, body: &Body) -> Result<Vec<u8>, NoMemory>
    requires { body.now.body.in_flight ≡ [] }
    ensures image { IfOk result (λ bytes. bytes.items ≡ image body.now.body) }
    ensures own { IfOk result (λ bytes. (e : Id) (other : Held) → IsValid e body.now.pool body.now.body → IsValid e body.now.pool other → image other ≡ bytes.items → other ≡ body.now.body) }
    ensures in_range { IfOk result (λ bytes. IsInRange body.now.body) }
    ensures short { IfOk result (λ bytes. (e : Id) → IsValid e body.now.pool body.now.body → length bytes.items < 6000) }
{
    let lists = lists_of(alloc, body)?;
    lists.in_range();
    lists.written(alloc)
}

/// The body that the endpoint, with this pool or none, may have and whose image the bytes are; `None` exactly where
/// there is none. It is found whatever the bytes are; want of memory is told only of bytes that read as a body, so no
/// damage passes for it.
pub fn decode(
    alloc: Global,
    id: EndpointId,
    pool: Option<u8>,
    bytes: &[u8],
) -> Result<Option<Body>, NoMemory>
    ensures imaged { IfOk result (IsImaged id pool bytes.now) }
    ensures each { IfOk result (FindsEach id pool bytes.now) }
    ensures none { IfOk result (λ found. (found ≡ None) ↔ NoBodyHas id pool bytes.now) }
    ensures no_memory { IfErr result (λ fault. reads_as_body id bytes.now ≡ true) }
{
    match BodyLists::decoded(alloc, id, pool, bytes)? {
        None => Ok(None),
        Some(lists) => Ok(Some(body_of(alloc, pool, &lists)?)),
    }
}

/// From an image that was damaged, in one byte or in more, nothing is decoded, or another body that the endpoint may
/// have.
pub fn damage_is_seen()
    ensures { DamageIsSeen }
{}
