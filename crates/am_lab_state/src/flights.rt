//! The messages in flight of an endpoint.

ghost use Rattle.am_block.specs.Pools.{slots};
ghost use Rattle.am_endpoint_body.specs.Views.{flying_in, seen};
ghost use Rattle.std.specs.Prelude.{◌≡◌, IfOk};

use am_block::{Block, Descriptor, List};
use am_model::Flying;
use am_names::NoMemory;
use std::alloc::Global;

fn flying_of(descriptor: &Descriptor) -> Flying
    ensures { result ≡ flying_in descriptor.now }
{
    Flying {
        message: descriptor.message,
        bounces: descriptor.used,
        answered: descriptor.answered,
    }
}

/// The messages of a list of slots, as they fly.
pub(crate) fn flights(alloc: Global, block: &Block, list: List) -> Result<Vec<Flying>, NoMemory>
    ensures { IfOk result (λ copy. copy.items ≡ seen flying_in block.now.descriptors (slots block.now list)) }
{
    let mut copy = Vec::new(alloc);
    let mut next = block.front(list);
    while let Some(slot) = next {
        copy.push(flying_of(block.get(slot)))?;
        next = block.after(slot);
    }
    Ok(copy)
}
