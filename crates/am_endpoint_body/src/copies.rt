//! The messages of a body as lists of their own.

ghost use Rattle.am_block.specs.Pools.{size, slots};
ghost use Rattle.am_block.specs.declared.Descriptor.{Descriptor as Described};
ghost use Rattle.am_endpoint_body.specs.Views.{message_in, notice_in, queued_in, seen};
ghost use Rattle.std.specs.Prelude.{◌≡◌, ◌≤◌, IfOk, length};

use crate::Body;
use am_block::{Block, Descriptor, List};
use am_model::{Notice, Queued};
use am_names::Message;
use am_office_entries::NoMemory;
use std::alloc::Global;

/// What the descriptors of a list are seen as.
trait Shown: Drop {
    ghost shown: { Described → Self };

    fn of(descriptor: &Descriptor) -> Self
        ensures { result ≡ shown descriptor.now };
}

impl Shown for Queued {
    ghost shown = { queued_in };

    fn of(descriptor: &Descriptor) -> Queued {
        Queued {
            message: descriptor.message,
            bounces: descriptor.used,
        }
    }
}

impl Shown for Notice {
    ghost shown = { notice_in };

    fn of(descriptor: &Descriptor) -> Notice {
        Notice {
            message: descriptor.message,
            bounces: descriptor.used,
            why: descriptor.why,
        }
    }
}

impl Shown for Message {
    ghost shown = { message_in };

    fn of(descriptor: &Descriptor) -> Message {
        descriptor.message
    }
}

/// What stands in a list of a block, from front to tail.
fn copied<S: Shown>(alloc: Global, block: &Block, list: List) -> Result<Vec<S>, NoMemory>
    ensures items { IfOk result (λ copy. copy.items ≡ seen S.shown block.now.descriptors (slots block.now list)) }
    ensures few { IfOk result (λ copy. length copy.items ≤ size block.now) }
{
    let mut copy = Vec::new(alloc);
    let mut next = block.front(list);
    while let Some(slot) = next {
        copy.push(S::of(block.get(slot)))?;
        next = block.after(slot);
    }
    Ok(copy)
}

impl Body {
    /// The requests that are to be sent, from the front on, with their bounces: at most 80.
    pub fn requests(&self, alloc: Global) -> Result<Vec<Queued>, NoMemory>
        ensures items { IfOk result (λ copy. copy.items ≡ self.now.body.requests) }
        ensures few { IfOk result (λ copy. length copy.items ≤ 80) }
    {
        copied(alloc, &self.block, List::Requests)
    }

    /// The replies and empty replies that are to be sent, from the front on, with their bounces: at most 80.
    pub fn replies(&self, alloc: Global) -> Result<Vec<Queued>, NoMemory>
        ensures items { IfOk result (λ copy. copy.items ≡ self.now.body.replies) }
        ensures few { IfOk result (λ copy. length copy.items ≤ 80) }
    {
        copied(alloc, &self.block, List::Replies)
    }

    /// The messages that came back, from the front on, with their bounces and why: at most 80.
    pub fn notices(&self, alloc: Global) -> Result<Vec<Notice>, NoMemory>
        ensures items { IfOk result (λ copy. copy.items ≡ self.now.body.notices) }
        ensures few { IfOk result (λ copy. length copy.items ≤ 80) }
    {
        copied(alloc, &self.block, List::Notices)
    }

    /// The messages that were received and not polled, from the front on: at most 80.
    pub fn received(&self, alloc: Global) -> Result<Vec<Message>, NoMemory>
        ensures items { IfOk result (λ copy. copy.items ≡ self.now.body.received) }
        ensures few { IfOk result (λ copy. length copy.items ≤ 80) }
    {
        copied(alloc, &self.block, List::Received)
    }
}
