//! Walks along a list of a block.

ghost use Rattle.am_block.specs.Pools.{IsBlock, size, slots};
ghost use Rattle.am_endpoint_body.specs.Walks.{answered_at, answered_by, is_sought, is_sought_at};
ghost use Rattle.am_names.specs.Names.{has_serial};
ghost use Rattle.std.specs.List.{find};
ghost use Rattle.std.specs.Option.{option_map};
ghost use Rattle.std.specs.Prelude.{◌≡◌, ◌≤◌, length, cond, count_by};

use am_block::{Block, Descriptor, List, Slot};
use am_names::{Message, Serial};

/// What is looked for: a request, a reply or empty reply, or the message with a serial.
#[derive(Clone, Copy)]
pub(crate) enum Sought {
    Request,
    Reply,
    Of(Serial),
}

fn has_serial(serial: Serial, message: &Message) -> bool
    ensures { result ≡ has_serial serial message.now }
{
    serial.source.0 == message.serial.source.0 && serial.count == message.serial.count
}

fn is_sought(sought: Sought, descriptor: &Descriptor) -> bool
    ensures { result ≡ is_sought sought descriptor.now }
{
    match sought {
        Sought::Request => descriptor.message.is_request(),
        Sought::Reply => descriptor.message.is_reply(),
        Sought::Of(serial) => has_serial(serial, &descriptor.message),
    }
}

/// The first slot of a list with what is sought.
pub(crate) fn find(block: &Block, list: List, sought: Sought) -> Option<Slot>
    ensures found { option_map (λ s. s.0) result ≡ find (λ s. is_sought_at sought block.now s) (slots block.now list) }
    ensures block { IsBlock block.now }
{
    let mut next = block.front(list);
    while let Some(slot) = next {
        if is_sought(sought, block.get(slot)) {
            return Some(slot);
        }
        next = block.after(slot);
    }
    None
}

fn as_count(counts: bool) -> u8
    ensures value { result ≡ cond counts 1 0 }
    ensures small { result ≤ 1 }
{
    if counts { 1 } else { 0 }
}

/// How many slots of a list have what is sought.
pub(crate) fn count(block: &Block, list: List, sought: Sought) -> u8
    ensures value { result ≡ count_by (λ s. is_sought_at sought block.now s) (slots block.now list) }
    ensures few { result ≤ length (slots block.now list) }
    ensures block { IsBlock block.now }
{
    let mut total = 0;
    let mut next = block.front(list);
    while let Some(slot) = next {
        total += as_count(is_sought(sought, block.get(slot)));
        next = block.after(slot);
    }
    total
}

/// The descriptor, as answered where its message has this serial.
fn as_answered(request: Serial, descriptor: Descriptor) -> Descriptor
    ensures { result ≡ answered_by request descriptor }
{
    Descriptor {
        answered: descriptor.answered || has_serial(request, &descriptor.message),
        ..descriptor
    }
}

/// Each message in flight that has this serial is answered from now on.
pub(crate) fn answer_flights(block: &mut Block, request: Serial)
    ensures answered { block.new ≡ record block.old { descriptors = answered_at request block.old.in_flight block.old.descriptors } }
    ensures block { IsBlock block.new }
    ensures size { size block.new ≡ size block.old }
{
    let mut next = block.front(List::InFlight);
    while let Some(slot) = next {
        let answered = as_answered(request, *block.get(slot));
        *block.get_mut(slot) = answered;
        next = block.after(slot);
    }
}
