//! Slots of a block that go from list to list.

ghost use Rattle.am_block.specs.Pools.{IsBlock, home, size, slots};
ghost use Rattle.am_endpoint_body.specs.Moves.{changed, filed, first_of, first_slot, freed, refiled};
ghost use Rattle.std.specs.Option.{option_map};
ghost use Rattle.std.specs.Prelude.{◌≡◌, ◌<◌, IfSome, false};

use am_block::{Block, Descriptor, List, Slot};
use am_names::{Message, Why};

/// The first free slot, if there is one, takes a message for a list, with its bounces and why it came back.
pub(crate) fn file_free(block: &mut Block, to: List, message: &Message, used: u8, why: Why)
    ensures filed { block.new ≡ filed block.old (slots block.old List.Free) to (record { message = message.now; used = used; answered = false; why = why }) }
    ensures block { IsBlock block.new }
    ensures size { size block.new ≡ size block.old }
{
    match block.move_front(List::Free, to) {
        None => {}
        Some(slot) => {
            *block.get_mut(slot) = Descriptor {
                message: *message,
                used,
                answered: false,
                why,
            };
        }
    }
}

/// What becomes of a message that goes from list to list.
#[derive(Clone, Copy)]
pub(crate) enum Change {
    /// It is in flight, and has no reply yet.
    Flies,
    /// It is to be sent again, having bounced so often.
    Bounced(u8),
    /// It came back, for this reason.
    Back(Why),
}

fn put_change(descriptor: &mut Descriptor, becomes: Change)
    ensures { descriptor.new ≡ changed becomes descriptor.old }
{
    match becomes {
        Change::Flies => descriptor.answered = false,
        Change::Bounced(used) => descriptor.used = used,
        Change::Back(why) => descriptor.why = why,
    }
}

/// A slot goes with its message from its list to the tail of another, or of the same.
pub(crate) fn refile(block: &mut Block, slot: Slot, to: List, becomes: Change)
    requires { slot.0 < size block.old }
    ensures refiled { block.new ≡ refiled block.old (home block.old slot.0) slot.0 to becomes }
    ensures block { IsBlock block.new }
    ensures size { size block.new ≡ size block.old }
{
    block.move_slot(slot, to);
    put_change(block.get_mut(slot), becomes);
}

/// The first slot of a list, if it has one, is free from now on.
pub(crate) fn free_front(block: &mut Block, from: List)
    ensures freed { block.new ≡ freed block.old (slots block.old from) from }
    ensures block { IsBlock block.new }
    ensures size { size block.new ≡ size block.old }
{
    block.move_front(from, List::Free);
}

/// The slot of the front message, if there is one: the first of the replies, and where there is none the first of the requests.
pub(crate) fn front_slot(block: &Block) -> Option<Slot>
    ensures slot { option_map (λ s. s.0) result ≡ first_slot block.now.replies block.now.requests }
    ensures below { IfSome result (λ s. s.0 < size block.now) }
{
    match block.front(List::Replies) {
        Some(slot) => Some(slot),
        None => block.front(List::Requests),
    }
}

/// The descriptor of the first slot of a list, if it has one.
pub(crate) fn front_descriptor(block: &Block, list: List) -> Option<&Descriptor>
    ensures { option_map (λ d. d.now) result ≡ first_of block.now (slots block.now list) }
{
    match block.front(list) {
        None => None,
        Some(slot) => Some(block.get(slot)),
    }
}
