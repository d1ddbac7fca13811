//! A block of descriptors: one for each message that an endpoint holds, each in one of six lists.
//! Contracts see the six lists, front first, and the descriptor of each slot. After `new` nothing here takes memory.
#![tactic(auto)]

ghost use Rattle.std.specs.Prelude.{◌≡◌, ◌+◌, ◌<◌, ◌≤◌, ◌∷◌, [], ◌↔◌, length, drop, IfOk, IfSome, MatchOption, None, Some, slice_get};
ghost use Rattle.std.specs.Option.{option_map};
ghost use Rattle.std.specs.Borrow.{sem};
ghost use Rattle.am_block.specs.declared.List.{List as Which};
ghost use Rattle.am_block.specs.Pools.{slots, size, home, moved, behind, IsBlock, IsFresh, IsLast};
ghost use Rattle.am_block.specs.Lengths.{head, length_of, shifted, one_less, one_more};

mod lengths;
mod nodes;

use am_names::{EndpointId, Message, MsgKind, NoMemory, Serial, Tag, Why, Words};
use lengths::Lengths;
use nodes::Nodes;
use std::alloc::{AllocError, Global};
use std::marker::Model;

/// What is kept of a message.
#[derive(Clone, Copy)]
pub struct Descriptor {
    pub message: Message,
    /// How often the message bounced, 0 to 16.
    pub used: u8,
    /// Whether a reply to it was put, while it is in flight.
    pub answered: bool,
    /// Why it came back, while it is a notice.
    pub why: Why,
}

/// The six lists of a block.
///
/// ```
/// let is_full = block.len(List::Free) == 0;
/// ```
#[derive(Clone, Copy, PartialEq, Eq)]
pub enum List {
    /// The slots that hold no message.
    Free,
    /// Requests of its own, to be sent.
    Requests,
    /// Replies and empty replies of its own, to be sent.
    Replies,
    /// Messages of its own that are bound to a channel.
    InFlight,
    /// Messages of its own that came back or are unknown.
    Notices,
    /// Messages of others that arrived and are not polled.
    Received,
}

/// The number of a descriptor in its block, from 0, below the block's size.
#[derive(Clone, Copy, PartialEq, Eq)]
pub struct Slot(pub u8);

/// Six lists in which each slot below the size stands once (`IsBlock` of `specs/Pools.antt`), and a descriptor for
/// each slot. Each list is a ring of nodes through a head of its own, in one piece of memory.
///
/// ```
/// let mut block = Block::new(alloc, 24)?;
/// if let Some(slot) = block.move_front(List::Free, List::Requests) {
///     block.get_mut(slot).message = message;
/// }
/// ```
#[derive(Drop)]
pub struct Block {
    nodes: Nodes,
    lengths: Lengths,
    size: u8,
}

impl Model for Block {
    ghost use Rattle.am_block.specs.Pools.{Pools};

    ghost Value = { Pools };

    ghost use Rattle.am_block.specs.Lengths.{pools, IsSound};

    ghost view = { λ b. pools b.nodes b.size b.lengths };

    ghost invariant = { λ b. IsSound b.nodes b.size b.lengths };
}

/// A descriptor that no one has written to.
fn blank() -> Descriptor {
    Descriptor {
        message: Message {
            serial: Serial {
                source: EndpointId(0),
                count: 0,
            },
            kind: MsgKind::Empty,
            dest: EndpointId(0),
            tag: Tag(0),
            reply_tag: Tag(0),
            handler: 0,
            words: Words {
                a: 0,
                b: 0,
                c: 0,
                d: 0,
            },
            about: None,
        },
        used: 0,
        answered: false,
        why: Why::Unknown,
    }
}

/// Moves a slot from its list to the tail of another, or of the same.
fn shift(nodes: &mut Nodes, lengths: &mut Lengths, size: u8, slot: u8, from: List, to: List)
    requires small { size ≤ 128 }
    requires nodes { length nodes.old.next ≡ size + 6 }
    requires slot { slot < size }
    requires some { 1 ≤ length_of lengths.old from }
    requires few { (w : Which) → length_of lengths.old w ≤ 128 }
    ensures nodes { nodes.new ≡ shifted nodes.old size slot to }
    ensures lengths { lengths.new ≡ one_more (one_less lengths.old from) to }
{
    nodes.take_out(slot);
    nodes.append(slot, head(size, to), to);
    let fewer = lengths.of(from) - 1;
    lengths.set(from, fewer);
    let more = lengths.of(to) + 1;
    lengths.set(to, more);
}

/// The number of a list's head, behind the slots.
fn head(size: u8, list: List) -> u8
    requires { size ≤ 128 }
    ensures { result ≡ head size list }
{
    match list {
        List::Free => size,
        List::Requests => size + 1,
        List::Replies => size + 2,
        List::InFlight => size + 3,
        List::Notices => size + 4,
        List::Received => size + 5,
    }
}

impl Block {
    ghost use Rattle.am_block.specs.Lends.{LendsDescriptor};

    fn make(alloc: Global, size: u8) -> Result<Block, AllocError>
        requires { (1 ≤ size) × (size ≤ 128) }
        ensures fresh { IfOk result (λ b. IsFresh b size) }
        ensures block { IfOk result IsBlock }
    {
        let mut nodes = Nodes::new(alloc, size + 6, List::Free, blank())?;
        for head in size..size + 6 {
            nodes.close(head, List::Free);
        }
        for slot in 0..size {
            nodes.append(slot, size, List::Free);
        }
        let lengths = Lengths {
            free: size,
            requests: 0,
            replies: 0,
            in_flight: 0,
            notices: 0,
            received: 0,
        };
        Ok(Block {
            nodes,
            lengths,
            size,
        })
    }

    /// A block of `size` descriptors, 1 to 128, all of them free. What a free descriptor holds is not said.
    pub fn new(alloc: Global, size: u8) -> Result<Block, NoMemory>
        requires { (1 ≤ size) × (size ≤ 128) }
        ensures fresh { IfOk result (λ b. IsFresh b size) }
        ensures block { IfOk result IsBlock }
    {
        match Block::make(alloc, size) {
            Ok(block) => Ok(block),
            Err(_) => Err(NoMemory),
        }
    }

    /// The number of slots in a list.
    pub fn len(&self, list: List) -> u8
        ensures value { result ≡ length (slots self.now list) }
        ensures block { IsBlock self.now }
    {
        self.lengths.of(list)
    }

    /// The first slot of a list.
    ///
    /// ```
    /// if let Some(slot) = block.front(List::Requests) {
    ///     send(block.get(slot).message);
    /// }
    /// ```
    pub fn front(&self, list: List) -> Option<Slot>
        ensures none { (result ≡ None) ↔ (slots self.now list ≡ []) }
        ensures slot { MatchOption result (slots self.now list ≡ []) (λ s. slots self.now list ≡ s.0 ∷ drop 1 (slots self.now list)) }
        ensures below { IfSome result (λ s. s.0 < size self.now) }
        ensures block { IsBlock self.now }
    {
        if self.lengths.of(list) == 0 {
            return None;
        }
        Some(Slot(self.nodes.next(head(self.size, list))))
    }

    /// The slot right behind this one, in its list.
    ///
    /// ```
    /// let second = block.front(List::Requests).and_then(|slot| block.after(slot));
    /// ```
    pub fn after(&self, slot: Slot) -> Option<Slot>
        requires { slot.0 < size self.now }
        ensures none { (result ≡ None) ↔ IsLast slot.0 (slots self.now (home self.now slot.0)) }
        ensures slot { option_map (λ s. s.0) result ≡ behind slot.0 (slots self.now (home self.now slot.0)) }
        ensures below { IfSome result (λ s. s.0 < size self.now) }
    {
        let next = self.nodes.next(slot.0);
        if next < self.size {
            Some(Slot(next))
        } else {
            None
        }
    }

    /// Moves the first slot of one list to the tail of another, or of the same.
    pub fn move_front(&mut self, from: List, to: List) -> Option<Slot>
        ensures none { (result ≡ None) ↔ (slots self.old from ≡ []) }
        ensures slot { MatchOption result (slots self.old from ≡ []) (λ s. slots self.old from ≡ s.0 ∷ drop 1 (slots self.old from)) }
        ensures below { IfSome result (λ s. s.0 < size self.old) }
        ensures moved { MatchOption result (self.new ≡ self.old) (λ s. self.new ≡ moved self.old from s.0 to) }
        ensures block { IsBlock self.new }
    {
        let slot = self.front(from)?;
        shift(
            &mut self.nodes,
            &mut self.lengths,
            self.size,
            slot.0,
            from,
            to,
        );
        Some(slot)
    }

    /// Takes a slot out of its list and appends it to another, or to the same.
    pub fn move_slot(&mut self, slot: Slot, to: List)
        requires { slot.0 < size self.old }
        ensures moved { self.new ≡ moved self.old (home self.old slot.0) slot.0 to }
        ensures block { IsBlock self.new }
    {
        let from = self.nodes.list(slot.0);
        shift(
            &mut self.nodes,
            &mut self.lengths,
            self.size,
            slot.0,
            from,
            to,
        );
    }

    /// The descriptor of a slot.
    pub fn get(&self, slot: Slot) -> &Descriptor
        requires { slot.0 < size self.now }
        ensures { slice_get self.now.descriptors slot.0 ≡ Some result.now }
    {
        self.nodes.descriptor(slot.0)
    }

    /// The descriptor of a slot, to be written to. The lists and the other descriptors stay as they are.
    ///
    /// ```
    /// block.get_mut(slot).answered = true;
    /// ```
    pub fn get_mut(&mut self, slot: Slot) -> &mut Descriptor
        requires { slot.0 < size self.old }
        ensures* writes_back { sem 𝓛 (LendsDescriptor self.entry slot.0 result) }
        ensures value { slice_get self.old.descriptors slot.0 ≡ Some result.now }
    {
        self.nodes.descriptor_mut(slot.0)
    }
}
