//! The words of an event: who acts, a verb and the words behind it.

ghost use Rattle.am_check_lines.specs.Reading.{Gives, words_behind, words_in, lettered, head_of, call_event_at, want_at, thread_at, carry_at, outside_at, bind_at, expire_at, receive_at, interface_at, load_at, move_at, driver_at, happening_at, event_at};
ghost use Rattle.am_office_entries.specs.declared.Event.TheVariants as Events;
ghost use Rattle.std.specs.Prelude.{◌≡◌};

use crate::calls::take_call;
use crate::numbers::{byte_of, take_byte, take_count, take_end, take_node};
use crate::words::{Head, is_word, split_word, take_word};
use am_names::NodeId;
use am_office_entries::{Actor, Event};

#[tactic(auto, unfolding(crate::specs::Reading::lettered))]
fn lettered(letter: u8, digits: &[u8]) -> Option<Head>
    ensures { result ≡ lettered letter digits.now }
{
    let number = byte_of(digits)?;
    match letter {
        b't' => Some(Head::OfThread(number)),
        b'i' => Some(Head::OfInterface(NodeId(number))),
        b'd' => Some(Head::OfDriver(NodeId(number))),
        _ => None,
    }
}

#[tactic(auto, unfolding(crate::specs::Reading::head_of))]
fn head_of(word: &[u8]) -> Option<Head>
    ensures { result ≡ head_of word.now }
{
    match word {
        [b'x'] => Some(Head::Outside),
        [letter, digits @ ..] => lettered(*letter, digits),
        [] => None,
    }
}

#[tactic(auto, unfolding(crate::specs::Reading::call_event_at))]
fn take_call_event<'a>(actor: Actor, verb: &[u8], rest: &'a [u8]) -> Option<(Event, &'a [u8])>
    ensures { Gives (λ found. (found.0, words_behind found.1.now)) result (call_event_at actor verb.now (words_behind rest.now)) }
{
    let ((end, call), rest) = take_call(verb, rest)?;
    Some((Event::Call { actor, end, call }, rest))
}

#[tactic(auto, unfolding(crate::specs::Reading::want_at))]
fn take_want(actor: Actor, rest: &[u8]) -> Option<(Event, &[u8])>
    ensures { Gives (λ found. (found.0, words_behind found.1.now)) result (want_at actor (words_behind rest.now)) }
{
    let (end, rest) = take_end(rest)?;
    Some((Event::Want { actor, end }, rest))
}

#[tactic(auto, unfolding(crate::specs::Reading::thread_at))]
fn take_of_thread<'a>(thread: u8, verb: &[u8], rest: &'a [u8]) -> Option<(Event, &'a [u8])>
    ensures { Gives (λ found. (found.0, words_behind found.1.now)) result (thread_at thread verb.now (words_behind rest.now)) }
{
    if is_word(verb, b"want".as_slice()) {
        take_want(Actor::Thread(thread), rest)
    } else {
        take_call_event(Actor::Thread(thread), verb, rest)
    }
}

#[tactic(auto, unfolding(crate::specs::Reading::carry_at))]
fn take_carry(rest: &[u8]) -> Option<(Event, &[u8])>
    ensures { Gives (λ found. (found.0, words_behind found.1.now)) result (carry_at (words_behind rest.now)) }
{
    let (end, rest) = take_end(rest)?;
    Some((Event::Carry { end }, rest))
}

#[tactic(auto, unfolding(crate::specs::Reading::outside_at))]
fn take_outside<'a>(verb: &[u8], rest: &'a [u8]) -> Option<(Event, &'a [u8])>
    ensures { Gives (λ found. (found.0, words_behind found.1.now)) result (outside_at verb.now (words_behind rest.now)) }
{
    if is_word(verb, b"carry".as_slice()) {
        take_carry(rest)
    } else if is_word(verb, b"want".as_slice()) {
        take_want(Actor::Outside, rest)
    } else {
        take_call_event(Actor::Outside, verb, rest)
    }
}

#[tactic(auto, unfolding(crate::specs::Reading::bind_at))]
fn take_bind(node: NodeId, rest: &[u8]) -> Option<(Event, &[u8])>
    ensures { Gives (λ found. (found.0, words_behind found.1.now)) result (bind_at node (words_behind rest.now)) }
{
    let (end, rest) = take_end(rest)?;
    Some((Event::Bind { node, end }, rest))
}

#[tactic(auto, unfolding(crate::specs::Reading::expire_at))]
fn take_expire(node: NodeId, rest: &[u8]) -> Option<(Event, &[u8])>
    ensures { Gives (λ found. (found.0, words_behind found.1.now)) result (expire_at node (words_behind rest.now)) }
{
    let (peer, rest) = take_node(rest)?;
    let (channel, rest) = take_byte(rest)?;
    let event = Event::Expire {
        node,
        peer,
        channel,
    };
    Some((event, rest))
}

#[tactic(auto, unfolding(crate::specs::Reading::receive_at))]
fn take_receive(node: NodeId, rest: &[u8]) -> Option<(Event, &[u8])>
    ensures { Gives (λ found. (found.0, words_behind found.1.now)) result (receive_at node (words_behind rest.now)) }
{
    let (peer, rest) = take_node(rest)?;
    let (number, rest) = take_count(rest)?;
    Some((Event::Receive { node, peer, number }, rest))
}

#[tactic(auto, unfolding(crate::specs::Reading::interface_at))]
fn take_of_interface<'a>(node: NodeId, verb: &[u8], rest: &'a [u8]) -> Option<(Event, &'a [u8])>
    ensures { Gives (λ found. (found.0, words_behind found.1.now)) result (interface_at node verb.now (words_behind rest.now)) }
{
    if is_word(verb, b"bind".as_slice()) {
        take_bind(node, rest)
    } else if is_word(verb, b"expire".as_slice()) {
        take_expire(node, rest)
    } else if is_word(verb, b"receive".as_slice()) {
        take_receive(node, rest)
    } else {
        None
    }
}

#[tactic(auto, unfolding(crate::specs::Reading::load_at))]
fn take_load(node: NodeId, rest: &[u8]) -> Option<(Event, &[u8])>
    ensures { Gives (λ found. (found.0, words_behind found.1.now)) result (load_at node (words_behind rest.now)) }
{
    let (end, rest) = take_end(rest)?;
    let (frame, rest) = take_byte(rest)?;
    Some((Event::Load { node, end, frame }, rest))
}

#[tactic(auto, unfolding(crate::specs::Reading::move_at))]
fn take_drain(node: NodeId, rest: &[u8]) -> Option<(Event, &[u8])>
    ensures { Gives (λ found. (found.0, words_behind found.1.now)) result (move_at (λ end. Events.Drain node end) (words_behind rest.now)) }
{
    let (end, rest) = take_end(rest)?;
    Some((Event::Drain { node, end }, rest))
}

#[tactic(auto, unfolding(crate::specs::Reading::move_at))]
fn take_unload(node: NodeId, rest: &[u8]) -> Option<(Event, &[u8])>
    ensures { Gives (λ found. (found.0, words_behind found.1.now)) result (move_at (λ end. Events.Unload node end) (words_behind rest.now)) }
{
    let (end, rest) = take_end(rest)?;
    Some((Event::Unload { node, end }, rest))
}

#[tactic(auto, unfolding(crate::specs::Reading::move_at))]
fn take_page_out(node: NodeId, rest: &[u8]) -> Option<(Event, &[u8])>
    ensures { Gives (λ found. (found.0, words_behind found.1.now)) result (move_at (λ end. Events.PageOut node end) (words_behind rest.now)) }
{
    let (end, rest) = take_end(rest)?;
    Some((Event::PageOut { node, end }, rest))
}

#[tactic(auto, unfolding(crate::specs::Reading::move_at))]
fn take_page_in(node: NodeId, rest: &[u8]) -> Option<(Event, &[u8])>
    ensures { Gives (λ found. (found.0, words_behind found.1.now)) result (move_at (λ end. Events.PageIn node end) (words_behind rest.now)) }
{
    let (end, rest) = take_end(rest)?;
    Some((Event::PageIn { node, end }, rest))
}

#[tactic(auto, unfolding(crate::specs::Reading::driver_at))]
fn take_of_driver<'a>(node: NodeId, verb: &[u8], rest: &'a [u8]) -> Option<(Event, &'a [u8])>
    ensures { Gives (λ found. (found.0, words_behind found.1.now)) result (driver_at node verb.now (words_behind rest.now)) }
{
    if is_word(verb, b"drain".as_slice()) {
        take_drain(node, rest)
    } else if is_word(verb, b"unload".as_slice()) {
        take_unload(node, rest)
    } else if is_word(verb, b"load".as_slice()) {
        take_load(node, rest)
    } else if is_word(verb, b"pageout".as_slice()) {
        take_page_out(node, rest)
    } else if is_word(verb, b"pagein".as_slice()) {
        take_page_in(node, rest)
    } else {
        None
    }
}

#[tactic(auto, unfolding(crate::specs::Reading::happening_at))]
fn take_happening<'a>(head: Head, verb: &[u8], rest: &'a [u8]) -> Option<(Event, &'a [u8])>
    ensures { Gives (λ found. (found.0, words_behind found.1.now)) result (happening_at head verb.now (words_behind rest.now)) }
{
    match head {
        Head::Outside => take_outside(verb, rest),
        Head::OfThread(thread) => take_of_thread(thread, verb, rest),
        Head::OfInterface(node) => take_of_interface(node, verb, rest),
        Head::OfDriver(node) => take_of_driver(node, verb, rest),
    }
}

/// The event that a line begins with, and what stands behind it.
#[tactic(auto, unfolding(crate::specs::Reading::event_at, crate::specs::Reading::word_at))]
pub fn take_event(line: &[u8]) -> Option<(Event, &[u8])>
    ensures { Gives (λ found. (found.0, words_behind found.1.now)) result (event_at (words_in line.now)) }
{
    let (who, rest) = split_word(line);
    let head = head_of(who)?;
    let (verb, rest) = take_word(rest)?;
    take_happening(head, verb, rest)
}
