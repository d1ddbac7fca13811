//! The lines of a step script.

ghost use Rattle.am_lexer.specs.Text.{words_of};
ghost use Rattle.am_lexer.specs.Fields.{Gives};
ghost use Rattle.am_office_entries.specs.declared.Event.TheVariants as Events;
ghost use Rattle.am_scenario.specs.Drafts.Drafts.{said};
ghost use Rattle.am_scenario.specs.Lines.Steps.{step, end_line, outside_line, bind_line, expire_line, receive_line, interface_line, load_line, drive_line, driver_line, head_node};

use crate::drafts::{Draft, Line};
use crate::lines::calls::take_call;
use crate::lines::keyword::is_word;
use crate::lines::places::{take_below, take_end_of, take_node};
use am_lexer::{What, take_end, take_u32, take_word};
use am_names::NodeId;
use am_office_entries::{Actor, Event};

const MOST_STEPS: usize = 65_536;

#[tactic(auto, unfolding(crate::specs::Lines::Steps::step))]
fn step(draft: &Draft, event: Event, rest: &[u8]) -> Result<Line, What>
    ensures { Gives (λ line. line) result (step (said draft.now) event (words_of rest.now)) }
{
    take_end(rest)?;
    if draft.steps.len() < MOST_STEPS {
        Ok(Line::Step(event))
    } else {
        Err(What::TooMany)
    }
}

fn carry_line(draft: &Draft, rest: &[u8]) -> Result<Line, What>
    ensures { Gives (λ line. line) result (end_line (said draft.now) Events.Carry (words_of rest.now)) }
{
    let (end, rest) = take_end_of(draft, None, rest)?;
    step(draft, Event::Carry { end }, rest)
}

fn want_line(draft: &Draft, actor: Actor, rest: &[u8]) -> Result<Line, What>
    ensures { Gives (λ line. line) result (end_line (said draft.now) (Events.Want actor) (words_of rest.now)) }
{
    let (end, rest) = take_end_of(draft, None, rest)?;
    step(draft, Event::Want { actor, end }, rest)
}

/// A step that no node makes, behind its first word, or its first fault.
#[tactic(auto, unfolding(crate::specs::Lines::Steps::outside_line))]
pub fn outside_line(draft: &Draft, rest: &[u8]) -> Result<Line, What>
    ensures { Gives (λ line. line) result (outside_line (said draft.now) (words_of rest.now)) }
{
    let actor = Actor::Outside;
    let (verb, rest) = take_word(rest)?;
    if is_word(verb, b"carry".as_slice()) {
        carry_line(draft, rest)
    } else if is_word(verb, b"want".as_slice()) {
        want_line(draft, actor, rest)
    } else {
        let ((end, call), rest) = take_call(draft, None, verb, rest)?;
        step(draft, Event::Call { actor, end, call }, rest)
    }
}

#[tactic(auto, unfolding(crate::specs::Lines::Steps::bind_line))]
fn bind_line(draft: &Draft, node: NodeId, rest: &[u8]) -> Result<Line, What>
    ensures { Gives (λ line. line) result (bind_line (said draft.now) node (words_of rest.now)) }
{
    let (end, rest) = take_end_of(draft, None, rest)?;
    step(draft, Event::Bind { node, end }, rest)
}

#[tactic(auto, unfolding(crate::specs::Lines::Steps::expire_line))]
fn expire_line(draft: &Draft, node: NodeId, rest: &[u8]) -> Result<Line, What>
    ensures { Gives (λ line. line) result (expire_line (said draft.now) node (words_of rest.now)) }
{
    let (peer, rest) = take_node(&draft.settings, rest)?;
    let (channel, rest) = take_below(draft.settings.channel_count(), rest)?;
    let event = Event::Expire {
        node,
        peer,
        channel,
    };
    step(draft, event, rest)
}

#[tactic(auto, unfolding(crate::specs::Lines::Steps::receive_line))]
fn receive_line(draft: &Draft, node: NodeId, rest: &[u8]) -> Result<Line, What>
    ensures { Gives (λ line. line) result (receive_line (said draft.now) node (words_of rest.now)) }
{
    let (peer, rest) = take_node(&draft.settings, rest)?;
    let (number, rest) = take_u32(1, 4_294_967_295, rest)?;
    let event = Event::Receive { node, peer, number };
    step(draft, event, rest)
}

// The node that a first word names.
#[tactic(auto, unfolding(crate::specs::Lines::Steps::head_node))]
fn head_node(draft: &Draft, number: u64) -> Result<NodeId, What>
    ensures { Gives (λ node. node) result (head_node (said draft.now) number) }
{
    if number < u64::from(draft.settings.node_count()) {
        Ok(NodeId(number as u8))
    } else {
        Err(What::OutOfRange)
    }
}

/// A step of an interface, behind its first word, or its first fault.
#[tactic(auto, unfolding(crate::specs::Lines::Steps::interface_line))]
pub fn interface_line(draft: &Draft, number: u64, rest: &[u8]) -> Result<Line, What>
    ensures { Gives (λ line. line) result (interface_line (said draft.now) number (words_of rest.now)) }
{
    let node = head_node(draft, number)?;
    let (verb, rest) = take_word(rest)?;
    if is_word(verb, b"bind".as_slice()) {
        bind_line(draft, node, rest)
    } else if is_word(verb, b"expire".as_slice()) {
        expire_line(draft, node, rest)
    } else if is_word(verb, b"receive".as_slice()) {
        receive_line(draft, node, rest)
    } else {
        Err(What::UnknownWord)
    }
}

#[tactic(auto, unfolding(crate::specs::Lines::Steps::load_line))]
fn load_line(draft: &Draft, node: NodeId, rest: &[u8]) -> Result<Line, What>
    ensures { Gives (λ line. line) result (load_line (said draft.now) node (words_of rest.now)) }
{
    let (end, rest) = take_end_of(draft, None, rest)?;
    let (frame, rest) = take_below(draft.settings.frame_count(), rest)?;
    step(draft, Event::Load { node, end, frame }, rest)
}

fn drain_line(draft: &Draft, node: NodeId, rest: &[u8]) -> Result<Line, What>
    ensures { Gives (λ line. line) result (end_line (said draft.now) (Events.Drain node) (words_of rest.now)) }
{
    let (end, rest) = take_end_of(draft, None, rest)?;
    step(draft, Event::Drain { node, end }, rest)
}

fn unload_line(draft: &Draft, node: NodeId, rest: &[u8]) -> Result<Line, What>
    ensures { Gives (λ line. line) result (end_line (said draft.now) (Events.Unload node) (words_of rest.now)) }
{
    let (end, rest) = take_end_of(draft, None, rest)?;
    step(draft, Event::Unload { node, end }, rest)
}

fn page_out_line(draft: &Draft, node: NodeId, rest: &[u8]) -> Result<Line, What>
    ensures { Gives (λ line. line) result (end_line (said draft.now) (Events.PageOut node) (words_of rest.now)) }
{
    let (end, rest) = take_end_of(draft, None, rest)?;
    step(draft, Event::PageOut { node, end }, rest)
}

fn page_in_line(draft: &Draft, node: NodeId, rest: &[u8]) -> Result<Line, What>
    ensures { Gives (λ line. line) result (end_line (said draft.now) (Events.PageIn node) (words_of rest.now)) }
{
    let (end, rest) = take_end_of(draft, None, rest)?;
    step(draft, Event::PageIn { node, end }, rest)
}

#[tactic(auto, unfolding(crate::specs::Lines::Steps::drive_line))]
fn drive_line(draft: &Draft, node: NodeId, verb: &[u8], rest: &[u8]) -> Result<Line, What>
    ensures { Gives (λ line. line) result (drive_line (said draft.now) node verb.now (words_of rest.now)) }
{
    if is_word(verb, b"drain".as_slice()) {
        drain_line(draft, node, rest)
    } else if is_word(verb, b"unload".as_slice()) {
        unload_line(draft, node, rest)
    } else if is_word(verb, b"load".as_slice()) {
        load_line(draft, node, rest)
    } else if is_word(verb, b"pageout".as_slice()) {
        page_out_line(draft, node, rest)
    } else if is_word(verb, b"pagein".as_slice()) {
        page_in_line(draft, node, rest)
    } else {
        Err(What::UnknownWord)
    }
}

/// A step of a driver, behind its first word, or its first fault.
#[tactic(auto, unfolding(crate::specs::Lines::Steps::driver_line))]
pub fn driver_line(draft: &Draft, number: u64, rest: &[u8]) -> Result<Line, What>
    ensures { Gives (λ line. line) result (driver_line (said draft.now) number (words_of rest.now)) }
{
    let node = head_node(draft, number)?;
    let (verb, rest) = take_word(rest)?;
    drive_line(draft, node, verb, rest)
}
