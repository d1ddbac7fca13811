//! What a node's driver does next with its endpoints, its frames and its disk.

ghost use Rattle.am_driver_moves.specs.Choice.Chosen.{MovesOfLines};
ghost use Rattle.am_driver_moves.specs.Choice.Moves as rules;
ghost use Rattle.am_driver_moves.specs.Choice.Shown.{IsEnabledWhereShown};
ghost use Rattle.am_driver_moves.specs.Choice.Views.{EachStateIsShown, FirstIsLeast};
ghost use Rattle.std.specs.Prelude.{◌≡◌, ◌↔◌};

mod lines;

use crate::choice::lines::{
    first_to_load, first_to_page_in, first_to_page_out, first_to_unload, free_frame, is_crowded,
    must_drain, next_framed,
};
use am_names::EndpointId;
use am_office_entries::Place;
use std::marker::Model;

/// A line of a view: what the driver last saw of an endpoint.
#[derive(Clone, Copy, PartialEq, Eq)]
pub struct EndView {
    pub id: EndpointId,
    /// Where it lies.
    pub place: Place,
    /// Whether someone wants it in a frame.
    pub wanted: bool,
    /// Whether it binds no further message, since it is to leave its frame.
    pub draining: bool,
    pub closed: bool,
    /// How many of its messages are in flight, 0 to 32. 0 on disk.
    pub in_flight: u8,
}

/// What a driver knows of its node.
#[derive(Drop)]
pub struct View {
    /// A line for each endpoint of the node, in ascending order of their numbers: the least endpoint is the first.
    pub ends: Vec<EndView>,
    /// How many frames the node has, 2 to 16.
    pub frames: u8,
    /// How many open endpoints may stay on the host, 0 to 64.
    pub keep: u8,
    /// The endpoint that was drained last, if one was.
    pub last: Option<EndpointId>,
}

impl Model for View {
    ghost use Rattle.am_driver_moves.specs.Choice.Lists.{ViewLists};

    ghost Value = { ViewLists };

    ghost view = { λ v. record { ends = v.ends.items; frames = v.frames; keep = v.keep; last = v.last } };
}

/// What a driver may do with an endpoint.
#[derive(Clone, Copy, PartialEq, Eq)]
pub enum Move {
    /// It binds no message until it is loaded again.
    Drain(EndpointId),
    /// It leaves its frame.
    Unload(EndpointId),
    /// It enters the frame with this number.
    Load(EndpointId, u8),
    /// It goes to disk.
    PageOut(EndpointId),
    /// It comes back from disk.
    PageIn(EndpointId),
    /// No rule applies.
    Nothing,
}

/// The move of the first of these rules that applies, where least is the first in the view's order:
///
/// 1. Unload the least endpoint in a frame that is draining with nothing in flight.
/// 2. Page in the least wanted endpoint on disk.
/// 3. Load the least wanted open endpoint on the host into the least free frame.
/// 4. Where a wanted open endpoint is on the host, no frame is free and no endpoint in a frame is draining: drain the
///    least endpoint in a frame above the last one drained, or the least in a frame where there is none above.
/// 5. Where more than `keep` open endpoints are on the host: page out the least of them that isn't wanted.
/// 6. Nothing, exactly where none of these applies.
///
/// In each state of the cluster that the view shows, the move is enabled (`IsEnabledWhereShown` of `specs/Shown.antt`).
pub fn next_move(view: &View) -> Move
    ensures rules { result ≡ rules.next_move view.now }
    ensures enabled { IsEnabledWhereShown view.now result }
    ensures nothing { (result ≡ Move.Nothing) ↔ rules.NoRuleApplies view.now }
{
    first_rule(view)
}

// The move of the first rule that applies.
fn first_rule(view: &View) -> Move
    ensures { result ≡ rules.next_move view.now }
{
    if let Some(unload) = unload(view) {
        return unload;
    }
    if let Some(page_in) = page_in(view) {
        return page_in;
    }
    if let Some(load) = load(view) {
        return load;
    }
    if let Some(drain) = drain(view) {
        return drain;
    }
    match page_out(view) {
        Some(page_out) => page_out,
        None => Move::Nothing,
    }
}

fn unload(view: &View) -> Option<Move>
    ensures { result ≡ rules.unload view.now }
{
    let end = first_to_unload(&view.ends)?;
    Some(Move::Unload(end.id))
}

fn page_in(view: &View) -> Option<Move>
    ensures { result ≡ rules.page_in view.now }
{
    let end = first_to_page_in(&view.ends)?;
    Some(Move::PageIn(end.id))
}

fn load(view: &View) -> Option<Move>
    ensures { result ≡ rules.load view.now }
{
    let frame = free_frame(view)?;
    let end = first_to_load(&view.ends)?;
    Some(Move::Load(end.id, frame))
}

fn drain(view: &View) -> Option<Move>
    ensures { result ≡ rules.drain view.now }
{
    if !must_drain(view) {
        return None;
    }
    let end = next_framed(view)?;
    Some(Move::Drain(end.id))
}

fn page_out(view: &View) -> Option<Move>
    ensures { result ≡ rules.page_out view.now }
{
    if !is_crowded(view) {
        return None;
    }
    let end = first_to_page_out(&view.ends)?;
    Some(Move::PageOut(end.id))
}

/// Every state of a node on the packet network is shown by a view.
pub fn each_state_is_shown()
    ensures { EachStateIsShown }
{}

/// What the rules choose is a move of an endpoint that the view shows, and that may be moved so by its line.
pub fn moves_are_of_lines()
    ensures { MovesOfLines }
{}

/// In a view whose lines ascend, the first endpoint that passes a test is the least that does.
pub fn first_is_least()
    ensures { FirstIsLeast }
{}
