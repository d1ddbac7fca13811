//! The tests that the rules make of a view's lines.

ghost use Rattle.am_driver_moves.specs.Choice.Moves as rules;
ghost use Rattle.std.specs.Prelude.{◌≡◌, count_by, find};
ghost use Rattle.std.specs.List.{list_any};

use crate::choice::{EndView, View};
use am_model::{is_in_a_frame, is_in_frame, is_on_disk, is_on_host};
use am_names::EndpointId;

fn is_leaving(end: &EndView) -> bool
    ensures { result ≡ rules.is_leaving end.now }
{
    is_in_a_frame(end.place) && end.draining
}

fn may_unload(end: &EndView) -> bool
    ensures { result ≡ rules.may_unload end.now }
{
    is_leaving(end) && end.in_flight == 0
}

fn wants_memory(end: &EndView) -> bool
    ensures { result ≡ rules.wants_memory end.now }
{
    is_on_disk(end.place) && end.wanted
}

fn is_open_on_host(end: &EndView) -> bool
    ensures { result ≡ rules.is_open_on_host end.now }
{
    is_on_host(end.place) && !end.closed
}

fn wants_frame(end: &EndView) -> bool
    ensures { result ≡ rules.wants_frame end.now }
{
    is_open_on_host(end) && end.wanted
}

fn may_page_out(end: &EndView) -> bool
    ensures { result ≡ rules.may_page_out end.now }
{
    is_open_on_host(end) && !end.wanted
}

fn is_after(last: Option<EndpointId>, end: &EndView) -> bool
    ensures { result ≡ rules.is_after last end.now }
{
    match last {
        None => true,
        Some(last) => last.0 < end.id.0,
    }
}

fn is_next(last: Option<EndpointId>, end: &EndView) -> bool
    ensures { result ≡ rules.is_next last end.now }
{
    is_in_a_frame(end.place) && is_after(last, end)
}

pub(crate) fn first_to_unload(ends: &[EndView]) -> Option<EndView>
    ensures { result ≡ find rules.may_unload ends.now }
{
    ends.iter().copied().find(|end| may_unload(end))
}

pub(crate) fn first_to_page_in(ends: &[EndView]) -> Option<EndView>
    ensures { result ≡ find rules.wants_memory ends.now }
{
    ends.iter().copied().find(|end| wants_memory(end))
}

pub(crate) fn first_to_load(ends: &[EndView]) -> Option<EndView>
    ensures { result ≡ find rules.wants_frame ends.now }
{
    ends.iter().copied().find(|end| wants_frame(end))
}

pub(crate) fn first_to_page_out(ends: &[EndView]) -> Option<EndView>
    ensures { result ≡ find rules.may_page_out ends.now }
{
    ends.iter().copied().find(|end| may_page_out(end))
}

fn first_after(last: Option<EndpointId>, ends: &[EndView]) -> Option<EndView>
    ensures { result ≡ find (rules.is_next last) ends.now }
{
    ends.iter().copied().find(|end| is_next(last, end))
}

fn first_framed(ends: &[EndView]) -> Option<EndView>
    ensures { result ≡ find rules.has_frame ends.now }
{
    ends.iter().copied().find(|end| is_in_a_frame(end.place))
}

/// The next endpoint in a frame after the last that was drained, and where there is none the least in a frame.
pub(crate) fn next_framed(view: &View) -> Option<EndView>
    ensures { result ≡ rules.next_framed view.now }
{
    match first_after(view.last, &view.ends) {
        Some(end) => Some(end),
        None => first_framed(&view.ends),
    }
}

fn is_held(ends: &[EndView], frame: u8) -> bool
    ensures { result ≡ rules.is_held ends.now frame }
{
    ends.iter().any(|end| is_in_frame(frame, end.place))
}

fn is_free(ends: &[EndView], frame: u8) -> bool
    ensures { result ≡ rules.is_free ends.now frame }
{
    !is_held(ends, frame)
}

fn first_free(ends: &[EndView], frames: u8) -> Option<u8>
    ensures { result ≡ rules.first_free ends.now frames }
{
    for frame in 0..frames {
        if is_free(ends, frame) {
            return Some(frame);
        }
    }
    None
}

/// The least free frame.
pub(crate) fn free_frame(view: &View) -> Option<u8>
    ensures { result ≡ rules.free_frame view.now }
{
    first_free(&view.ends, view.frames)
}

fn any_wants_frame(ends: &[EndView]) -> bool
    ensures { result ≡ list_any rules.wants_frame ends.now }
{
    ends.iter().any(|end| wants_frame(end))
}

fn any_leaves(ends: &[EndView]) -> bool
    ensures { result ≡ list_any rules.is_leaving ends.now }
{
    ends.iter().any(|end| is_leaving(end))
}

/// Whether some endpoint waits for a frame, none is free, and none is about to be.
pub(crate) fn must_drain(view: &View) -> bool
    ensures { result ≡ rules.must_drain view.now }
{
    any_wants_frame(&view.ends) && free_frame(view).is_none() && !any_leaves(&view.ends)
}

fn open_on_host(ends: &[EndView]) -> usize
    ensures { result ≡ count_by rules.is_open_on_host ends.now }
{
    ends.iter().filter(|end| is_open_on_host(end)).count()
}

/// Whether more open endpoints are on the host than are to be kept there.
pub(crate) fn is_crowded(view: &View) -> bool
    ensures { result ≡ rules.is_crowded view.now }
{
    open_on_host(&view.ends) > usize::from(view.keep)
}
