//! Making endpoints ready to send and to receive.

ghost use Rattle.am_model_drain.specs.Ready as plan;
ghost use Rattle.am_cluster_drainer.specs.Choices.{first_read, is_neither, is_open_on_host, passes_head, unloaded_by};
ghost use Rattle.am_cluster_drainer.specs.Reads.{head_of, is_seat};
ghost use Rattle.am_cluster_drainer.specs.Stops.{Acts};
ghost use Rattle.am_model_scripts.specs.Layout.{layout_of};
ghost use Rattle.am_model.specs.Endpoint as endpoint;
ghost use Rattle.am_model.specs.History.{state_of};
ghost use Rattle.am_names.specs.Names.{same_end};
ghost use Rattle.am_model_scripts.specs.Standings.{standings};
ghost use Rattle.std.specs.Prelude.{◌≡◌, ◌<◌, ◌&&◌, true, not, is_none, option_map, length, filter, find, Some, IfSome};

use crate::pages::{apply_if, off_disk};
use crate::{Drainable, EndHead};
use am_model::{EntryFault, Head, is_in_a_frame, is_on_disk, is_on_host};
use am_names::{EndpointId, NodeId};
use am_office_entries::Event;

/// What an endpoint is looked for.
#[derive(Clone, Copy)]
pub(crate) enum HeadTest {
    /// It is in a frame of the node, and neither the source nor the destination.
    Leaver {
        node: NodeId,
        source: EndpointId,
        dest: EndpointId,
    },
    /// It is open and on the host of the node, and neither the source nor the destination.
    Spare {
        node: NodeId,
        source: EndpointId,
        dest: EndpointId,
    },
}

fn is_neither(head: EndHead, source: EndpointId, dest: EndpointId) -> bool
    ensures { result ≡ is_neither source dest head }
{
    source.0 != head.id.0 && dest.0 != head.id.0
}

fn is_open_on_host(head: EndHead, node: NodeId) -> bool
    ensures { result ≡ is_open_on_host node head }
{
    node.0 == head.node.0 && (is_on_host(head.head.place) && !head.head.closed)
}

fn passes(test: HeadTest, head: EndHead) -> bool
    ensures { result ≡ passes_head test head }
{
    match test {
        HeadTest::Leaver { node, source, dest } => {
            node.0 == head.node.0
                && (is_in_a_frame(head.head.place) && is_neither(head, source, dest))
        }
        HeadTest::Spare { node, source, dest } => {
            is_open_on_host(head, node) && is_neither(head, source, dest)
        }
    }
}

/// The least endpoint that passes.
pub(crate) fn first_head<M: Drainable>(machine: &M, test: HeadTest) -> Option<EndHead>
    ensures value { result ≡ first_read head_of (passes_head test) (standings (layout_of (M.scenario machine.now)) (M.journal machine.now)) }
    ensures seat { IfSome result (λ head. is_seat (layout_of (M.scenario machine.now)) head.node head.id ≡ true) }
{
    let count = machine.ends_len();
    'ends: for index in 0..count {
        let head = machine.head(index);
        if passes(test, head) {
            return Some(head);
        }
    }
    None
}

/// How many open endpoints of a node are on the host.
fn count_on_host<M: Drainable>(machine: &M, node: NodeId) -> usize
    ensures { result ≡ length (filter (plan.is_open_on_host node) (standings (layout_of (M.scenario machine.now)) (M.journal machine.now))) }
{
    let mut found = 0;
    let count = machine.ends_len();
    'ends: for index in 0..count {
        if is_open_on_host(machine.head(index), node) {
            found += 1;
        }
    }
    found
}

/// The endpoint that goes to disk for a message.
fn spare<M: Drainable>(
    machine: &M,
    node: NodeId,
    source: EndpointId,
    dest: EndpointId,
) -> Option<EndHead>
    ensures value { let s = M.scenario machine.now in result ≡ option_map head_of (plan.spare s.keep node source dest (standings (layout_of s) (M.journal machine.now))) }
    ensures seat { IfSome result (λ head. is_seat (layout_of (M.scenario machine.now)) head.node head.id ≡ true) }
{
    let kept = usize::from(machine.keep());
    let found = count_on_host(machine, node);
    if kept < found {
        first_head(machine, HeadTest::Spare { node, source, dest })
    } else {
        None
    }
}

/// The least free frame of a node.
fn free_frame<M: Drainable>(machine: &M, node: NodeId) -> Option<u8>
    ensures value { result ≡ plan.free_frame (layout_of (M.scenario machine.now)) node (standings (layout_of (M.scenario machine.now)) (M.journal machine.now)) }
    ensures small { IfSome result (λ frame. frame < (M.scenario machine.now).frames) }
{
    let frames = machine.frames();
    'frames: for frame in 0..frames {
        if !machine.is_frame_held(node, frame) {
            return Some(frame);
        }
    }
    None
}

/// Whether an endpoint is draining in a frame.
fn is_draining(head: Head) -> bool
    ensures { result ≡ (endpoint.is_in_a_frame head.place && head.draining) }
{
    is_in_a_frame(head.place) && head.draining
}

/// An endpoint in a frame is not draining.
fn stop_draining<M: Drainable>(
    machine: &mut M,
    node: NodeId,
    end: EndpointId,
) -> Result<(), EntryFault>
    requires { is_seat (layout_of (M.scenario machine.old)) node end ≡ true }
    ensures scenario { M.scenario machine.new ≡ M.scenario machine.old }
    ensures acts { Acts (M.scenario machine.old) result (M.journal machine.old) (plan.not_draining (layout_of (M.scenario machine.old)) node end (M.journal machine.old)) (M.journal machine.new) }
{
    let drains = is_draining(machine.head_by(end));
    apply_if(machine, drains, Event::Unload { node, end })
}

/// An endpoint leaves its frame, and drains before if it doesn't yet.
fn unload<M: Drainable>(machine: &mut M, leaver: EndHead) -> Result<(), EntryFault>
    requires { is_seat (layout_of (M.scenario machine.old)) leaver.node leaver.id ≡ true }
    ensures scenario { M.scenario machine.new ≡ M.scenario machine.old }
    ensures acts { Acts (M.scenario machine.old) result (M.journal machine.old) (unloaded_by (layout_of (M.scenario machine.old)) (Some leaver) (M.journal machine.old)) (M.journal machine.new) }
{
    let node = leaver.node;
    let end = leaver.id;
    match apply_if(machine, !leaver.head.draining, Event::Drain { node, end }) {
        Ok(()) => machine.apply(Event::Unload { node, end }),
        Err(fault) => Err(fault),
    }
}

/// The least endpoint that may leave its frame for a message does, if there is one.
fn unload_leaver<M: Drainable>(
    machine: &mut M,
    node: NodeId,
    source: EndpointId,
    dest: EndpointId,
) -> Result<(), EntryFault>
    ensures scenario { M.scenario machine.new ≡ M.scenario machine.old }
    ensures acts { let s = M.scenario machine.old in let layout = layout_of s in let past = M.journal machine.old in Acts s result past (plan.unloaded layout (find (plan.may_leave node source dest) (standings layout past)) past) (M.journal machine.new) }
{
    match first_head(machine, HeadTest::Leaver { node, source, dest }) {
        Some(leaver) => unload(machine, leaver),
        None => Ok(()),
    }
}

/// One endpoint goes to disk for a message, where too many are on the host.
fn page_out_spare<M: Drainable>(
    machine: &mut M,
    node: NodeId,
    source: EndpointId,
    dest: EndpointId,
) -> Result<(), EntryFault>
    ensures scenario { M.scenario machine.new ≡ M.scenario machine.old }
    ensures acts { let s = M.scenario machine.old in Acts s result (M.journal machine.old) (plan.kept (layout_of s) s.keep node source dest (M.journal machine.old)) (M.journal machine.new) }
{
    match spare(machine, node, source, dest) {
        Some(head) => machine.apply(Event::PageOut {
            node: head.node,
            end: head.id,
        }),
        None => Ok(()),
    }
}

/// A frame of the node is emptied for a message, and then one endpoint may go to disk.
fn empty_frame<M: Drainable>(
    machine: &mut M,
    node: NodeId,
    source: EndpointId,
    dest: EndpointId,
) -> Result<(), EntryFault>
    ensures scenario { M.scenario machine.new ≡ M.scenario machine.old }
    ensures acts { let s = M.scenario machine.old in Acts s result (M.journal machine.old) (plan.emptied (layout_of s) s.keep node source dest (M.journal machine.old)) (M.journal machine.new) }
{
    match unload_leaver(machine, node, source, dest) {
        Ok(()) => page_out_spare(machine, node, source, dest),
        Err(fault) => Err(fault),
    }
}

/// Whether an endpoint is on the host of its node and no frame there is free.
fn lacks_frame<M: Drainable>(machine: &M, node: NodeId, end: EndpointId) -> bool
    requires { is_seat (layout_of (M.scenario machine.now)) node end ≡ true }
    ensures { let layout = layout_of (M.scenario machine.now) in let past = M.journal machine.now in result ≡ (endpoint.is_on_host (state_of layout past end).head.place && is_none (plan.free_frame layout node (standings layout past))) }
{
    is_on_host(machine.head_by(end).place) && free_frame(machine, node).is_none()
}

/// There is a free frame for an endpoint on the host.
fn make_frame<M: Drainable>(
    machine: &mut M,
    node: NodeId,
    end: EndpointId,
    source: EndpointId,
    dest: EndpointId,
) -> Result<(), EntryFault>
    requires { is_seat (layout_of (M.scenario machine.old)) node end ≡ true }
    ensures scenario { M.scenario machine.new ≡ M.scenario machine.old }
    ensures acts { let s = M.scenario machine.old in Acts s result (M.journal machine.old) (plan.with_frame (layout_of s) s.keep node end source dest (M.journal machine.old)) (M.journal machine.new) }
{
    if lacks_frame(machine, node, end) {
        empty_frame(machine, node, source, dest)
    } else {
        Ok(())
    }
}

/// An endpoint on the host goes into the least free frame.
fn load<M: Drainable>(machine: &mut M, node: NodeId, end: EndpointId) -> Result<(), EntryFault>
    requires { is_seat (layout_of (M.scenario machine.old)) node end ≡ true }
    ensures scenario { M.scenario machine.new ≡ M.scenario machine.old }
    ensures acts { Acts (M.scenario machine.old) result (M.journal machine.old) (plan.loaded (layout_of (M.scenario machine.old)) node end (M.journal machine.old)) (M.journal machine.new) }
{
    if !is_on_host(machine.head_by(end).place) {
        return Ok(());
    }
    match free_frame(machine, node) {
        Some(frame) => machine.apply(Event::Load { node, end, frame }),
        None => Ok(()),
    }
}

/// An endpoint on the host goes into a frame, which is emptied for it where none is free.
fn fill_frame<M: Drainable>(
    machine: &mut M,
    node: NodeId,
    end: EndpointId,
    source: EndpointId,
    dest: EndpointId,
) -> Result<(), EntryFault>
    requires { is_seat (layout_of (M.scenario machine.old)) node end ≡ true }
    ensures scenario { M.scenario machine.new ≡ M.scenario machine.old }
    ensures acts { let s = M.scenario machine.old in let layout = layout_of s in Acts s result (M.journal machine.old) (plan.loaded layout node end (plan.with_frame layout s.keep node end source dest (M.journal machine.old))) (M.journal machine.new) }
{
    match make_frame(machine, node, end, source, dest) {
        Ok(()) => load(machine, node, end),
        Err(fault) => Err(fault),
    }
}

/// An endpoint that isn't on disk goes into a frame, and isn't draining there.
fn seat<M: Drainable>(
    machine: &mut M,
    node: NodeId,
    end: EndpointId,
    source: EndpointId,
    dest: EndpointId,
) -> Result<(), EntryFault>
    requires { is_seat (layout_of (M.scenario machine.old)) node end ≡ true }
    ensures scenario { M.scenario machine.new ≡ M.scenario machine.old }
    ensures acts { let s = M.scenario machine.old in let layout = layout_of s in let past = M.journal machine.old in Acts s result past (plan.loaded layout node end (plan.with_frame layout s.keep node end source dest (plan.not_draining layout node end past))) (M.journal machine.new) }
{
    match stop_draining(machine, node, end) {
        Ok(()) => fill_frame(machine, node, end, source, dest),
        Err(fault) => Err(fault),
    }
}

/// An endpoint of a node is ready for a message from `source` to `dest`.
pub(crate) fn ready<M: Drainable>(
    machine: &mut M,
    node: NodeId,
    end: EndpointId,
    source: EndpointId,
    dest: EndpointId,
) -> Result<(), EntryFault>
    requires { is_seat (layout_of (M.scenario machine.old)) node end ≡ true }
    ensures scenario { M.scenario machine.new ≡ M.scenario machine.old }
    ensures acts { let s = M.scenario machine.old in Acts s result (M.journal machine.old) (plan.ready (layout_of s) s.keep node end source dest (M.journal machine.old)) (M.journal machine.new) }
{
    match off_disk(machine, node, end) {
        Ok(()) => seat(machine, node, end, source, dest),
        Err(fault) => Err(fault),
    }
}

/// Whether a destination that has this head is to be made ready.
fn is_needed(source: EndpointId, dest: EndpointId, head: Head) -> bool
    ensures { result ≡ (not (same_end source dest) && not head.closed) }
{
    source.0 != dest.0 && !head.closed
}

/// The destination of a message is ready too, unless it is closed or is the source.
pub(crate) fn ready_dest<M: Drainable>(
    machine: &mut M,
    source: EndpointId,
    dest: EndpointId,
) -> Result<(), EntryFault>
    ensures scenario { M.scenario machine.new ≡ M.scenario machine.old }
    ensures acts { let s = M.scenario machine.old in Acts s result (M.journal machine.old) (plan.ready_dest (layout_of s) s.keep source dest (M.journal machine.old)) (M.journal machine.new) }
{
    match machine.home(dest) {
        Some(node) => {
            if is_needed(source, dest, machine.head_by(dest)) {
                ready(machine, node, dest, source, dest)
            } else {
                Ok(())
            }
        }
        None => Ok(()),
    }
}
