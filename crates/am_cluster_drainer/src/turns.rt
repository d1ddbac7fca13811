//! Doing a turn.

ghost use Rattle.am_model_drain.specs.Drain.{after_turn};
ghost use Rattle.am_cluster_drainer.specs.Choices.{sent_to};
ghost use Rattle.am_cluster_drainer.specs.Reads.{call_event, is_seat, is_turn_in_range};
ghost use Rattle.am_cluster_drainer.specs.Stops.{Acts};
ghost use Rattle.am_model_scripts.specs.Layout.{layout_of};
ghost use Rattle.am_model.specs.History.{is_in_range};
ghost use Rattle.std.specs.Prelude.{◌≡◌, true};

use crate::Drainable;
use crate::frames::{ready, ready_dest};
use crate::pages::off_disk_at_home;
use am_model::EntryFault;
use am_model_drain::Turn;
use am_names::{EndpointId, Message, NodeId};
use am_office_entries::{Actor, Event};
use am_scenario_types::ScriptCall;

/// Sends the front message of an endpoint that is ready, once the destination is.
fn send_to<M: Drainable>(
    machine: &mut M,
    node: NodeId,
    end: EndpointId,
    dest: EndpointId,
) -> Result<(), EntryFault>
    requires { is_seat (layout_of (M.scenario machine.old)) node end ≡ true }
    ensures scenario { M.scenario machine.new ≡ M.scenario machine.old }
    ensures acts { let s = M.scenario machine.old in Acts s result (M.journal machine.old) (sent_to s node end dest (M.journal machine.old)) (M.journal machine.new) }
{
    match ready_dest(machine, end, dest) {
        Ok(()) => machine.apply(Event::Bind { node, end }),
        Err(fault) => Err(fault),
    }
}

/// Sends the front message of an endpoint, once the endpoint and the destination are ready.
fn send<M: Drainable>(
    machine: &mut M,
    node: NodeId,
    end: EndpointId,
    message: Message,
) -> Result<(), EntryFault>
    requires { is_seat (layout_of (M.scenario machine.old)) node end ≡ true }
    ensures scenario { M.scenario machine.new ≡ M.scenario machine.old }
    ensures acts { Acts (M.scenario machine.old) result (M.journal machine.old) (after_turn (M.scenario machine.old) (M.journal machine.old) (Turn.Send node end message)) (M.journal machine.new) }
{
    match ready(machine, node, end, end, message.dest) {
        Ok(()) => send_to(machine, node, end, message.dest),
        Err(fault) => Err(fault),
    }
}

/// Makes the next call of a thread, once its endpoint is off the disk.
fn make<M: Drainable>(machine: &mut M, call: ScriptCall) -> Result<(), EntryFault>
    requires { is_in_range (layout_of (M.scenario machine.old)) (call_event call) ≡ true }
    ensures scenario { M.scenario machine.new ≡ M.scenario machine.old }
    ensures acts { Acts (M.scenario machine.old) result (M.journal machine.old) (after_turn (M.scenario machine.old) (M.journal machine.old) (Turn.Make call)) (M.journal machine.new) }
{
    match off_disk_at_home(machine, call.endpoint) {
        Ok(()) => machine.apply(Event::Call {
            actor: Actor::Thread(call.thread),
            end: call.endpoint,
            call: call.call,
        }),
        Err(fault) => Err(fault),
    }
}

/// Does a turn.
pub(crate) fn do_turn<M: Drainable>(machine: &mut M, turn: Turn) -> Result<(), EntryFault>
    requires { is_turn_in_range (layout_of (M.scenario machine.old)) turn ≡ true }
    ensures scenario { M.scenario machine.new ≡ M.scenario machine.old }
    ensures acts { Acts (M.scenario machine.old) result (M.journal machine.old) (after_turn (M.scenario machine.old) (M.journal machine.old) turn) (M.journal machine.new) }
{
    match turn {
        Turn::Once(event) => machine.apply(event),
        Turn::Send { node, end, message } => send(machine, node, end, message),
        Turn::Make(call) => make(machine, call),
    }
}
