//! The journal of a run: each call is the next one of its thread's script, each receipt takes the next released packet of its
//! link, and the last tries come last.

ghost use Rattle.am_check.specs.Follows.{ComesInRun, IsEarly, IsNextCall, IsRunEnded};
ghost use Rattle.am_check.specs.Lines.{stop_in_run};
ghost use Rattle.am_model_drain.specs.Made.{next_entry};
ghost use Rattle.am_model_scripts.specs.Layout.{layout_of};
ghost use Rattle.am_model.specs.History as history;
ghost use Rattle.am_scenario_types.specs.declared.parts.Form.TheVariants.{Run};
ghost use Rattle.am_model_scripts.specs.Follows as follows;
ghost use Rattle.am_model_scripts.specs.Links as links;
ghost use Rattle.am_model_scripts.specs.Scripts.{BeginsScripts, call_left, call_made};
ghost use Rattle.std.specs.Prelude.{◌≡◌, ◌↔◌, ◌<◌, IsTrue, None, Some, true};

use crate::events::{is_in_range, is_of_run};
use crate::faults::{CheckWhat, LineStop};
use crate::follower::Follower;
use crate::same::is_same_script_call;
use crate::step_cluster::stop_of;
use am_cluster_drainer::{Drainable, next_turn, receipt};
use am_cluster_scripted::ScriptedCluster;
use am_model::EntryFault;
use am_names::{NoMemory, NodeId};
use am_office_entries::logged::LoggedJournal;
use am_office_entries::{Actor, Entry, Event};
use am_scenario::ScriptCall;
use std::alloc::Global;

/// Whether a call of a declared thread is the next one of its script.
fn is_next(run: &ScriptedCluster, call: ScriptCall) -> bool
    requires { follows.is_thread run.now.scenario call.thread ≡ true }
    ensures { IsTrue result ↔ (call_left run.now.scenario run.now.journal call.thread ≡ Some call) }
{
    match run.next_call(call.thread) {
        Some(next) => is_same_script_call(next, call),
        None => false,
    }
}

/// Whether an event of a run is the next call of its thread's script, if it is a call of a thread.
fn is_next_call(run: &ScriptedCluster, event: Event) -> bool
    requires { follows.is_of_run run.now.scenario event ≡ true }
    ensures { IsTrue result ↔ IsNextCall run.now.scenario run.now.journal (call_made event) }
{
    match event {
        Event::Call {
            actor: Actor::Thread(thread),
            end,
            call,
        } => is_next(
            run,
            ScriptCall {
                thread,
                endpoint: end,
                call,
            },
        ),
        _ => true,
    }
}

/// Whether the packet with this number is the first released one of its link that was not received.
fn is_due(run: &ScriptedCluster, node: NodeId, peer: NodeId, number: u32) -> bool
    requires node { node.0 < run.now.scenario.nodes }
    requires peer { peer.0 < run.now.scenario.nodes }
    ensures { IsTrue result ↔ (links.due run.now.scenario peer node run.now.journal ≡ Some number) }
{
    match run.due(node, peer) {
        Some(due) => due == number,
        None => false,
    }
}

/// Whether an event receives no packet, or the first released one of its link that was not received.
fn is_receipt_in_order(run: &ScriptedCluster, event: Event) -> bool
    requires { history.is_in_range (layout_of run.now.scenario) event ≡ true }
    ensures { IsTrue result ↔ links.IsReceiptInOrder run.now.scenario run.now.journal event }
{
    match event {
        Event::Receive { node, peer, number } => is_due(run, node, peer, number),
        _ => true,
    }
}

/// Whether an event may come in a run.
fn comes_in_run(run: &ScriptedCluster, event: Event) -> bool
    ensures { IsTrue result ↔ ComesInRun run.now.scenario run.now.journal event }
{
    is_in_range(run.scenario(), event)
        && is_of_run(run.scenario(), event)
        && is_next_call(run, event)
        && is_receipt_in_order(run, event)
}

/// Whether the entry of an event that nothing keeps from happening would come too early.
fn is_early(run: &ScriptedCluster, event: Event) -> bool
    requires { history.is_in_range (layout_of run.now.scenario) event ≡ true }
    ensures { history.failing (layout_of run.now.scenario) run.now.journal event ≡ None → IsTrue result ↔ IsEarly Run run.now.scenario run.now.journal (next_entry (layout_of run.now.scenario) run.now.journal event) }
{
    run.is_last(event) && receipt(run).is_some()
}

/// Why an event of a run is not made, where its entry would come too early or not.
fn stop_in_run(early: bool, fault: EntryFault) -> LineStop
    ensures { result ≡ stop_in_run early fault }
{
    match fault {
        EntryFault::LogFull(_) if early => LineStop::What(CheckWhat::Follows),
        other => stop_of(other),
    }
}

/// Whether all calls were made, all that was released was received, and all is at rest.
fn is_run_ended(run: &ScriptedCluster) -> bool
    requires { BeginsScripts run.now.scenario run.now.journal }
    ensures { IsTrue result ↔ IsRunEnded run.now.scenario run.now.journal }
{
    run.laws();
    next_turn(run).is_none()
}

impl<'a> Follower for ScriptedCluster<'a> {
    ghost form = { Run };

    ghost scenario = { λ m. m.scenario };

    ghost journal = { λ m. m.journal };

    fn may_come(&self, event: Event) -> bool {
        comes_in_run(self, event)
    }

    fn make(&mut self, event: Event) -> Result<Entry, LineStop> {
        let early = is_early(self, event);
        match self.step(event) {
            Ok(_) if early => Err(LineStop::What(CheckWhat::Follows)),
            Ok(entry) => Ok(entry),
            Err(fault) => Err(stop_in_run(early, fault)),
        }
    }

    fn is_ended(&self) -> bool {
        is_run_ended(self)
    }

    fn entries<'b>(&'b self, alloc: Global) -> Result<LoggedJournal<'b>, NoMemory> {
        self.journal(alloc)
    }
}
