//! Whether the numbers of an event are in range, and what must be declared is; and whether the event is one of a run.

ghost use Rattle.am_check.specs.Declares.{declares};
ghost use Rattle.am_model_scripts.specs.Layout.{layout_of};
ghost use Rattle.am_model.specs.History as ranges;
ghost use Rattle.am_model.specs.Layout as layouts;
ghost use Rattle.am_model_scripts.specs.Follows as follows;
ghost use Rattle.std.specs.Prelude.{◌≡◌, ◌&&◌, nat_lt};

use am_model::{are_credits_in_range, is_kind_in_range};
use am_names::{EndpointId, NodeId};
use am_office_entries::{Actor, Call, Event};
use am_scenario::{EndLine, Scenario};

/// Whether one of these lines declares an endpoint.
fn declares(lines: &[EndLine], end: EndpointId) -> bool
    ensures { result ≡ declares end lines.now }
{
    lines.iter().any(|line| end.0 == line.id.0)
}

/// Whether an endpoint is declared.
fn is_declared(scenario: &Scenario, end: EndpointId) -> bool
    ensures { result ≡ layouts.declared (layout_of scenario.now) end }
{
    declares(&scenario.ends, end)
}

/// Whether a thread is declared.
fn is_thread(scenario: &Scenario, thread: u8) -> bool
    ensures { result ≡ follows.is_thread scenario.now thread }
{
    scenario.threads.iter().any(|line| line.id == thread)
}

fn is_call_in_range(scenario: &Scenario, call: Call) -> bool
    ensures { result ≡ ranges.is_call_in_range (layout_of scenario.now) call }
{
    match call {
        Call::Map { name, credits, .. } => {
            is_declared(scenario, name) && are_credits_in_range(scenario.pool, credits)
        }
        Call::SetHandler { kind, .. } => is_kind_in_range(kind),
        _ => true,
    }
}

fn is_actor_in_range(actor: Actor) -> bool
    ensures { result ≡ ranges.is_actor_in_range actor }
{
    match actor {
        Actor::Thread(number) => number < 64,
        Actor::Outside => true,
    }
}

/// Whether an endpoint is declared, and a node is one of the scenario's.
fn is_seat(scenario: &Scenario, node: NodeId, end: EndpointId) -> bool
    ensures { result ≡ (layouts.declared (layout_of scenario.now) end && nat_lt node.0 scenario.now.nodes) }
{
    is_declared(scenario, end) && node.0 < scenario.nodes
}

fn are_nodes(scenario: &Scenario, node: NodeId, peer: NodeId) -> bool
    ensures { result ≡ (nat_lt node.0 scenario.now.nodes && nat_lt peer.0 scenario.now.nodes) }
{
    node.0 < scenario.nodes && peer.0 < scenario.nodes
}

/// Whether the numbers of an event are in range.
pub(crate) fn is_in_range(scenario: &Scenario, event: Event) -> bool
    ensures { result ≡ ranges.is_in_range (layout_of scenario.now) event }
{
    match event {
        Event::Call { actor, end, call } => {
            is_actor_in_range(actor)
                && is_declared(scenario, end)
                && is_call_in_range(scenario, call)
        }
        Event::Want { actor, end } => is_actor_in_range(actor) && is_declared(scenario, end),
        Event::Carry { end } => is_declared(scenario, end),
        Event::Expire {
            node,
            peer,
            channel,
        } => are_nodes(scenario, node, peer) && channel < scenario.channels,
        Event::Receive { node, peer, number } => are_nodes(scenario, node, peer) && 1 <= number,
        Event::Load { node, end, frame } => is_seat(scenario, node, end) && frame < scenario.frames,
        Event::Bind { node, end }
        | Event::Drain { node, end }
        | Event::Unload { node, end }
        | Event::PageOut { node, end }
        | Event::PageIn { node, end } => is_seat(scenario, node, end),
    }
}

fn may_call(scenario: &Scenario, actor: Actor, call: Call) -> bool
    ensures { result ≡ follows.may_call scenario.now actor call }
{
    match (actor, call) {
        (Actor::Thread(thread), _) => is_thread(scenario, thread),
        (Actor::Outside, Call::Poll) => true,
        (Actor::Outside, _) => false,
    }
}

fn may_want(scenario: &Scenario, actor: Actor) -> bool
    ensures { result ≡ follows.may_want scenario.now actor }
{
    match actor {
        Actor::Thread(thread) => is_thread(scenario, thread),
        Actor::Outside => false,
    }
}

/// Whether an event is one of a run.
pub(crate) fn is_of_run(scenario: &Scenario, event: Event) -> bool
    ensures { result ≡ follows.is_of_run scenario.now event }
{
    match event {
        Event::Call { actor, call, .. } => may_call(scenario, actor, call),
        Event::Want { actor, .. } => may_want(scenario, actor),
        Event::Carry { .. } => false,
        _ => true,
    }
}
