//! The events that might come next.

ghost use Rattle.am_lab_reasons.specs.Due.Choices.{call_line, choices, next_call, next_packet, next_packets};
ghost use Rattle.am_scenario_types.specs.declared.parts.Form.TheVariants.{Run};
ghost use Rattle.am_scenario_types.specs.declared.parts.ThreadLine.{ThreadLine};
ghost use Rattle.am_model_scripts.specs.Follows.{is_thread};
ghost use Rattle.am_model_scripts.specs.Links.{nodes_of};
ghost use Rattle.std.specs.List.{flat_map, AllByRecursion};
ghost use Rattle.std.specs.Prelude.{◌≡◌, ◌<◌, ◌++◌, OnOk, true};

use crate::due::texts::put_next;
use am_cluster_drainer::Drainable;
use am_cluster_scripted::ScriptedCluster;
use am_names::{NoMemory, NodeId};
use am_office_entries::{Actor, Event};
use am_scenario::{ScriptCall, ThreadLine};

fn put_call(out: &mut Vec<u8>, call: Option<ScriptCall>) -> Result<(), NoMemory>
    ensures { OnOk result (out.new.items ≡ out.old.items ++ call_line call) }
{
    match call {
        Some(call) => put_next(
            out,
            Event::Call {
                actor: Actor::Thread(call.thread),
                end: call.endpoint,
                call: call.call,
            },
        ),
        None => Ok(()),
    }
}

// Appends the next call of each of these threads.
fn put_calls(
    out: &mut Vec<u8>,
    run: &ScriptedCluster,
    threads: &[ThreadLine],
) -> Result<(), NoMemory>
    requires { AllByRecursion (λ (t : ThreadLine). is_thread run.now.scenario t.id ≡ true) threads.now }
    ensures { OnOk result (out.new.items ≡ out.old.items ++ flat_map (next_call run.now.scenario run.now.journal) threads.now) }
{
    for thread in threads {
        put_call(out, run.next_call(thread.id))?;
    }
    Ok(())
}

// Appends the receipt of the next packet at a node from a peer.
fn put_packet(
    out: &mut Vec<u8>,
    run: &ScriptedCluster,
    node: NodeId,
    peer: NodeId,
) -> Result<(), NoMemory>
    requires node { node.0 < run.now.scenario.nodes }
    requires peer { peer.0 < run.now.scenario.nodes }
    ensures { OnOk result (out.new.items ≡ out.old.items ++ next_packet run.now.scenario run.now.journal node peer) }
{
    match run.due(node, peer) {
        Some(number) => put_next(out, Event::Receive { node, peer, number }),
        None => Ok(()),
    }
}

// Appends the receipt of the next packet at a node from each peer.
fn put_packets_at(
    out: &mut Vec<u8>,
    run: &ScriptedCluster,
    nodes: u8,
    node: NodeId,
) -> Result<(), NoMemory>
    requires nodes { nodes ≡ run.now.scenario.nodes }
    requires node { node.0 < run.now.scenario.nodes }
    ensures { OnOk result (out.new.items ≡ out.old.items ++ next_packets run.now.scenario run.now.journal node) }
{
    for peer in 0..nodes {
        put_packet(out, run, node, NodeId(peer))?;
    }
    Ok(())
}

// Appends the receipt of the next packet of each link.
fn put_packets(out: &mut Vec<u8>, run: &ScriptedCluster, nodes: u8) -> Result<(), NoMemory>
    requires nodes { nodes ≡ run.now.scenario.nodes }
    ensures { OnOk result (out.new.items ≡ out.old.items ++ flat_map (next_packets run.now.scenario run.now.journal) (nodes_of run.now.scenario)) }
{
    for node in 0..nodes {
        put_packets_at(out, run, nodes, NodeId(node))?;
    }
    Ok(())
}

/// Appends the events that might come next in a run.
#[tactic(auto, using(std::proofs::Common::append_assoc))]
pub(crate) fn put_choices(out: &mut Vec<u8>, run: &ScriptedCluster) -> Result<(), NoMemory>
    ensures { OnOk result (out.new.items ≡ out.old.items ++ choices Run run.now.scenario run.now.journal) }
{
    let scenario = run.scenario();
    put_calls(out, run, &scenario.threads)?;
    put_packets(out, run, scenario.nodes)
}
