//! The threads of a node, and their scripts.

ghost use Rattle.am_names.specs.Names.{same_node};
ghost use Rattle.am_cluster_opening.specs.Node.Openings.{thread_ids};
ghost use Rattle.am_model_scripts.specs.Scripts.{is_of_thread};
ghost use Rattle.std.specs.Prelude.{◌≡◌, IfOk, filter};

use am_names::{NoMemory, NodeId};
use am_scenario_types::{ScriptCall, ThreadLine};
use std::alloc::Global;

/// Whether the thread is declared on the node.
fn is_on(line: ThreadLine, node: NodeId) -> bool
    ensures { result ≡ same_node node line.node }
{
    node.0 == line.node.0
}

/// The numbers of the threads that are declared on the node, in order.
#[tactic(auto, using(crate::proofs::Kept::ids_in, crate::proofs::Kept::ids_out))]
pub(crate) fn thread_ids(
    alloc: Global,
    lines: &[ThreadLine],
    node: NodeId,
) -> Result<Vec<u8>, NoMemory>
    ensures { IfOk result (λ ids. ids.items ≡ thread_ids lines.now node) }
{
    let mut ids = Vec::new(alloc);
    for line in lines {
        if is_on(*line, node) {
            ids.push(line.id)?;
        }
    }
    Ok(ids)
}

/// Whether it is a call of the thread.
fn is_of_thread(call: ScriptCall, thread: u8) -> bool
    ensures { result ≡ is_of_thread thread call }
{
    thread == call.thread
}

/// The calls of a thread among these, in order. `NoMemory` comes only where there is none for the copy.
#[tactic(auto, using(crate::proofs::Kept::calls_in, crate::proofs::Kept::calls_out))]
pub fn calls_of(
    alloc: Global,
    script: &[ScriptCall],
    thread: u8,
) -> Result<Vec<ScriptCall>, NoMemory>
    ensures { IfOk result (λ calls. calls.items ≡ filter (is_of_thread thread) script.now) }
{
    let mut calls = Vec::new(alloc);
    for call in script {
        if is_of_thread(*call, thread) {
            calls.push(*call)?;
        }
    }
    Ok(calls)
}
