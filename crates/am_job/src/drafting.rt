//! The draft of a round: its nodes, endpoints and threads, and each call. Nothing speaks against any of them, so only memory can be wanting.

ghost use Rattle.std.specs.Prelude.{[], ◌≡◌, ◌*◌, ◌<◌, ◌≤◌, IfOk, None, OnOk, map};
ghost use Rattle.std.specs.List.{range_with_len};
ghost use Rattle.am_library_drafts.specs.declared.draft.DraftFault.TheVariants as Faults;
ghost use Rattle.am_library_drafts.specs.declared.draft.Setting.TheVariants.{Turns};
ghost use Rattle.am_library_drafts.specs.Drafts.{call_fault, end_fault, started, thread_fault, with_call, with_end, with_setting, with_thread};
ghost use Rattle.am_job.specs.Rounds.{end_line, scripted, thread_line};

use am_library_drafts::{Draft, DraftFault, Setting};
use am_names::{NoMemory, NodeId, Tag};
use am_scenario_types::ScriptCall;
use std::alloc::Global;

// The refusal of what nothing speaks against: memory is wanting.
fn only_memory(fault: DraftFault) -> NoMemory
    requires { fault ≡ Faults.NoMemory }
{
    match fault {
        DraftFault::NoMemory => NoMemory,
        _ => unreachable!(),
    }
}

fn start(alloc: Global, w: u8) -> Result<Draft, NoMemory>
    requires some { 0 < w }
    requires nodes { w ≤ 8 }
    ensures { IfOk result (λ draft. draft ≡ started w) }
{
    match Draft::new(alloc, w) {
        Ok(draft) => Ok(draft),
        Err(fault) => Err(only_memory(fault)),
    }
}

fn set_turns(draft: &mut Draft, turns: u32) -> Result<(), NoMemory>
    requires { turns ≤ 10000 }
    ensures { OnOk result (draft.new ≡ with_setting draft.old (Turns turns)) }
{
    match draft.set(Setting::Turns(turns)) {
        Ok(()) => Ok(()),
        Err(fault) => Err(only_memory(fault)),
    }
}

fn add_end(draft: &mut Draft, node: NodeId, tag: Tag) -> Result<(), NoMemory>
    requires { end_fault draft.now node ≡ None }
    ensures { OnOk result (draft.new ≡ with_end draft.old node tag) }
{
    match draft.endpoint(node, tag) {
        Ok(_) => Ok(()),
        Err(fault) => Err(only_memory(fault)),
    }
}

// Declares the endpoints of a round.
fn declare_ends(draft: &mut Draft, w: u8) -> Result<(), NoMemory>
    requires few { w ≤ 8 }
    requires nodes { draft.now.nodes ≡ w }
    requires none { draft.now.ends ≡ [] }
    ensures { OnOk result (draft.new ≡ record draft.old { ends = map end_line (range_with_len 0 (2 * w)) }) }
{
    for id in 0..2 * w {
        add_end(draft, NodeId(id / 2), Tag(100 + u64::from(id)))?;
    }
    Ok(())
}

fn add_thread(draft: &mut Draft, node: NodeId) -> Result<(), NoMemory>
    requires { thread_fault draft.now node ≡ None }
    ensures { OnOk result (draft.new ≡ with_thread draft.old node) }
{
    match draft.thread(node) {
        Ok(_) => Ok(()),
        Err(fault) => Err(only_memory(fault)),
    }
}

// Declares the threads of a round.
fn declare_threads(draft: &mut Draft, w: u8) -> Result<(), NoMemory>
    requires few { w ≤ 8 }
    requires nodes { draft.now.nodes ≡ w }
    requires none { draft.now.threads ≡ [] }
    ensures { OnOk result (draft.new ≡ record draft.old { threads = map thread_line (range_with_len 0 w) }) }
{
    for node in 0..w {
        add_thread(draft, NodeId(node))?;
    }
    Ok(())
}

/// A round of so many nodes and turns before its threads call anything.
pub fn declare(alloc: Global, w: u8, turns: u32) -> Result<Draft, NoMemory>
    requires some { 0 < w }
    requires nodes { w ≤ 8 }
    requires turns { turns ≤ 10000 }
    ensures { IfOk result (λ draft. draft ≡ scripted w turns []) }
{
    let mut draft = start(alloc, w)?;
    set_turns(&mut draft, turns)?;
    declare_ends(&mut draft, w)?;
    declare_threads(&mut draft, w)?;
    Ok(draft)
}

/// The next call of a thread.
pub fn add(draft: &mut Draft, made: ScriptCall) -> Result<(), NoMemory>
    requires { call_fault draft.now made ≡ None }
    ensures { OnOk result (draft.new ≡ with_call draft.old made) }
{
    match draft.call(made) {
        Ok(()) => Ok(()),
        Err(fault) => Err(only_memory(fault)),
    }
}
