//! Sums over nodes, in rounds: what was refused or came back never ran, and is sent again. Node 0 has the root, endpoint 0, and node n the
//! endpoint n + 1 and the thread n.

ghost use Rattle.std.specs.Prelude.{◌≡◌, ◌∷◌, ◌++◌, [], IfOk, List, OnOk, map};
ghost use Rattle.std.specs.List.{range_with_len};
ghost use Rattle.std.specs.Thread.{IsSync};
ghost use Rattle.am_names.specs.declared.Words.{Words};
ghost use Rattle.am_scenario_plan.specs.declared.plan.PlanLine.{PlanLine};
ghost use Rattle.am_example_reduce.specs.Rounds.{Asks, SendsSum};
ghost use Rattle.am_example_reduce.specs.Sums.{IsReduced, heard_by};

use am_library::calls::{handler, map, poll, request, two_words};
use am_library::{
    Draft, DraftFault, Finished, RoundFault, RoundSum, RunDraft, Runner, Setting, first_word_at,
    laws,
};
use am_names::{EndpointId, NoMemory, NodeId, Tag, Words};
use am_office_entries::HandlerKind;
use am_scenario_types::PlanLine;
use std::alloc::Global;
use std::thread::Threads;

const ROOT: EndpointId = EndpointId(0);

const TAG: Tag = Tag(1);

/// A sum over nodes. Of each number the first word is the number, the second its node.
#[derive(Drop)]
pub enum Reduced {
    /// Of all numbers, and what each node heard, in the order of the nodes.
    Whole { sum: u64, notes: Vec<Option<u64>> },
    /// Of all numbers but those that are left or unknown, of which there is one at least.
    Open(RoundSum),
}

// The nodes with their endpoints and threads, under a plan.
fn planned(alloc: Global, nodes: u8, plan: &[PlanLine]) -> Result<Draft, DraftFault>
    ensures { IfOk result (λ draft. (draft.script ≡ []) × (draft.plan ≡ plan.now)) }
{
    let mut draft = Draft::new(alloc, nodes)?;
    draft.set(Setting::Turns(40))?;
    draft.endpoint(NodeId(0), TAG)?;
    draft.on_each_node(TAG)?;
    draft.plans(plan)?;
    Ok(draft)
}

// A number's node sends it to the root.
fn send(draft: &mut Draft, words: Words) -> Result<(), DraftFault>
    ensures { (plan : List PlanLine) (numbers : List Words) → Asks plan numbers draft.old → OnOk result (Asks plan (numbers ++ words ∷ []) draft.new) }
{
    laws::scripts_grow();
    let node = match u8::try_from(words.b) {
        Ok(node) if node < 16 => node,
        _ => return Err(DraftFault::NoNode),
    };
    let end = EndpointId(node + 1);
    draft.calls(&[
        map(node, end, 0, ROOT, TAG, 1),
        request(node, end, 0, 1, words),
        poll(0, ROOT),
        poll(node, end),
    ])
}

// Each number is sent to the root, which adds it.
fn ask(draft: &mut Draft, numbers: &[Words]) -> Result<(), DraftFault>
    ensures { (plan : List PlanLine) → draft.old.script ≡ [] → draft.old.plan ≡ plan → OnOk result (Asks plan numbers.now draft.new) }
{
    draft.handler(0, ROOT, 1, HandlerKind::Add(1))?;
    for words in numbers {
        send(draft, *words)?;
    }
    Ok(())
}

// The root sends the sum to each node.
fn tell(draft: &mut Draft, nodes: u8, sum: u64) -> Result<(), DraftFault>
    ensures { (plan : List PlanLine) → draft.old.script ≡ [] → draft.old.plan ≡ plan → OnOk result (SendsSum plan sum draft.new) }
{
    laws::scripts_grow();
    for node in 0..nodes {
        let end = EndpointId(node + 1);
        draft.calls(&[
            handler(node, end, 1, HandlerKind::Note),
            map(0, ROOT, node, end, TAG, 1),
            request(0, ROOT, node, 1, two_words(sum, 0)),
            poll(node, end),
        ])?;
    }
    Ok(())
}

// What each node heard.
#[tactic(auto, using(am_lemmas::proofs::Numbered::lines_more))]
fn heard(alloc: Global, nodes: u8, finished: &Finished) -> Result<Vec<Option<u64>>, NoMemory>
    ensures { IfOk result (λ notes. notes.items ≡ map (heard_by finished.now.journal) (range_with_len 0 nodes)) }
{
    let journal = finished.journal.logged(alloc)?;
    let mut notes = Vec::new(alloc);
    for node in 0..nodes {
        notes.push(first_word_at(&journal, EndpointId(node + 1)))?;
    }
    Ok(notes)
}

/// The sum of the numbers of 1 to 16 nodes at one endpoint, and what each node hears of it, under any plan and by any runner.
pub fn reduce<R: Runner, T: Threads + Sync>(
    rt: &T,
    runner: &R,
    alloc: Global,
    nodes: u8,
    plan: &[PlanLine],
    numbers: &[Words],
) -> Result<Reduced, RoundFault>
    requires shared { IsSync T.row }
    ensures { IfOk result (IsReduced plan.now nodes numbers.now) }
{
    laws::each_request_has_its_end();
    laws::all_run_where_they_lead();
    laws::sums_are_of_runs();
    laws::nothing_is_unknown();
    laws::what_ran_was_asked_for();
    let mut summed = RoundSum::begin(alloc, numbers)?;
    for _round in 0..4u8 {
        if !summed.left.is_empty() {
            let mut draft = planned(alloc, nodes, plan)?;
            ask(&mut draft, &summed.left)?;
            let finished = draft.run(runner, rt, alloc)?;
            let journal = finished.journal.logged(alloc)?;
            summed = summed.after(alloc, &journal, ROOT)?;
        }
    }
    if !summed.is_whole() {
        return Ok(Reduced::Open(summed));
    }
    let sum = summed.sum;
    let mut draft = planned(alloc, nodes, plan)?;
    tell(&mut draft, nodes, sum)?;
    let finished = draft.run(runner, rt, alloc)?;
    let notes = heard(alloc, nodes, &finished)?;
    Ok(Reduced::Whole { sum, notes })
}
