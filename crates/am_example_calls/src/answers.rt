//! Remote calls in rounds: each round asks once more for what has no answer yet, under the same token.

ghost use Rattle.std.specs.Prelude.{◌≡◌, ◌∷◌, [], IfOk, List, OnOk, fold, length, replicate};
ghost use Rattle.std.specs.Thread.{IsSync};
ghost use Rattle.am_scenario_plan.specs.declared.plan.PlanLine.{PlanLine};
ghost use Rattle.am_library_drafts.specs.Drafts.{started};
ghost use Rattle.am_example_calls.specs.declared.answers.Answer.TheVariants.{NeverRan};
ghost use Rattle.am_example_calls.specs.Answers.{after_run, noted};
ghost use Rattle.am_example_calls.specs.Calls.{AreAnswered};
ghost use Rattle.am_example_calls.specs.Rounds.{Asks, AsksFor, IsSetUp, open_call};

use am_library::calls::{handler, map, poll, request, two_words};
use am_library::{
    Draft, DraftFault, RoundFault, Run, RunDraft, Runner, Setting, laws, runs_with_replies,
};
use am_names::{EndpointId, Message, NoMemory, Tag, Words};
use am_office_entries::HandlerKind;
use am_scenario_types::PlanLine;
use std::alloc::Global;
use std::thread::Threads;

const SERVER: EndpointId = EndpointId(0);

const CLIENT: EndpointId = EndpointId(1);

/// What became of a call.
#[derive(Clone, Copy)]
pub enum Answer {
    /// It ran, and these words came back.
    Heard(Words),
    /// It ran, and nothing came back.
    Unheard,
    /// It never ran.
    NeverRan,
}

// After a run of the call, with the reply that came of it.
fn after_run(answer: Answer, reply: Option<Message>) -> Answer
    ensures { result ≡ after_run answer reply }
{
    match (answer, reply) {
        (Answer::Heard(words), _) => Answer::Heard(words),
        (_, Some(reply)) => Answer::Heard(reply.words),
        (_, None) => Answer::Unheard,
    }
}

// What the runs of a round say. The first word of each is its call's token.
fn hear(answers: &mut [Answer], runs: &[Run])
    ensures { answers.new ≡ fold noted answers.old runs.now }
{
    for run in runs {
        let token = run.request.words.a as usize;
        if token < answers.len() {
            answers[token] = after_run(answers[token], run.reply);
        }
    }
}

// Thread 0 sets up the server, which echoes, and thread 1 the client, whose index 0 leads there.
fn set_up(draft: &mut Draft, plan: &[PlanLine]) -> Result<(), DraftFault>
    ensures { draft.old ≡ started 2 → OnOk result (IsSetUp plan.now draft.new) }
{
    draft.set(Setting::Tries(2))?;
    draft.set(Setting::Turns(1_000))?;
    draft.on_each_node(Tag(100))?;
    draft.plans(plan)?;
    draft.calls(&[
        handler(0, SERVER, 1, HandlerKind::Echo(1)),
        map(1, CLIENT, 0, SERVER, Tag(100), 8),
    ])?;
    Ok(())
}

// A call is asked for where it has no answer yet: the client asks and polls, and the server polls twice.
fn ask(draft: &mut Draft, call: Words, answer: Answer) -> Result<(), DraftFault>
    ensures { OnOk result (Asks (open_call call answer) draft.old draft.new) }
{
    laws::scripts_grow();
    match answer {
        Answer::Heard(_) => Ok(()),
        Answer::Unheard | Answer::NeverRan => draft.calls(&[
            request(1, CLIENT, 0, 1, call),
            poll(0, SERVER),
            poll(0, SERVER),
            poll(1, CLIENT),
        ]),
    }
}

// All calls.
fn ask_all(draft: &mut Draft, arguments: &[u64], answers: &[Answer]) -> Result<(), DraftFault>
    requires as_many { length answers.now ≡ length arguments.now }
    ensures { (plan : List PlanLine) → IsSetUp plan draft.old → OnOk result (AsksFor arguments.now answers.now plan (length arguments.now) draft.new) }
{
    for token in 0..arguments.len() {
        let call = two_words(token as u64, arguments[token]);
        ask(draft, call, answers[token])?;
    }
    Ok(())
}

fn none_ran(alloc: Global, count: usize) -> Result<Vec<Answer>, NoMemory>
    ensures { IfOk result (λ answers. answers.items ≡ replicate count NeverRan) }
{
    Ok(vec![in alloc; Answer::NeverRan; count]?)
}

/// What becomes of calls, each of which asks one number of a server that gives it back, in a round for each plan. What has no answer after
/// a round is asked again in the next, under the same token, which is its place among the calls.
pub fn answers_to<R: Runner, T: Threads + Sync>(
    runner: &R,
    rt: &T,
    alloc: Global,
    arguments: &[u64],
    plans: &[Vec<PlanLine>],
) -> Result<Vec<Answer>, RoundFault>
    requires { IsSync T.row }
    ensures { IfOk result (λ answers. AreAnswered arguments.now plans.now answers.items) }
{
    laws::all_run_where_they_lead();
    laws::each_asked_has_its_end();
    laws::each_reply_has_its_end();
    laws::echoes_are_words();
    laws::what_ran_was_asked_for();
    let mut answers = none_ran(alloc, arguments.len())?;
    for plan in plans {
        let mut draft = Draft::new(alloc, 2)?;
        set_up(&mut draft, plan)?;
        ask_all(&mut draft, arguments, &answers)?;
        let finished = draft.run(runner, rt, alloc)?;
        let journal = finished.journal.logged(alloc)?;
        let runs = runs_with_replies(alloc, &journal, SERVER)?;
        hear(&mut answers, &runs);
    }
    Ok(answers)
}
