//! The lines of threads.

ghost use Rattle.am_lexer.specs.Text.{words_of};
ghost use Rattle.am_lexer.specs.Fields.{Gives};
ghost use Rattle.am_scenario.specs.Drafts.Drafts.{said};
ghost use Rattle.am_scenario.specs.Lines.Script.{bundled, poll_bundle_line, test_bundle_line, thread_call_line, script_line};
ghost use Rattle.am_scenario.specs.Lines.Answers.{Yields};

use crate::drafts::{Calls, Draft, Line, LineFault};
use crate::lines::calls::take_call;
use crate::lines::keyword::is_word;
use crate::lines::lined::lined;
use crate::lines::places::take_bundle;
use am_lexer::{What, take_end, take_word};
use am_names::EndpointId;
use am_office_entries::Call;
use am_scenario_types::{ScriptCall, ThreadLine};
use std::alloc::Global;

const MOST_CALLS: usize = 16_384;

// A bundle's calls by a thread, where there is room for them.
#[tactic(auto, unfolding(crate::specs::Lines::Script::bundled))]
fn bundled(draft: &Draft, thread: u8, list: Vec<(EndpointId, Call)>) -> Result<Line, What>
    ensures { Gives (λ line. line) result (bundled (said draft.now) thread list.items) }
{
    if draft.script.len() + list.len() <= MOST_CALLS {
        let calls = Calls { list };
        Ok(Line::Calls { thread, calls })
    } else {
        Err(What::TooMany)
    }
}

#[tactic(auto, unfolding(crate::specs::Lines::Script::poll_bundle_line))]
fn poll_bundle_line(
    alloc: Global,
    draft: &Draft,
    thread: ThreadLine,
    rest: &[u8],
) -> Result<Line, LineFault>
    ensures { Yields (λ line. line) result (poll_bundle_line (said draft.now) thread (words_of rest.now)) }
{
    let (bundle, rest) = take_bundle(draft, thread.node, rest)?;
    take_end(rest)?;
    let calls = bundle.poll_calls(alloc)?;
    lined(bundled(draft, thread.id, calls))
}

#[tactic(auto, unfolding(crate::specs::Lines::Script::test_bundle_line))]
fn test_bundle_line(
    alloc: Global,
    draft: &Draft,
    thread: ThreadLine,
    rest: &[u8],
) -> Result<Line, LineFault>
    ensures { Yields (λ line. line) result (test_bundle_line (said draft.now) thread (words_of rest.now)) }
{
    let (bundle, rest) = take_bundle(draft, thread.node, rest)?;
    take_end(rest)?;
    let calls = bundle.test_calls(alloc)?;
    lined(bundled(draft, thread.id, calls))
}

#[tactic(auto, unfolding(crate::specs::Lines::Script::thread_call_line))]
fn thread_call_line(
    draft: &Draft,
    thread: ThreadLine,
    verb: &[u8],
    rest: &[u8],
) -> Result<Line, What>
    ensures { Gives (λ line. line) result (thread_call_line (said draft.now) thread verb.now (words_of rest.now)) }
{
    let ((endpoint, call), rest) = take_call(draft, Some(thread.node), verb, rest)?;
    take_end(rest)?;
    if draft.script.len() < MOST_CALLS {
        Ok(Line::Call(ScriptCall {
            thread: thread.id,
            endpoint,
            call,
        }))
    } else {
        Err(What::TooMany)
    }
}

/// A line of a thread's script, behind its first word, or its first fault. `NoMemory` comes only for want of memory.
#[tactic(auto, unfolding(crate::specs::Lines::Script::script_line))]
pub fn script_line(
    alloc: Global,
    draft: &Draft,
    number: u64,
    rest: &[u8],
) -> Result<Line, LineFault>
    ensures { Yields (λ line. line) result (script_line (said draft.now) number (words_of rest.now)) }
{
    let Some(thread) = draft.thread_of(number) else {
        return Err(LineFault::What(What::Undeclared));
    };
    let (verb, rest) = take_word(rest)?;
    if is_word(verb, b"pollb".as_slice()) {
        poll_bundle_line(alloc, draft, thread, rest)
    } else if is_word(verb, b"eventb".as_slice()) {
        test_bundle_line(alloc, draft, thread, rest)
    } else {
        lined(thread_call_line(draft, thread, verb, rest))
    }
}
