//! The calls of the generated threads.

ghost use Rattle.std.specs.Prelude.{◌≡◌, ◌++◌, ◌<◌, IfOk};
ghost use Rattle.am_scenario_generator.specs.Words.{steps, after_threads};
ghost use Rattle.am_scenario_generator.specs.Calls.{call_on, map_to, greeting, greetings, polls, opening, drawn_end, drawn_call, drawn_calls, thread_calls, script_below};

use am_names::{EndpointId, Tag, Words};
use am_office_entries::{Call, HandlerKind};
use am_scenario_types::ScriptCall;
use rand_core::utils::NextWord;
use rand_pcg::Lcg64Xsh32;
use std::alloc::{AllocError, Global};

fn call_on(thread: u8, end: u8, call: Call) -> ScriptCall
    ensures { result ≡ call_on thread end call }
{
    ScriptCall {
        thread,
        endpoint: EndpointId(end),
        call,
    }
}

fn map_to(index: u8, name: u8) -> Call
    requires { name < 12 }
    ensures { result ≡ map_to index name }
{
    Call::Map {
        index,
        name: EndpointId(name),
        tag: Tag(100 + u64::from(name)),
        credits: 8,
    }
}

// The six calls with which a thread prepares an endpoint.
#[tactic(auto, unfolding(crate::specs::Calls::greeting))]
fn greet(script: &mut Vec<ScriptCall>, thread: u8, end: u8) -> Result<(), AllocError>
    requires { end < 12 }
    ensures { IfOk result (λ _. script.new.items ≡ script.old.items ++ greeting thread end) }
{
    let note = Call::SetHandler {
        index: 1,
        kind: HandlerKind::Note,
    };
    let echo = Call::SetHandler {
        index: 2,
        kind: HandlerKind::Echo(1),
    };
    let add = Call::SetHandler {
        index: 3,
        kind: HandlerKind::Add(1),
    };
    script.extend_from_slice(&[
        call_on(thread, end, note),
        call_on(thread, end, echo),
        call_on(thread, end, add),
        call_on(thread, end, map_to(0, (end + 1) % 12)),
        call_on(thread, end, map_to(1, (end + 5) % 12)),
        call_on(thread, end, Call::Poll),
    ])
}

fn poll_often(
    script: &mut Vec<ScriptCall>,
    thread: u8,
    end: u8,
    times: u8,
) -> Result<(), AllocError>
    ensures { IfOk result (λ _. script.new.items ≡ script.old.items ++ polls thread end times) }
{
    for _poll in 0..times {
        script.push(call_on(thread, end, Call::Poll))?;
    }
    Ok(())
}

// The calls with which a thread prepares the three endpoints of its node.
#[tactic(auto, using(std::proofs::Common::append_assoc))]
fn greet_all(script: &mut Vec<ScriptCall>, thread: u8) -> Result<(), AllocError>
    requires { thread < 4 }
    ensures { IfOk result (λ _. script.new.items ≡ script.old.items ++ greetings thread) }
{
    greet(script, thread, thread)?;
    greet(script, thread, thread + 4)?;
    greet(script, thread, thread + 8)?;
    Ok(())
}

// The calls with which a thread begins.
#[tactic(auto, unfolding(crate::specs::Calls::opening))]
fn open(script: &mut Vec<ScriptCall>, thread: u8) -> Result<(), AllocError>
    requires { thread < 8 }
    ensures { IfOk result (λ _. script.new.items ≡ script.old.items ++ opening thread) }
{
    if thread < 4 {
        greet_all(script, thread)
    } else {
        poll_often(script, thread, thread - 4, 18)
    }
}

fn drawn_end(thread: u8, word: u32) -> u8
    requires { thread < 8 }
    ensures { result ≡ drawn_end thread word }
{
    thread % 4 + 4 * (word / 4 % 3) as u8
}

// The call that a word gives.
#[tactic(auto, unfolding(crate::specs::Calls::drawn_call))]
fn drawn_call(thread: u8, place: u8, word: u32) -> ScriptCall
    requires { thread < 8 }
    ensures { result ≡ drawn_call thread place word }
{
    let end = drawn_end(thread, word);
    if word % 4 < 2 {
        let request = Call::Request {
            index: (word / 16 % 2) as u8,
            handler: 1 + (word / 32 % 3) as u8,
            words: Words {
                a: u64::from(word),
                b: u64::from(thread),
                c: u64::from(place),
                d: 0,
            },
        };
        call_on(thread, end, request)
    } else {
        call_on(thread, end, Call::Poll)
    }
}

fn draw(
    rng: &mut Lcg64Xsh32,
    script: &mut Vec<ScriptCall>,
    thread: u8,
    times: u8,
) -> Result<(), AllocError>
    requires { thread < 8 }
    ensures calls { IfOk result (λ _. script.new.items ≡ script.old.items ++ drawn_calls rng.old thread times) }
    ensures words { IfOk result (λ _. rng.new ≡ steps rng.old times) }
{
    for place in 0..times {
        let word = rng.next_word();
        script.push(drawn_call(thread, place, word))?;
    }
    Ok(())
}

// All calls of a thread.
#[tactic(auto, unfolding(crate::specs::Calls::thread_calls))]
fn call_all(
    rng: &mut Lcg64Xsh32,
    script: &mut Vec<ScriptCall>,
    thread: u8,
) -> Result<(), AllocError>
    requires { thread < 8 }
    ensures calls { IfOk result (λ _. script.new.items ≡ script.old.items ++ thread_calls rng.old thread) }
    ensures words { IfOk result (λ _. rng.new ≡ steps rng.old 200) }
{
    open(script, thread)?;
    draw(rng, script, thread, 200)
}

/// The script, thread by thread.
#[tactic(auto, using(crate::proofs::Drawn::script_more, crate::proofs::Drawn::script_none, crate::proofs::Drawn::threads_more, crate::proofs::Drawn::threads_none))]
pub fn make_script(alloc: Global, rng: &mut Lcg64Xsh32) -> Result<Vec<ScriptCall>, AllocError>
    ensures calls { IfOk result (λ script. script.items ≡ script_below rng.old 8) }
    ensures words { IfOk result (λ _. rng.new ≡ after_threads rng.old 8) }
{
    let mut script = Vec::with_capacity(alloc, 1_744)?;
    for thread in 0..8 {
        call_all(rng, &mut script, thread)?;
    }
    Ok(script)
}
