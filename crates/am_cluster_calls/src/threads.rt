//! What each thread is still to call.

ghost use Rattle.am_office_entries.specs.Logged.Behind.{entries_behind};
ghost use Rattle.am_cluster_calls.specs.Threads.{AreDistinct, AreSmall, HasThread, IsSmallAt, begun_by, call_in, fewer_of, found_in, left_in, made_in, next_in, scripted_in, scripted_of, with_call, with_call_at, with_call_if, with_line, with_line_at};
ghost use Rattle.am_cluster_drainer.specs.Firsts.{IsFewest};
ghost use Rattle.am_cluster_drainer.specs.Reads.{left_of};
ghost use Rattle.am_scenario_types.specs.Lawful.{IsLawful};
ghost use Rattle.am_model_scripts.specs.Scripts.{call_made};
ghost use Rattle.std.specs.Prelude.{◌≡◌, ◌==◌, ◌+◌, ◌*◌, ◌≤◌, ◌<◌, ◌^◌, [], IfOk, OnOk, length, map, option_map, vec_len};

use am_cluster_drainer::LeftCall;
use am_office_entries::{Actor, Entry, Event, NoMemory, growth};
use am_scenario_types::{Scenario, ScriptCall};
use std::alloc::Global;

/// A thread with its script, and how many calls of it were made.
#[derive(Drop)]
pub struct ThreadScript {
    pub id: u8,
    pub calls: Vec<ScriptCall>,
    pub made: u32,
}

/// The threads of a scenario without their scripts.
fn bare_threads(alloc: Global, scenario: &Scenario) -> Result<Vec<ThreadScript>, NoMemory>
    ensures { IfOk result (λ threads. map scripted_in threads.items ≡ map (begun_by []) scenario.now.threads) }
{
    let mut threads = Vec::with_capacity(alloc, scenario.threads.len())?;
    for line in &scenario.threads {
        threads.push(ThreadScript {
            id: line.id,
            calls: Vec::new(alloc),
            made: 0,
        })?;
    }
    Ok(threads)
}

/// One call more in the script of a thread, where it is of this thread.
fn add_on(thread: &mut ThreadScript, call: ScriptCall) -> Result<(), NoMemory>
    ensures { OnOk result (scripted_in thread.new ≡ with_line call (scripted_in thread.old)) }
{
    if thread.id == call.thread {
        thread.calls.reserve(growth(&thread.calls))?;
        thread.calls.push_reserved(call);
    }
    Ok(())
}

/// One call more in the script of the thread at a place, where it is of that thread.
fn add_at(threads: &mut Vec<ThreadScript>, index: usize, call: ScriptCall) -> Result<(), NoMemory>
    requires { index < length threads.old.items }
    ensures { OnOk result (map scripted_in threads.new.items ≡ with_line_at index call (map scripted_in threads.old.items)) }
{
    add_on(&mut threads[index], call)
}

/// One call more in the script of the thread whose it is.
fn add_call(threads: &mut Vec<ThreadScript>, call: ScriptCall) -> Result<(), NoMemory>
    requires { AreDistinct (map scripted_in threads.old.items) }
    ensures { OnOk result (map scripted_in threads.new.items ≡ map (with_line call) (map scripted_in threads.old.items)) }
{
    match place_of(threads, call.thread) {
        Some(place) => add_at(threads, place, call),
        None => Ok(()),
    }
}

/// The threads of a scenario before they made a call.
pub fn all_scripts(alloc: Global, scenario: &Scenario) -> Result<Vec<ThreadScript>, NoMemory>
    requires { IsLawful scenario.now }
    ensures { IfOk result (λ threads. map scripted_in threads.items ≡ map (scripted_of scenario.now []) scenario.now.threads) }
{
    let mut threads = bare_threads(alloc, scenario)?;
    for call in &scenario.script {
        add_call(&mut threads, *call)?;
    }
    Ok(threads)
}

/// The call that is left to a thread, and how many it made.
pub(crate) fn left_to(thread: &ThreadScript) -> Option<LeftCall>
    ensures { option_map left_of result ≡ left_in (scripted_in thread.now) }
{
    match thread.calls.get(thread.made as usize).copied() {
        Some(call) => Some(LeftCall {
            after: thread.made,
            call,
        }),
        None => None,
    }
}

/// What is left to the thread that made fewer calls, or to the first one. A call is read only of a thread that made fewer.
#[tactic(auto, using(crate::proofs::Fewest::fewer_kept, crate::proofs::Fewest::fewer_left))]
fn fewer(best: Option<LeftCall>, thread: &ThreadScript) -> Option<LeftCall>
    ensures { option_map left_of result ≡ fewer_of (option_map left_of best) (left_in (scripted_in thread.now)) }
{
    let Some(first) = best else {
        return left_to(thread);
    };
    if first.after <= thread.made {
        return best;
    }
    match left_to(thread) {
        Some(left) => Some(left),
        None => best,
    }
}

/// What is left to the thread that made the fewest calls, the least among equals.
pub(crate) fn fewest(threads: &[ThreadScript]) -> Option<LeftCall>
    ensures { IsFewest left_in (map scripted_in threads.now) (option_map left_of result) }
{
    let mut best = None;
    let count = threads.len();
    for index in 0..count {
        best = fewer(best, &threads[index]);
    }
    best
}

/// The call that comes next in a script, if one is left.
fn call_in(script: &ThreadScript) -> Option<ScriptCall>
    ensures { result ≡ call_in (scripted_in script.now) }
{
    script.calls.get(script.made as usize).copied()
}

/// What comes next in the script of the thread with this number, if there is such a thread.
fn found_in(threads: &[ThreadScript], thread: u8) -> Option<Option<ScriptCall>>
    ensures { result ≡ found_in thread threads.now }
{
    match threads.iter().find(|script| script.id == thread) {
        Some(script) => Some(call_in(script)),
        None => None,
    }
}

/// The next call of the thread with this number, if there is such a thread and a call is left to it.
pub fn next_call(threads: &[ThreadScript], thread: u8) -> Option<ScriptCall>
    ensures { result ≡ next_in thread threads.now }
{
    match found_in(threads, thread) {
        Some(call) => call,
        None => None,
    }
}

/// One call more, where it is of this thread.
fn count_on(thread: &mut ThreadScript, call: ScriptCall)
    requires { thread.old.made + 1 < 2 ^ 32 }
    ensures { scripted_in thread.new ≡ with_call call (scripted_in thread.old) }
{
    if thread.id == call.thread {
        thread.made += 1;
    }
}

/// The call of a thread that an event is, if it is one.
fn call_made(event: &Event) -> Option<ScriptCall>
    ensures { result ≡ call_made event.now }
{
    match *event {
        Event::Call {
            actor: Actor::Thread(thread),
            end,
            call,
        } => Some(ScriptCall {
            thread,
            endpoint: end,
            call,
        }),
        _ => None,
    }
}

/// One call more on the thread at a place, where it is of that thread.
fn count_at(threads: &mut Vec<ThreadScript>, index: usize, call: ScriptCall)
    requires within { index < length threads.old.items }
    requires small { IsSmallAt (map scripted_in threads.old.items) index }
    ensures len { vec_len threads.new ≡ vec_len threads.old }
    ensures here { map scripted_in threads.new.items ≡ with_call_at index call (map scripted_in threads.old.items) }
{
    count_on(&mut threads[index], call);
}

/// Whether a thread has this number.
fn has_id(thread: &ThreadScript, id: u8) -> bool
    ensures { result ≡ (thread.now.id == id) }
{
    thread.id == id
}

/// The place of the thread with this number, by a look at each.
fn searched(threads: &[ThreadScript], id: u8) -> Option<usize>
    ensures { HasThread threads.now id result }
{
    let count = threads.len();
    for index in 0..count {
        if has_id(&threads[index], id) {
            return Some(index);
        }
    }
    None
}

/// The place of the thread with this number, mostly that of its number.
fn place_of(threads: &[ThreadScript], id: u8) -> Option<usize>
    ensures { HasThread threads.now id result }
{
    let place = id as usize;
    if place < threads.len() && has_id(&threads[place], id) {
        return Some(place);
    }
    searched(threads, id)
}

/// One call more on the thread whose it is.
fn count_call(threads: &mut Vec<ThreadScript>, call: ScriptCall)
    requires small { AreSmall (map scripted_in threads.old.items) }
    requires distinct { AreDistinct (map scripted_in threads.old.items) }
    ensures { map scripted_in threads.new.items ≡ map (with_call call) (map scripted_in threads.old.items) }
{
    match place_of(threads, call.thread) {
        Some(place) => count_at(threads, place, call),
        None => {}
    }
}

/// One call more on the thread whose it is, where the event is a call of a thread.
pub fn count_event(threads: &mut Vec<ThreadScript>, event: &Event)
    requires small { AreSmall (map scripted_in threads.old.items) }
    requires distinct { AreDistinct (map scripted_in threads.old.items) }
    ensures { map scripted_in threads.new.items ≡ map (with_call_if (call_made event.now)) (map scripted_in threads.old.items) }
{
    match call_made(event) {
        Some(call) => count_call(threads, call),
        None => {}
    }
}

/// The threads after the entries of a journal that is short.
pub fn scripts_after(
    alloc: Global,
    scenario: &Scenario,
    entries: &[&Entry],
) -> Result<Vec<ThreadScript>, NoMemory>
    requires lawful { IsLawful scenario.now }
    requires short { length (entries_behind entries.now) ≤ 272 * scenario.now.log }
    ensures { IfOk result (λ threads. map scripted_in threads.items ≡ map (scripted_of scenario.now (entries_behind entries.now)) scenario.now.threads) }
{
    let mut threads = all_scripts(alloc, scenario)?;
    for entry in entries {
        count_event(&mut threads, &entry.event);
    }
    Ok(threads)
}

/// Tells how many calls each thread made.
pub fn tell_made(threads: &[ThreadScript], made: &mut [u32])
    requires { length made.old ≡ length threads.now }
    ensures { made.new ≡ map made_in threads.now }
{
    let count = threads.len();
    for index in 0..count {
        made[index] = threads[index].made;
    }
}
