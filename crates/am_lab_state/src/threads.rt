//! The lines of the threads.

ghost use Rattle.am_lab_state.specs.Threads.{all_threads, thread_by, thread_line};
ghost use Rattle.am_model_scripts.specs.Layout.{layout_of};
ghost use Rattle.am_model_scripts.specs.Scripts.{calls_of, is_of_thread};
ghost use Rattle.am_scenario_types.specs.Lawful.{IsLawful};
ghost use Rattle.am_scenario_types.specs.declared.parts.Network.TheVariants as Networks;
ghost use Rattle.am_scenario_types.specs.declared.parts.ThreadLine.{ThreadLine as Declared};
ghost use Rattle.std.specs.List.{flat_map};
ghost use Rattle.std.specs.Prelude.{◌≡◌, ◌++◌, OnOk, filter, length, map, slice_get};

use am_cluster_scripted::calls_made;
use am_machine::Cluster;
use am_names::NoMemory;
use am_office_entries::{Actor, Entry, Event, Outcome};
use am_office_text::LinePiece::Text;
use am_office_text::entry_lines::entry_line;
use am_office_text::{put_line, put_spaced, put_word, small};
use am_scenario::{Scenario, ScriptCall, ThreadLine};
use std::alloc::{AllocError, Global};

// The call of a thread with this place among its calls in a script, the first at 0.
fn call_at(script: &[ScriptCall], thread: u8, place: u32) -> Option<ScriptCall>
    ensures { result ≡ slice_get (filter (is_of_thread thread) script.now) place }
{
    let mut left = place;
    for call in script {
        if thread == call.thread {
            if left == 0 {
                return Some(*call);
            }
            left -= 1;
        }
    }
    None
}

fn put_done(out: &mut Vec<u8>, thread: u8) -> Result<(), AllocError>
    ensures { OnOk result (out.new.items ≡ out.old.items ++ thread_by thread None) }
{
    put_line(out, "thread", &[small(thread), Text("done")])
}

#[tactic(auto, using(std::proofs::Common::append_assoc))]
fn put_next(out: &mut Vec<u8>, thread: u8, call: ScriptCall) -> Result<(), NoMemory>
    ensures { OnOk result (out.new.items ≡ out.old.items ++ thread_by thread (Some call)) }
{
    put_word(out, Text("thread"))?;
    put_spaced(out, &[small(thread), Text("next")])?;
    put_word(out, Text(" "))?;
    let entry = Entry {
        stamp: 0,
        event: Event::Call {
            actor: Actor::Thread(call.thread),
            end: call.endpoint,
            call: call.call,
        },
        outcome: Outcome::Silent,
    };
    entry_line(&entry, out)
}

// Appends a thread that made so many calls.
fn put_thread(
    out: &mut Vec<u8>,
    script: &[ScriptCall],
    thread: u8,
    made: u32,
) -> Result<(), NoMemory>
    ensures { OnOk result (out.new.items ≡ out.old.items ++ thread_by thread (slice_get (filter (is_of_thread thread) script.now) made)) }
{
    match call_at(script, thread, made) {
        Some(call) => put_next(out, thread, call),
        None => {
            put_done(out, thread)?;
            Ok(())
        }
    }
}

/// Appends the threads of the packet network.
pub(crate) fn put_threads(
    out: &mut Vec<u8>,
    alloc: Global,
    cluster: &Cluster,
    scenario: &Scenario,
) -> Result<(), NoMemory>
    requires lawful { IsLawful scenario.now }
    requires layout { cluster.now.layout ≡ layout_of scenario.now }
    requires packet { scenario.now.network ≡ Networks.Packet }
    ensures { OnOk result (out.new.items ≡ out.old.items ++ all_threads scenario.now cluster.now.journal) }
{
    let made = calls_made(alloc, scenario, cluster)?;
    for index in 0..made.len() {
        put_thread(
            out,
            &scenario.script,
            scenario.threads[index].id,
            made[index],
        )?;
    }
    Ok(())
}
