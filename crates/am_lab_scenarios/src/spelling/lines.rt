//! The lines of a scenario's text, each appended to what was there.

ghost use Rattle.std.specs.Prelude.{◌≡◌, ◌++◌, OnOk};
ghost use Rattle.am_office_text.specs.Words.{spaced};
ghost use Rattle.am_lab_scenarios.specs.Spelling.Texts as text;

use am_names::{EndpointId, NoMemory};
use am_office_entries::{Actor, Entry, Event, Outcome};
use am_office_text::LinePiece::{Number, Tag, Text};
use am_office_text::entry_lines::{entry_line, mask_word};
use am_office_text::{count, put_end, put_line, put_spaced, put_word, small};
use am_scenario_types::{
    Bundle, EndLine, FaultLine, LinkFault, Network, PlanLine, ScriptCall, StepLine, ThreadLine,
};
use std::alloc::AllocError;

#[tactic(auto, unfolding(crate::specs::Spelling::Texts::network_word))]
pub fn network_word(network: Network) -> &'static str
    ensures { result.now ≡ text.network_word network }
{
    match network {
        Network::Direct => "direct",
        Network::Packet => "packet",
    }
}

#[tactic(auto, unfolding(crate::specs::Spelling::Texts::setting_line))]
pub fn put_setting(out: &mut Vec<u8>, name: &'static str, number: u32) -> Result<(), AllocError>
    ensures { OnOk result (out.new.items ≡ out.old.items ++ text.setting_line name.now number) }
{
    put_line(out, name, &[count(number)])
}

#[tactic(auto, unfolding(crate::specs::Spelling::Texts::end_line, crate::specs::Spelling::Texts::disk_words))]
pub fn put_end_line(out: &mut Vec<u8>, end: &EndLine) -> Result<(), AllocError>
    ensures { OnOk result (out.new.items ≡ out.old.items ++ text.end_line end.now) }
{
    let (id, node, tag) = (small(end.id.0), small(end.node.0), Tag(end.tag));
    if end.disk {
        put_line(out, "endpoint", &[id, node, tag, Text("disk")])
    } else {
        put_line(out, "endpoint", &[id, node, tag])
    }
}

fn put_members(out: &mut Vec<u8>, members: &[EndpointId]) -> Result<(), AllocError>
    ensures { OnOk result (out.new.items ≡ out.old.items ++ spaced (text.member_words members.now)) }
{
    for member in members {
        put_spaced(out, &[small(member.0)])?;
    }
    Ok(())
}

#[tactic(auto, unfolding(crate::specs::Spelling::Texts::bundle_line))]
pub fn put_bundle_line(out: &mut Vec<u8>, bundle: &Bundle) -> Result<(), AllocError>
    ensures { OnOk result (out.new.items ≡ out.old.items ++ text.bundle_line bundle.now) }
{
    put_word(out, Text("bundle"))?;
    put_spaced(out, &[small(bundle.id), Text(mask_word(bundle.mask))])?;
    put_members(out, &bundle.members)?;
    put_end(out)
}

#[tactic(auto, unfolding(crate::specs::Spelling::Texts::thread_line))]
pub fn put_thread_line(out: &mut Vec<u8>, thread: &ThreadLine) -> Result<(), AllocError>
    ensures { OnOk result (out.new.items ≡ out.old.items ++ text.thread_line thread.now) }
{
    put_line(out, "thread", &[small(thread.id), small(thread.node.0)])
}

#[tactic(auto, unfolding(crate::specs::Spelling::Texts::plan_line, crate::specs::Spelling::Texts::fault_words))]
pub fn put_plan_line(out: &mut Vec<u8>, line: &PlanLine) -> Result<(), AllocError>
    ensures { OnOk result (out.new.items ≡ out.old.items ++ text.plan_line line.now) }
{
    let (from, to, number) = (small(line.from.0), small(line.to.0), count(line.number));
    match line.fault {
        LinkFault::Lose => put_line(out, "plan", &[from, to, number, Text("lose")]),
        LinkFault::Repeat => put_line(out, "plan", &[from, to, number, Text("repeat")]),
        LinkFault::Late(by) => put_line(out, "plan", &[from, to, number, Text("late"), small(by)]),
    }
}

#[tactic(auto, unfolding(crate::specs::Spelling::Texts::swap_fault_line))]
pub fn put_swap_fault_line(out: &mut Vec<u8>, fault: &FaultLine) -> Result<(), AllocError>
    ensures { OnOk result (out.new.items ≡ out.old.items ++ text.swap_fault_line fault.now) }
{
    put_line(
        out,
        "swapfault",
        &[small(fault.node.0), count(fault.number)],
    )
}

// The line of an event: that of an entry that has no outcome.
#[tactic(auto, unfolding(crate::specs::Spelling::Texts::event_line))]
pub fn put_event_line(out: &mut Vec<u8>, event: Event) -> Result<(), NoMemory>
    ensures { OnOk result (out.new.items ≡ out.old.items ++ text.event_line event) }
{
    let entry = Entry {
        stamp: 0,
        event,
        outcome: Outcome::Silent,
    };
    entry_line(&entry, out)
}

pub fn put_call_line(out: &mut Vec<u8>, made: &ScriptCall) -> Result<(), NoMemory>
    ensures { OnOk result (out.new.items ≡ out.old.items ++ text.call_line made.now) }
{
    let event = Event::Call {
        actor: Actor::Thread(made.thread),
        end: made.endpoint,
        call: made.call,
    };
    put_event_line(out, event)
}

pub fn put_step_line(out: &mut Vec<u8>, step: &StepLine) -> Result<(), NoMemory>
    ensures { OnOk result (out.new.items ≡ out.old.items ++ text.step_line step.now) }
{
    put_event_line(out, step.event)
}
