//! Numbers go from one thread to another over a relay that loses the third of ten and sends the fifth twice. What came through
//! is printed, and with it what was still on the way at the end.
#![tactic(auto)]

ghost use Rattle.std.specs.Prelude.{◌≡◌, ◌≤◌, [], ◌++◌, IfOk, OnOk, map};
ghost use Rattle.am_wire_release.specs.Faults.{said};
ghost use Rattle.am_wire_relay.specs.Relays.{AreEnds, SameIn, SameOut, emitted};
ghost use Rattle.am_wire_relay.specs.Shapes.{shape};
ghost use Rattle.am_example_sums.specs.Numbers.{arrived, fault_of, numbers_to, restamped, stamp_of, value_of};

mod number;

use crate::number::Number;
use am_names::NoMemory;
use am_scenario_plan::LinkFault;
use am_wire_relay::{RelayIn, RelayOut, RelayRecord, close_relay, make_relay};
use am_wire_release::LinkFaults;
use std::alloc::Global;
use std::process::ExitCode;
use std::thread::{Threads, join};

/// The end of the relay that one thread has.
type Out = RelayOut<Number, Number>;

/// Sends the numbers 1 to 10. `NoMemory` comes only for want of memory.
fn send(out: Out) -> (Out, Result<(), NoMemory>)
    requires { emitted out ≡ [] }
    ensures same { SameOut out result.0 }
    ensures sent { OnOk result.1 (emitted result.0 ≡ numbers_to 10) }
{
    let mut out = out;
    for number in 0..10u32 {
        let value = number + 1;
        let stamp = u64::from(value);
        if out.offer(Number { value, stamp }).is_err() {
            return (out, Err(NoMemory));
        }
        out.pump();
    }
    (out, Ok(()))
}

/// Takes what it sees in a thousand looks.
fn receive(inn: RelayIn<Number>) -> RelayIn<Number>
    ensures { SameIn inn result }
{
    let mut inn = inn;
    for _look in 0..1000u32 {
        let _number = inn.next();
    }
    inn
}

/// The relay's faults. `NoMemory` comes only for want of memory.
fn faults(alloc: Global) -> Result<LinkFaults, NoMemory>
    ensures { IfOk result (λ faults. said faults ≡ fault_of) }
{
    let mut faults = LinkFaults::new(alloc);
    faults.say(3, LinkFault::Lose)?;
    faults.say(5, LinkFault::Repeat)?;
    Ok(faults)
}

/// What comes of the numbers 1 to 10: the shape of what was sent.
fn relay<R: Threads + Sync>(rt: &R, alloc: Global) -> Result<Vec<Number>, NoMemory>
    ensures shape { IfOk result (λ numbers. numbers.items ≡ shape stamp_of restamped fault_of (numbers_to 10)) }
    ensures values { IfOk result (λ numbers. map value_of numbers.items ≡ arrived) }
{
    let (out, inn) = make_relay::<Number, Number>(alloc, faults(alloc)?)?;
    let ((out, sent), inn) = join(rt, move || send(out), move || receive(inn));
    sent?;
    let RelayRecord {
        mut received,
        left,
        ..
    } = close_relay(alloc, out, inn)?;
    received.extend_from_slice(left.as_slice())?;
    Ok(received)
}

fn main(rt: HostRuntime) -> ExitCode {
    let Ok(numbers) = relay(&rt, rt.alloc()) else {
        return ExitCode::from(8);
    };
    for number in &numbers {
        if println!(rt; "{}", number.value).is_err() {
            return ExitCode::from(5);
        }
    }
    ExitCode::from(0)
}
