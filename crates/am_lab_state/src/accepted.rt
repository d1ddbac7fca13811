//! The lines of the messages: where each was accepted.

ghost use Rattle.am_lab_state.specs.Messages.{accepted_at, accepted_by, accepted_line, all_messages, is_named};
ghost use Rattle.am_lemmas.specs.Numbered.{numbered};
ghost use Rattle.am_model_scripts.specs.Layout.{layout_of};
ghost use Rattle.std.specs.Prelude.{◌≡◌, ◌<◌, ◌^◌, ◌++◌, OnOk, length};

use crate::named::all_named;
use am_machine::Cluster;
use am_names::{Message, NoMemory, Serial};
use am_office_entries::{Entry, accepted_of};
use am_office_text::LinePiece::{Number, Text};
use am_office_text::{LinePiece, put_line};
use am_scenario::Scenario;
use std::alloc::{AllocError, Global};

// Whether a message is one of these.
fn is_named(named: &[Serial], serial: Serial) -> bool
    ensures { result ≡ is_named named.now serial }
{
    named.iter().any(|other| serial.source.0 == other.source.0 && serial.count == other.count)
}

// Appends a message that was accepted in this line.
fn put_accepted(out: &mut Vec<u8>, number: u64, serial: Serial) -> Result<(), AllocError>
    ensures { OnOk result (out.new.items ≡ out.old.items ++ accepted_line number serial) }
{
    put_line(
        out,
        "message",
        &[LinePiece::Serial(serial), Text("line"), Number(number)],
    )
}

// Appends a message that was accepted in this line, if it is one of these.
fn put_if_named(
    out: &mut Vec<u8>,
    named: &[Serial],
    number: u64,
    message: Option<Message>,
) -> Result<(), AllocError>
    ensures { OnOk result (out.new.items ≡ out.old.items ++ accepted_by named.now number message) }
{
    match message {
        Some(message) => {
            if is_named(named, message.serial) {
                put_accepted(out, number, message.serial)
            } else {
                Ok(())
            }
        }
        None => Ok(()),
    }
}

// Appends those of these messages that the entries of a journal accept.
fn put_named(out: &mut Vec<u8>, named: &[Serial], entries: &[Entry]) -> Result<(), AllocError>
    requires { length entries.now < 2 ^ 31 }
    ensures { OnOk result (out.new.items ≡ out.old.items ++ numbered (accepted_at named.now) 3 entries.now) }
{
    let mut line: u64 = 3;
    for entry in entries {
        put_if_named(out, named, line, accepted_of(entry))?;
        line += 1;
    }
    Ok(())
}

/// Appends the messages that the lines of the endpoints name, each with the line of the report in which it was accepted, where these are
/// the entries of the cluster's journal. `NoMemory` comes where there is none for the messages or for the text.
pub(crate) fn put_message_lines(
    out: &mut Vec<u8>,
    alloc: Global,
    cluster: &Cluster,
    scenario: &Scenario,
    entries: &[Entry],
) -> Result<(), NoMemory>
    requires layout { cluster.now.layout ≡ layout_of scenario.now }
    requires journal { entries.now ≡ cluster.now.journal }
    requires few { length entries.now < 2 ^ 31 }
    ensures { OnOk result (out.new.items ≡ out.old.items ++ all_messages scenario.now cluster.now.journal) }
{
    let named = all_named(alloc, cluster, scenario)?;
    put_named(out, &named, entries)?;
    Ok(())
}
