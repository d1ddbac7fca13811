//! What became of a message.

ghost use Rattle.std.specs.Prelude.{◌≡◌, ◌↔◌, false, None, slice_get};
ghost use Rattle.am_names.specs.Names.{has_serial};
ghost use Rattle.am_office_entries.specs.Entries as does;
ghost use Rattle.am_office_entries.specs.Entries.{passes, is_serial};
ghost use Rattle.am_office_entries.specs.Fates as fates;

use crate::roles::{accepted_of, return_of, run_of, unknown_of};
use crate::{Entry, Fate, Journal};
use am_names::{Cause, Serial};

fn accepts(entry: &Entry, serial: Serial) -> bool
    ensures { result ≡ passes (has_serial serial) (does.accepted_of entry.now) }
{
    match accepted_of(entry) {
        Some(message) => serial == message.serial,
        None => false,
    }
}

fn runs(entry: &Entry, serial: Serial) -> bool
    ensures { result ≡ passes (has_serial serial) (does.run_of entry.now) }
{
    match run_of(entry) {
        Some(message) => serial == message.serial,
        None => false,
    }
}

fn leaves_unknown(entry: &Entry, serial: Serial) -> bool
    ensures { result ≡ is_serial serial (does.unknown_of entry.now) }
{
    match unknown_of(entry) {
        Some(unknown) => serial == unknown,
        None => false,
    }
}

#[tactic(auto, using(crate::proofs::Causes::cause_of_return))]
fn cause_of(entry: &Entry, serial: Serial) -> Option<Cause>
    ensures { result ≡ fates.cause_of serial entry.now.event entry.now.outcome }
{
    match return_of(entry) {
        Some((returned, cause)) if serial == returned => Some(cause),
        _ => None,
    }
}

// The cause of the first entry that returns the serial.
fn first_cause(entries: &[Entry], serial: Serial) -> Option<Cause>
    ensures { result ≡ slice_get (fates.causes_of entries.now serial) 0 }
{
    for entry in entries {
        if let Some(cause) = cause_of(entry, serial) {
            return Some(cause);
        }
    }
    None
}

fn is_accepted(entries: &[Entry], serial: Serial) -> bool
    ensures { result ≡ fates.is_accepted entries.now serial }
{
    entries.iter().any(|entry| accepts(entry, serial))
}

fn is_unknown(entries: &[Entry], serial: Serial) -> bool
    ensures { result ≡ fates.is_unknown entries.now serial }
{
    entries.iter().any(|entry| leaves_unknown(entry, serial))
}

fn is_run(entries: &[Entry], serial: Serial) -> bool
    ensures { result ≡ fates.is_run entries.now serial }
{
    entries.iter().any(|entry| runs(entry, serial))
}

/// What became of the message with this serial; None exactly where no entry of the journal accepts the serial.
/// Where an entry returns it, it was returned, for the cause of the first such entry. Else, where an entry leaves it
/// unknown, it is unknown but ran where a poll ran it, and unknown where none did. Else it ran where a poll ran it,
/// and is pending where none did. It goes over the journal once for each of these questions.
#[tactic(auto, using(crate::proofs::Causes::fate_by_first))]
pub fn fate(journal: &Journal, serial: Serial) -> Option<Fate>
    ensures value { result ≡ fates.fate journal.now serial }
    ensures none { (result ≡ None) ↔ (fates.is_accepted journal.now serial ≡ false) }
{
    let entries = journal.entries.as_slice();
    if !is_accepted(entries, serial) {
        return None;
    }
    let cause = first_cause(entries, serial);
    let unknown = is_unknown(entries, serial);
    let ran = is_run(entries, serial);
    Some(Fate::of(cause, unknown, ran))
}
