//! A slot for each stamp: entries of which no two with one stamp have different parts are placed by it, and read in order.

ghost use Rattle.am_machine_journal.specs.Merge.Joined.{AreOne, lists_of};
ghost use Rattle.am_machine_journal.specs.Merge.Slots.{IsFilled, all_standing, put, standing_at};
ghost use Rattle.am_model_merge.specs.Merged.{entries_of, merged};
ghost use Rattle.am_office_entries.specs.declared.Entry.{Entry};
ghost use Rattle.std.specs.Prelude.{◌≡◌, ◌++◌, ◌<◌, [], All, None, Some, IfOk, IfSome, List, OnOk, IsTrue, length, slice_get};

use crate::merge::heads::entry_at;
use crate::merge::parts::rank;
use am_office_entries::logged::LoggedJournal;
use am_office_entries::{Entry, NoMemory};
use std::alloc::Global;

/// How many entries the logs have together.
pub(crate) fn total(logs: &[&[Entry]]) -> usize {
    let mut total: usize = 0;
    for log in logs {
        total = total.saturating_add(log.len());
    }
    total
}

/// The greatest of the stamps that end the logs, and 0 where there are no entries.
fn last_stamp(logs: &[&[Entry]]) -> u64 {
    let mut last = 0;
    for log in logs {
        if let Some(entry) = log.last() {
            last = last.max(entry.stamp);
        }
    }
    last
}

/// Puts an entry into the slot of its stamp. It tells whether there is one, and nothing of another part stands in it.
fn put<'a>(slots: &mut [Option<&'a Entry>], entry: &'a Entry) -> bool
    ensures { IsTrue result → put entry.entry slots.old ≡ Some slots.new }
{
    let place = entry.stamp as usize;
    match slots.get(place) {
        None => false,
        Some(None) => {
            slots[place] = Some(entry);
            true
        }
        Some(Some(other)) => rank(other) == rank(entry),
    }
}

/// Puts the entries of a log into the slots of their stamps, up to the first that doesn't fit.
fn put_log<'a>(slots: &mut [Option<&'a Entry>], log: &'a [Entry]) -> bool
    ensures { IsTrue result → (seen : List Entry) → AreOne (seen ++ log.now) → IsFilled seen slots.old → IsFilled (seen ++ log.now) slots.new }
{
    let count = log.len();
    for place in 0..count {
        if !put(slots, entry_at(log, place)) {
            return false;
        }
    }
    true
}

/// The log at a place among the logs.
fn log_at<'a>(logs: &[&'a [Entry]], place: usize) -> &'a [Entry]
    requires { place < length logs.now }
    ensures { slice_get (lists_of logs.now) place ≡ Some result.now }
{
    logs[place]
}

/// Puts the entries of all logs into the slots of their stamps, up to the first that doesn't fit.
fn put_logs<'a>(slots: &mut [Option<&'a Entry>], logs: &[&'a [Entry]]) -> bool
    requires { AreOne (entries_of (lists_of logs.now)) }
    ensures { IsTrue result → IsFilled [] slots.old → IsFilled (entries_of (lists_of logs.now)) slots.new }
{
    let count = logs.len();
    for place in 0..count {
        if !put_log(slots, log_at(logs, place)) {
            return false;
        }
    }
    true
}

/// Adds what stands in the slot at a place, if something does.
fn add<'a>(
    journal: &mut LoggedJournal<'a>,
    slots: &[Option<&'a Entry>],
    place: usize,
) -> Result<(), NoMemory>
    requires { place < length slots.now }
    ensures { OnOk result (journal.new ≡ journal.old ++ standing_at slots.now place) }
{
    if let Some(entry) = slots[place] {
        journal.push(entry)?;
    }
    Ok(())
}

/// What stands in the slots, in order.
fn all_standing<'a>(
    alloc: Global,
    slots: &[Option<&'a Entry>],
) -> Result<LoggedJournal<'a>, NoMemory>
    ensures { IfOk result (λ journal. journal ≡ all_standing slots.now) }
{
    let mut journal = LoggedJournal::with_capacity(alloc, slots.len())?;
    let count = slots.len();
    for place in 0..count {
        add(&mut journal, slots, place)?;
    }
    Ok(journal)
}

/// So many slots in which nothing stands.
fn no_slots<'a>(alloc: Global, count: usize) -> Result<Vec<Option<&'a Entry>>, NoMemory>
    ensures { IfOk result (λ slots. All (λ slot. slot ≡ None) slots.items) }
{
    let mut slots = Vec::new(alloc);
    slots.resize(count, None)?;
    Ok(slots)
}

/// The journal that the logs merge into, where no stamp is above the number of entries and no two parts have one stamp.
pub(crate) fn by_stamp<'a>(
    alloc: Global,
    logs: &[&'a [Entry]],
) -> Result<Option<LoggedJournal<'a>>, NoMemory>
    requires { AreOne (entries_of (lists_of logs.now)) }
    ensures { IfOk result (λ found. IfSome found (λ journal. journal ≡ merged (lists_of logs.now))) }
{
    let last = last_stamp(logs) as usize;
    if last > total(logs) {
        return Ok(None);
    }
    let mut slots = no_slots(alloc, last.saturating_add(1))?;
    if !put_logs(&mut slots, logs) {
        return Ok(None);
    }
    Ok(Some(all_standing(alloc, &slots)?))
}
