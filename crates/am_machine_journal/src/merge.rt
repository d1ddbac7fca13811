//! The journal that logs make: the entries of all logs, each once, by stamp and then by part.

ghost use Rattle.am_machine_journal.specs.Merge.Joined.{AreAmong, AreOne, HaveJust, added, is_last, lists_of};
ghost use Rattle.am_model_merge.specs.Logs.{IsRising};
ghost use Rattle.am_model_merge.specs.Merged.{entries_of, merged};
ghost use Rattle.am_model.specs.Layout.{AllAre};
ghost use Rattle.am_model.specs.Merge.{is_ordered};
ghost use Rattle.am_office_entries.specs.declared.Entry.{Entry};
ghost use Rattle.std.specs.Prelude.{◌≡◌, ◌-◌, true, List, IfOk, length, slice_get};

mod heads;
mod parts;
mod slots;

use crate::merge::heads::{entry_of, first_heads, first_of, is_again, next_head, taken};
use crate::merge::slots::{by_stamp, total};
use am_office_entries::logged::LoggedJournal;
use am_office_entries::{Entry, NoMemory};
use std::alloc::Global;

/// The journal that the logs merge into: it refers to the entries of all logs, each once, by stamp and then by part. In a log
/// stamps rise, and where two logs have entries with one stamp and one part, these are one entry, which stands in both.
/// Where no stamp is above the number of entries and no two parts have one stamp, it costs a number of steps that grows as the
/// entries, and takes memory for a reference to each entry and for a place for each stamp. Else it costs a number of steps that
/// grows as the entries times the logarithm of the number of logs, and takes memory once for the references and once for the logs.
pub fn join<'a>(alloc: Global, logs: &[&'a [Entry]]) -> Result<LoggedJournal<'a>, NoMemory>
    requires rising { AllAre IsRising (lists_of logs.now) }
    requires one { AreOne (entries_of (lists_of logs.now)) }
    ensures { IfOk result (λ journal. journal ≡ merged (lists_of logs.now)) }
{
    match by_stamp(alloc, logs)? {
        Some(journal) => Ok(journal),
        None => by_heads(alloc, logs),
    }
}

/// The journal that the logs merge into, where the first of the entries that are left is taken again and again.
fn by_heads<'a>(alloc: Global, logs: &[&'a [Entry]]) -> Result<LoggedJournal<'a>, NoMemory>
    requires rising { AllAre IsRising (lists_of logs.now) }
    requires one { AreOne (entries_of (lists_of logs.now)) }
    ensures { IfOk result (λ journal. journal ≡ merged (lists_of logs.now)) }
{
    let mut journal = LoggedJournal::with_capacity(alloc, total(logs))?;
    let mut heads = first_heads(alloc, logs)?;
    let mut first = taken(&mut heads);
    let mut last = None;
    while let Some(head) = first {
        add(&mut journal, entry_of(logs, head), is_again(last, head))?;
        last = Some(head);
        let next = next_head(logs, head.log, head.place + 1);
        first = first_of(next, &mut heads);
    }
    Ok(journal)
}

/// Among entries that all stand in one journal in order, those with one stamp and one part are one entry. So logs that have
/// just the entries of such a journal merge into it.
pub fn logs_of_one_journal()
    ensures one { (journal entries : List Entry) → is_ordered journal ≡ true → AreAmong journal entries → AreOne entries }
    ensures merged { (journal : List Entry) (logs : List (List Entry)) → is_ordered journal ≡ true → HaveJust journal logs → merged logs ≡ journal }
{}

/// Adds an entry to those of the journal, unless it is the last of them, as was told.
#[tactic(auto, using(crate::proofs::Lasts::told))]
fn add<'a>(journal: &mut LoggedJournal<'a>, entry: &'a Entry, again: bool) -> Result<(), NoMemory>
    requires { again ≡ is_last entry.now (slice_get journal.old (length journal.old - 1)) }
    ensures { IfOk result (λ _. journal.new ≡ added entry.now journal.old) }
{
    if !again {
        journal.push(entry)?;
    }
    Ok(())
}
