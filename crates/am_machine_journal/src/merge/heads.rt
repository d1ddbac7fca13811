//! The next entry of each log: the first of all, and the others in a heap.

ghost use Rattle.am_machine_journal.specs.Merge.Heads.{AreFirst, IsFirst, IsFirstOf, IsHead, IsLeastFirst, is_again, is_later, log_at, next_head, option_reversed};
ghost use Rattle.am_machine_journal.specs.Merge.Joined.{lists_of};
ghost use Rattle.std.specs.BinaryHeap.{heap_items, heap_len};
ghost use Rattle.std.specs.Prelude.{◌≡◌, ◌+◌, ◌<◌, ◌^◌, ◌++◌, length, slice_get, Some, IfOk, OnOk, IsPermutation};

use crate::merge::parts::rank;
use am_office_entries::{Entry, NoMemory};
use std::alloc::Global;
use std::cmp::Reverse;
use std::collections::BinaryHeap;

/// An entry that is next in its log: where it stands in the journal, and then which log it is of, and at which place.
#[derive(Clone, Copy, PartialEq, Eq, PartialOrd, Ord)]
pub(crate) struct Head {
    pub stamp: u64,
    pub rank: u16,
    pub log: usize,
    pub place: usize,
}

impl Head {
    /// Whether another head stands before it in the journal.
    fn is_after(&self, other: &Head) -> bool
        ensures { result ≡ is_later self.now other.now }
    {
        other.stamp < self.stamp || other.stamp == self.stamp && other.rank < self.rank
    }
}

/// Whether a head stands in the journal where the last one did.
pub(crate) fn is_again(last: Option<Head>, head: Head) -> bool
    ensures { result ≡ is_again last head }
{
    match last {
        Some(last) => last.stamp == head.stamp && last.rank == head.rank,
        None => false,
    }
}

/// The entry at a place of a log, if there is one.
pub(crate) fn next_head(logs: &[&[Entry]], log: usize, place: usize) -> Option<Head>
    requires { log < length logs.now }
    ensures { result ≡ next_head (lists_of logs.now) log place }
{
    match logs[log].get(place) {
        Some(entry) => Some(Head {
            stamp: entry.stamp,
            rank: rank(entry),
            log,
            place,
        }),
        None => None,
    }
}

/// The entry at a place of a log.
pub(crate) fn entry_at(log: &[Entry], place: usize) -> &Entry
    requires { place < length log.now }
    ensures shown { slice_get log.now place ≡ Some result.now }
    ensures place { place + 1 < 2 ^ 64 }
{
    &log[place]
}

/// The entry that a head is of.
pub(crate) fn entry_of<'a>(logs: &[&'a [Entry]], head: Head) -> &'a Entry
    requires { IsHead (lists_of logs.now) head }
    ensures shown { slice_get (log_at (lists_of logs.now) head.log) head.place ≡ Some result.now }
    ensures log { head.log < length logs.now }
    ensures place { head.place + 1 < 2 ^ 64 }
{
    entry_at(logs[head.log], head.place)
}

/// The first entries of all logs.
pub(crate) fn first_heads(
    alloc: Global,
    logs: &[&[Entry]],
) -> Result<BinaryHeap<Reverse<Head>>, NoMemory>
    ensures first { IfOk result (λ heads. AreFirst (lists_of logs.now) (heap_items heads)) }
    ensures order { IfOk result (λ heads. IsLeastFirst (heap_items heads)) }
{
    let mut heads = BinaryHeap::with_capacity(alloc, logs.len())?;
    for log in 0..logs.len() {
        push_head(logs, log, &mut heads)?;
    }
    Ok(heads)
}

/// Adds the first entry of a log to the heads, if there is one.
fn push_head(
    logs: &[&[Entry]],
    log: usize,
    heads: &mut BinaryHeap<Reverse<Head>>,
) -> Result<(), NoMemory>
    requires { log < length logs.now }
    ensures pushed { OnOk result (IsPermutation (option_reversed (next_head (lists_of logs.now) log 0) ++ heap_items heads.old) (heap_items heads.new)) }
    ensures order { OnOk result (IsLeastFirst (heap_items heads.old) → IsLeastFirst (heap_items heads.new)) }
{
    if let Some(head) = next_head(logs, log, 0) {
        heads.push(Reverse(head))?;
    }
    Ok(())
}

/// Takes the first of the heads out of the heap, if there is one.
pub(crate) fn taken(heads: &mut BinaryHeap<Reverse<Head>>) -> Option<Head>
    ensures same { IsPermutation (heap_items heads.old) (option_reversed result ++ heap_items heads.new) }
    ensures order { IsLeastFirst (heap_items heads.old) → IsLeastFirst (heap_items heads.new) }
    ensures first { IsLeastFirst (heap_items heads.old) → IsFirstOf result (heap_items heads.new) }
{
    match heads.pop() {
        Some(Reverse(head)) => Some(head),
        None => None,
    }
}

/// Takes the first of the heads out of the heap, and puts another in its place.
fn replaced(head: Head, heads: &mut BinaryHeap<Reverse<Head>>) -> Head
    requires some { 0 < heap_len heads.old }
    ensures same { IsPermutation (option_reversed (Some head) ++ heap_items heads.old) (option_reversed (Some result) ++ heap_items heads.new) }
    ensures order { IsLeastFirst (heap_items heads.old) → IsLeastFirst (heap_items heads.new) }
    ensures first { IsLeastFirst (heap_items heads.old) → IsFirst result (heap_items heads.old) }
{
    let mut top = heads.peek_mut().unwrap();
    let first = top.0;
    *top = Reverse(head);
    first
}

/// The first of a head and of those in the heap, which has the others from then on.
fn first_with(head: Head, heads: &mut BinaryHeap<Reverse<Head>>) -> Head
    ensures same { IsPermutation (option_reversed (Some head) ++ heap_items heads.old) (option_reversed (Some result) ++ heap_items heads.new) }
    ensures order { IsLeastFirst (heap_items heads.old) → IsLeastFirst (heap_items heads.new) }
    ensures first { IsLeastFirst (heap_items heads.old) → IsFirst result (heap_items heads.new) }
{
    match heads.peek() {
        Some(least) if head.is_after(&least.0) => replaced(head, heads),
        _ => head,
    }
}

/// The first of all heads, where the one before it was taken and the next of its log, if there is one, stands for it.
pub(crate) fn first_of(next: Option<Head>, heads: &mut BinaryHeap<Reverse<Head>>) -> Option<Head>
    ensures same { IsPermutation (option_reversed next ++ heap_items heads.old) (option_reversed result ++ heap_items heads.new) }
    ensures order { IsLeastFirst (heap_items heads.old) → IsLeastFirst (heap_items heads.new) }
    ensures first { IsLeastFirst (heap_items heads.old) → IsFirstOf result (heap_items heads.new) }
{
    match next {
        Some(head) => Some(first_with(head, heads)),
        None => taken(heads),
    }
}
