//! How often words were sent, and how often they ran.

ghost use Rattle.std.specs.Prelude.{◌≡◌, ◌≤◌, IfSome};
ghost use Rattle.std.specs.Option.{option_map};
ghost use Rattle.am_job.specs.Words.Counts.{word_asked, word_run};
ghost use Rattle.am_job.specs.Words.Spelled.{spelled};

use crate::words::rows::WordCount;
use crate::words::spelled::{Spelled, word_in};
use am_library_views::{words_in, words_run_of};
use am_names::NoMemory;
use am_office_entries::logged::LoggedJournal;
use am_office_entries::{Call, Entry};
use std::alloc::Global;
use std::collections::BTreeMap;
use std::marker::Model;

/// How often a word was sent and ran. A count that rises stands still at 2^64-1.
#[derive(Clone, Copy, PartialEq, Eq)]
pub struct Count {
    /// How often it was sent.
    pub asked: u64,
    /// How often it ran.
    pub ran: u64,
}

/// Words, and how often each was sent and ran.
#[derive(Drop)]
pub struct Tally {
    counts: BTreeMap<Vec<u8>, Count>,
}

impl Model for Tally {
    ghost use Rattle.std.specs.Prelude.{map};
    ghost use Rattle.am_job.specs.Words.Counts.{Counted};

    ghost Value = { Counted };

    ghost view = { λ t. map (λ e. (e.0.items, e.1)) t.counts.entries };
}

// The word that a call sends, if it sends one.
fn word_asked(call: &Call) -> Option<Spelled>
    ensures exact { option_map spelled result ≡ word_asked call.now }
    ensures short { IfSome result (λ word. word.len ≤ 24) }
{
    match words_in(call) {
        Some(words) => word_in(words),
        None => None,
    }
}

// The word that an entry runs, if it runs one.
fn word_run(entry: &Entry) -> Option<Spelled>
    ensures exact { option_map spelled result ≡ word_run entry.now }
    ensures short { IfSome result (λ word. word.len ≤ 24) }
{
    match words_run_of(entry) {
        Some(words) => word_in(words),
        None => None,
    }
}

impl Tally {
    ghost use Rattle.std.specs.Prelude.{◌≡◌, [], IfOk, OnOk};
    ghost use Rattle.std.specs.Cmp.Lexicographic.{slice_cmp};
    ghost use Rattle.std.specs.List.Sorted.{IsStrictlySortedBy};
    ghost use Rattle.std.specs.Map.{keys_of};
    ghost use Rattle.std.specs.Ordering.{nat_cmp};
    ghost use Rattle.am_office_entries.specs.Logged.Behind.{entries_behind};
    ghost use Rattle.am_job.specs.Words.Counts.{ask, count_at, rows_of, see, see_journal, with_count, word_asked, word_run};

    /// No word yet.
    pub fn new(alloc: Global) -> Tally
        ensures { result ≡ [] }
    {
        Tally {
            counts: BTreeMap::new(alloc),
        }
    }

    // A word's counts.
    fn count_at(&self, word: &[u8]) -> Count
        ensures { result ≡ count_at self.now word.now }
    {
        self.counts
            .get(word)
            .copied()
            .unwrap_or(Count { asked: 0, ran: 0 })
    }

    // Sets a word's counts.
    fn put(&mut self, alloc: Global, word: &[u8], count: Count) -> Result<(), NoMemory>
        ensures { OnOk result (self.new ≡ with_count self.old word.now count) }
    {
        let key = Vec::from_slice(alloc, word)?;
        self.counts.insert(key, count)?;
        Ok(())
    }

    /// Counts the word that a call sends, if it sends one. After `NoMemory` the counts are of no more use.
    pub fn ask(&mut self, alloc: Global, call: &Call) -> Result<(), NoMemory>
        ensures { OnOk result (self.new ≡ ask self.old (word_asked call.now)) }
    {
        let Some(word) = word_asked(call) else {
            return Ok(());
        };
        let count = self.count_at(word.as_bytes());
        let asked = count.asked.saturating_add(1);
        self.put(alloc, word.as_bytes(), Count { asked, ..count })?;
        Ok(())
    }

    // The word of an entry ran.
    fn see(&mut self, alloc: Global, entry: &Entry) -> Result<(), NoMemory>
        ensures { OnOk result (self.new ≡ see self.old (word_run entry.now)) }
    {
        let Some(word) = word_run(entry) else {
            return Ok(());
        };
        let count = self.count_at(word.as_bytes());
        let ran = count.ran.saturating_add(1);
        self.put(alloc, word.as_bytes(), Count { ran, ..count })?;
        Ok(())
    }

    // The words of entries behind references ran.
    fn see_behind(&mut self, alloc: Global, entries: &[&Entry]) -> Result<(), NoMemory>
        ensures { OnOk result (self.new ≡ see_journal self.old (entries_behind entries.now)) }
    {
        for entry in entries {
            self.see(alloc, entry)?;
        }
        Ok(())
    }

    /// Counts each word that a journal runs. After `NoMemory` the counts are of no more use.
    pub fn see_journal(&mut self, alloc: Global, journal: &LoggedJournal) -> Result<(), NoMemory>
        ensures { OnOk result (self.new ≡ see_journal self.old journal.now) }
    {
        self.see_behind(alloc, journal.entries())
    }

    /// The words that were sent, in ascending order of bytes, each with how often it ran and how often it was sent beyond that.
    pub fn rows(&self, alloc: Global) -> Result<Vec<WordCount>, NoMemory>
        ensures rows { IfOk result (λ rows. rows.items ≡ rows_of self.now) }
        ensures ascend { IfOk result (λ _. IsStrictlySortedBy (slice_cmp nat_cmp) (keys_of self.now)) }
    {
        let mut rows = Vec::new(alloc);
        for (word, count) in self.counts.iter() {
            if count.asked != 0 {
                rows.push(WordCount::new(alloc, word, count)?)?;
            }
        }
        Ok(rows)
    }
}
