//! A word's counts, as they are told.

use crate::words::tally::Count;
use am_names::NoMemory;
use std::alloc::Global;
use std::marker::Model;

/// How often a word ran, and how often it was sent beyond that.
#[derive(Drop)]
pub struct WordCount {
    /// The word's bytes, 1 to 24.
    pub word: Vec<u8>,
    /// How often it ran.
    pub ran: u64,
    /// How often it was sent and did not run.
    pub left: u64,
}

impl Model for WordCount {
    ghost use Rattle.am_job.specs.Words.Lists.{WordCountLists};

    ghost Value = { WordCountLists };

    ghost view = { λ row. record { word = row.word.items; ran = row.ran; left = row.left } };
}

impl WordCount {
    ghost use Rattle.std.specs.Prelude.{◌≡◌, ◌-◌, IfOk};

    // What is told of a word that was sent.
    pub(crate) fn new(alloc: Global, word: &[u8], count: &Count) -> Result<WordCount, NoMemory>
        ensures { IfOk result (λ row. row ≡ record { word = word.now; ran = count.now.ran; left = count.now.asked - count.now.ran }) }
    {
        Ok(WordCount {
            word: Vec::from_slice(alloc, word)?,
            ran: count.ran,
            left: count.asked.saturating_sub(count.ran),
        })
    }
}
