//! A sink that keeps its bytes in memory.

ghost use Rattle.std.specs.Prelude.{◌≡◌, ◌<◌, [], Some, Ok, Err, min};
ghost use Rattle.am_io.specs.Causes.{Writes, WriteCause, ShortageCause, exactly};
ghost use Rattle.am_io.specs.Memory.{fails_after, WritesSo};

use crate::memory_source::fails_after;
use crate::sink::{Sink, SinkFault};
use std::alloc::Global;
use std::marker::Model;

/// A sink that keeps the bytes in memory. A write takes at most a set number of bytes, and the calls with the listed
/// numbers fail. Contracts see it as what it holds, these settings, and its counts of calls, faults and shortages of memory.
#[derive(Drop)]
pub struct MemorySink {
    bytes: Vec<u8>,
    most: usize,
    fails: Vec<u32>,
    calls: u64,
    faults: u64,
    shortages: u64,
}

impl Model for MemorySink {
    ghost use Rattle.am_io.specs.Memory.{Store};

    ghost Value = { Store };

    ghost use Rattle.am_io.specs.Inside.{store_in, Stores};

    ghost view = { store_in };

    ghost invariant = { Stores };
}

impl MemorySink {
    /// Takes at most `most` bytes a call, at least 1. Its calls with the numbers in `fails`, counted from 1, fail.
    /// A call that finds no memory is counted apart.
    pub fn new(alloc: Global, most: usize, fails: Vec<u32>) -> MemorySink
        requires { 0 < most }
        ensures { result ≡ record { held = []; most = most; fails = fails.items; calls = 0; faults = 0; shortages = 0 } }
    {
        MemorySink {
            bytes: Vec::new(alloc),
            most,
            fails,
            calls: 0,
            faults: 0,
            shortages: 0,
        }
    }

    /// What it holds.
    pub fn bytes(&self) -> &[u8]
        ensures { result.now ≡ self.now.held }
    {
        &self.bytes
    }
}

impl Sink for MemorySink {
    ghost held = { λ s. Some s.held };

    ghost count = { λ s. exactly s.faults };

    ghost shortages = { λ s. exactly s.shortages };

    fn faults(&self) -> u64 {
        self.faults
    }

    fn write(&mut self, piece: &[u8]) -> Result<usize, SinkFault>
        ensures bytes { Writes result (Some self.old.held) (Some self.new.held) piece.now }
        ensures cause { WriteCause result (exactly self.old.faults) (exactly self.new.faults) }
        ensures shortage { ShortageCause result (exactly self.old.shortages) (exactly self.new.shortages) }
        ensures exact { WritesSo result self.old self.new piece.now }
    {
        if fails_after(&self.fails, self.calls) {
            self.calls = self.calls.saturating_add(1);
            self.faults = self.faults.saturating_add(1);
            return Err(SinkFault::Failed);
        }
        let count = piece.len().min(self.most);
        match self.bytes.extend_from_slice(&piece[..count]) {
            Ok(()) => {
                self.calls = self.calls.saturating_add(1);
                Ok(count)
            }
            Err(_) => {
                self.shortages = self.shortages.saturating_add(1);
                Err(SinkFault::NoMemory)
            }
        }
    }
}
