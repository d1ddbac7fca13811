//! A source over bytes in memory.

ghost use Rattle.std.specs.Prelude.{◌≡◌, ◌+◌, ◌≤◌, ◌<◌, ◌++◌, Some, false, drop, length, take, nat_lt, min, ◌&&◌, ◌==◌};
ghost use Rattle.am_io.specs.Causes.{Reads, ReadCause, exactly};
ghost use Rattle.am_io.specs.Memory.{after_read, fails_after, filled, read_answer};

use crate::source::{Failed, Source};
use std::marker::Model;

/// A source over bytes in memory. A read gives at most a set number of bytes, and the calls with the listed numbers
/// fail. Contracts see it as what is left, these settings, and its counts of calls and faults.
#[derive(Drop)]
pub struct MemorySource {
    bytes: Vec<u8>,
    at: usize,
    most: usize,
    fails: Vec<u32>,
    calls: u64,
    faults: u64,
    ended: bool,
}

impl Model for MemorySource {
    ghost use Rattle.am_io.specs.Memory.{Supply};

    ghost Value = { Supply };

    ghost use Rattle.am_io.specs.Inside.{supply_in, Supplies};

    ghost view = { supply_in };

    ghost invariant = { Supplies };
}

impl MemorySource {
    /// Gives at most `most` bytes a call, at least 1. Its calls with the numbers in `fails`, counted from 1, fail.
    pub fn new(bytes: Vec<u8>, most: usize, fails: Vec<u32>) -> MemorySource
        requires { 0 < most }
        ensures { result ≡ record { left = bytes.items; most = most; fails = fails.items; calls = 0; faults = 0; ended = false } }
    {
        MemorySource {
            bytes,
            at: 0,
            most,
            fails,
            calls: 0,
            faults: 0,
            ended: false,
        }
    }
}

fn copy_front(from: &[u8], to: &mut [u8], count: usize)
    requires { (count ≤ length from.now) × (count ≤ length to.old) }
    ensures { to.new ≡ take count from.now ++ drop count to.old }
{
    to[..count].copy_from_slice(&from[..count]);
}

/// Whether the call after so many fails.
pub(crate) fn fails_after(fails: &[u32], calls: u64) -> bool
    ensures { result ≡ fails_after fails.now calls }
{
    let number = calls.saturating_add(1);
    fails.iter().any(|fail| u64::from(*fail) == number)
}

/// Whether a read of so many bytes, into a buffer with this room, is the end.
pub(crate) fn is_end(count: usize, room: usize) -> bool
    ensures { result ≡ (count == 0 && nat_lt 0 room) }
{
    count == 0 && room > 0
}

impl Source for MemorySource {
    ghost left = { λ s. Some s.left };

    ghost has_ended = { λ s. s.ended };

    ghost count = { λ s. exactly s.faults };

    fn faults(&self) -> u64 {
        self.faults
    }

    fn read(&mut self, buf: &mut [u8]) -> Result<usize, Failed>
        requires { self.old.ended ≡ false }
        ensures bytes { Reads result (Some self.old.left) (Some self.new.left) self.old.ended self.new.ended buf.new }
        ensures cause { ReadCause result (exactly self.old.faults) (exactly self.new.faults) }
        ensures answer { result ≡ read_answer self.old (length buf.old) }
        ensures after { self.new ≡ after_read self.old (length buf.old) }
        ensures given { buf.new ≡ filled self.old buf.old }
    {
        let fails = fails_after(&self.fails, self.calls);
        self.calls = self.calls.saturating_add(1);
        if fails {
            self.faults = self.faults.saturating_add(1);
            return Err(Failed);
        }
        let rest = &self.bytes[self.at..];
        let count = rest.len().min(buf.len()).min(self.most);
        copy_front(rest, buf, count);
        self.at += count;
        self.ended = is_end(count, buf.len());
        Ok(count)
    }
}
