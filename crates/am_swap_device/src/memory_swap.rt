ghost use Rattle.am_swap_device.specs.Causes.{fails_after, one_more};
ghost use Rattle.am_swap_device.specs.Memory.{CallsSo, counted, device_of, failed_among, faulted, held_for, with_held};
ghost use Rattle.std.specs.Option.{option_copied};
ghost use Rattle.std.specs.Prelude.{◌≡◌, ◌≤◌, ◌↔◌, ◌<◌, ◌^◌, [], None, OnErr, OnOk, false, true};

use crate::kept::{Kept, held_for, hold};
use crate::swap::{Look, Swap, SwapFault};
use am_names::{EndpointId, NoMemory};
use std::alloc::Global;
use std::marker::Model;

/// A swap that keeps what it holds in memory, and whose calls with the listed numbers fail. Contracts see it as what it
/// holds, these numbers, and its counts of calls and faults.
#[derive(Drop)]
pub struct MemorySwap {
    alloc: Global,
    kept: Vec<Kept>,
    fails: Vec<u32>,
    calls: u64,
    faults: u64,
    ghost tallied: { faults ≡ failed_among fails.items calls },
}

impl Model for MemorySwap {
    ghost use Rattle.am_swap_device.specs.Memory.{Store};

    ghost Value = { Store };

    ghost use Rattle.am_swap_device.specs.Inside.{store_in};

    ghost view = { store_in };
}

impl MemorySwap {
    /// Holds nothing yet. Its calls of `write` and `read` with the numbers in `fails`, counted from 1 over both, fail.
    pub fn new(alloc: Global, fails: Vec<u32>) -> MemorySwap
        ensures { result ≡ record { held = []; fails = fails.items; calls = 0; faults = 0 } }
    {
        MemorySwap {
            alloc,
            kept: Vec::new(alloc),
            fails,
            calls: 0,
            faults: 0,
        }
    }

    /// Holds these bytes for the key from now on, without being counted. Want of memory leaves all as it was.
    pub fn preset(&mut self, key: EndpointId, bytes: &[u8]) -> Result<(), NoMemory>
        ensures ok { OnOk result (self.new ≡ with_held self.old key bytes.now) }
        ensures no_memory { OnErr result (self.new ≡ self.old) }
    {
        hold(self.alloc, &mut self.kept, key, bytes)
    }

    /// What it holds for the key, and None exactly where the key wasn't written. It isn't counted, and takes no memory.
    pub fn held(&self, key: EndpointId) -> Option<&[u8]>
        ensures bytes { option_copied result ≡ held_for self.now.held key }
        ensures none { (result ≡ None) ↔ (held_for self.now.held key ≡ None) }
    {
        held_for(&self.kept, key)
    }

    /// Of its calls so far those failed that were to fail. Nothing runs here.
    pub fn tallied(&self)
        ensures { self.now.faults ≡ failed_among self.now.fails self.now.calls }
    {
        let _faults = self.faults;
    }

    /// Counts a call that is done.
    fn count(&mut self)
        requires { fails_after self.old.fails self.old.calls ≡ false }
        ensures { self.new ≡ counted self.old }
    {
        self.calls = self.calls.saturating_add(1);
    }

    /// Counts a call that failed.
    fn fail(&mut self) -> SwapFault
        requires { fails_after self.old.fails self.old.calls ≡ true }
        ensures fault { result ≡ SwapFault.Failed }
        ensures counts { self.new ≡ faulted self.old }
        ensures rose { self.old.faults ≤ self.new.faults }
    {
        is_low(self.fails.as_slice(), self.calls);
        self.calls = self.calls.saturating_add(1);
        self.faults = self.faults.saturating_add(1);
        SwapFault::Failed
    }
}

/// A call that fails has a number at which counts don't stand still yet. Nothing runs here.
fn is_low(fails: &[u32], calls: u64)
    requires { fails_after fails.now calls ≡ true }
    ensures { one_more calls < 2 ^ 32 }
{}

/// Whether the call after so many fails.
fn fails_after(fails: &[u32], calls: u64) -> bool
    ensures { result ≡ fails_after fails.now calls }
{
    let number = calls.saturating_add(1);
    fails.iter().any(|fail| u64::from(*fail) == number)
}

impl Swap for MemorySwap {
    ghost device = { device_of };

    ghost count = { λ s. s.faults };

    ghost tells = { CallsSo };

    fn faults(&self) -> u64 {
        self.faults
    }

    fn write(&mut self, key: EndpointId, bytes: &[u8]) -> Result<(), SwapFault> {
        let fails = fails_after(&self.fails, self.calls);
        if fails {
            return Err(self.fail());
        }
        match hold(self.alloc, &mut self.kept, key, bytes) {
            Ok(()) => {
                self.count();
                Ok(())
            }
            Err(NoMemory) => Err(SwapFault::NoMemory),
        }
    }

    fn read(&mut self, alloc: Global, key: EndpointId) -> Result<Vec<u8>, SwapFault> {
        if fails_after(&self.fails, self.calls) {
            return Err(self.fail());
        }
        let bytes = held_for(&self.kept, key).unwrap();
        match Vec::from_slice(alloc, bytes) {
            Ok(bytes) => {
                self.count();
                Ok(bytes)
            }
            Err(_) => Err(SwapFault::NoMemory),
        }
    }
}

impl Look for MemorySwap {
    fn look(&self, key: EndpointId) -> Option<&[u8]> {
        self.held(key)
    }
}
