//! A disk of another make: it hands its calls on to one in memory, and doesn't tell beforehand which of them fail.

ghost use Rattle.am_swap_device.specs.Memory.{held_for};
ghost use Rattle.std.specs.Prelude.{None};

use am_names::EndpointId;
use am_swap_device::{Look, MemorySwap, Swap, SwapFault};
use std::alloc::Global;

#[derive(Drop)]
pub(crate) struct FarDisk {
    pub(crate) disk: MemorySwap,
}

impl Swap for FarDisk {
    ghost device = { λ s. record { held = held_for s.disk.held; fails = None; calls = s.disk.calls } };

    ghost count = { λ s. s.disk.faults };

    ghost tells = { λ s t key bytes fault. Unit {0} };

    fn faults(&self) -> u64 {
        self.disk.faults()
    }

    fn write(&mut self, key: EndpointId, bytes: &[u8]) -> Result<(), SwapFault> {
        self.disk.write(key, bytes)
    }

    fn read(&mut self, alloc: Global, key: EndpointId) -> Result<Vec<u8>, SwapFault> {
        self.disk.read(alloc, key)
    }
}

impl Look for FarDisk {
    fn look(&self, key: EndpointId) -> Option<&[u8]> {
        self.disk.look(key)
    }
}
