//! What holds bytes for endpoints.

ghost use Rattle.am_names.specs.declared.EndpointId.{EndpointId};
ghost use Rattle.am_swap_device.specs.Causes.{Device, FailsAsTold, HoldsSame, IsCaused, IsCounted, Writes, fault_of};
ghost use Rattle.am_swap_device.specs.declared.swap.SwapFault.{SwapFault};
ghost use Rattle.std.specs.Prelude.{◌≡◌, ◌↔◌, ℕ, List, Option, None, Some, IfOk, IsSome};
ghost use Rattle.std.specs.Option.{option_copied};

use am_names::EndpointId;
use std::alloc::Global;
use thiserror::Error;

/// Why a swap did nothing.
#[derive(Clone, Copy, Debug, PartialEq, Eq, Error)]
pub enum SwapFault {
    /// The device failed: its count of faults rose, or stands at its end.
    #[error("the swap device failed")]
    Failed,
    /// There is no memory for the call. It isn't counted.
    #[error("there is no memory for the swap device")]
    NoMemory,
}

/// A device that holds bytes for endpoints. The number of a call of `write` or `read` is one more than the number of
/// such calls before it, those aside that found no memory. Both counts stand still at 2^64-1.
pub trait Swap {
    /// What it holds for each key (None where the key wasn't written), the numbers of the calls that fail, where it is
    /// told, and how many calls there were.
    ghost device: { Self → Device };

    /// How many calls have failed.
    ghost count: { Self → ℕ };

    /// What more the device tells of a call, by what it was before and after: of a write of these bytes for the key, or of
    /// a read, with the fault that it answered, if any.
    ghost tells: { Self → Self → EndpointId → Option (List ℕ) → Option SwapFault → Type 0 };

    /// How many calls have failed.
    fn faults(&self) -> u64
        ensures { result ≡ count self.now };

    /// Holds these bytes for the key from now on, in the place of what it held for it. `Failed` comes only where the
    /// count of faults rose, and, where it is told which calls fail, exactly at those. A refusal leaves what it held.
    fn write(&mut self, key: EndpointId, bytes: &[u8]) -> Result<(), SwapFault>
        ensures held { Writes result (device self.old).held (device self.new).held key bytes.now }
        ensures fails { (device self.new).fails ≡ (device self.old).fails }
        ensures calls { IsCounted result (device self.old).calls (device self.new).calls }
        ensures cause { IsCaused result (count self.old) (count self.new) }
        ensures told { FailsAsTold result (device self.old).fails (device self.old).calls }
        ensures tells { tells self.old self.new key (Some bytes.now) (fault_of result) };

    /// Gives what it holds for the key, which was written. `Failed` comes as in `write`. What it holds stays.
    fn read(&mut self, alloc: Global, key: EndpointId) -> Result<Vec<u8>, SwapFault>
        requires { IsSome ((device self.old).held key) }
        ensures bytes { IfOk result (λ bytes. (device self.old).held key ≡ Some bytes.items) }
        ensures held { HoldsSame (device self.old).held (device self.new).held }
        ensures fails { (device self.new).fails ≡ (device self.old).fails }
        ensures calls { IsCounted result (device self.old).calls (device self.new).calls }
        ensures cause { IsCaused result (count self.old) (count self.new) }
        ensures told { FailsAsTold result (device self.old).fails (device self.old).calls }
        ensures tells { tells self.old self.new key None (fault_of result) };
}

/// A device that shows what it holds without a call.
pub trait Look: Swap {
    /// What it holds for the key, and None exactly where the key wasn't written: what a read of the key gives now, unless
    /// it fails or finds no memory. It is no call of `write` or `read`: it isn't counted, and changes nothing.
    fn look(&self, key: EndpointId) -> Option<&[u8]>
        ensures bytes { option_copied result ≡ (Self.device self.now).held key }
        ensures none { (result ≡ None) ↔ ((Self.device self.now).held key ≡ None) };
}
