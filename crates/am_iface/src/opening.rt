//! What an interface has before any entry.

ghost use Rattle.am_channel.specs.Ends.{new_ends};
ghost use Rattle.std.specs.Prelude.{◌≡◌, IfOk, replicate};

use am_channel::Ends;
use am_office_entries::NoMemory;
use std::alloc::Global;

/// Four ends for each of 16 peers, on which no call was made.
pub(crate) fn unused_ends(alloc: Global) -> Result<Vec<Ends>, NoMemory>
    ensures { IfOk result (λ v. v.items ≡ replicate 64 new_ends) }
{
    Ok(vec![in alloc; Ends::new(); 64]?)
}

/// 0 for each of 16 peers.
pub(crate) fn no_emissions(alloc: Global) -> Result<Vec<u32>, NoMemory>
    ensures { IfOk result (λ v. v.items ≡ replicate 16 0) }
{
    Ok(vec![in alloc; 0; 16]?)
}
