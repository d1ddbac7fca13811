//! How far stamps rise.

ghost use Rattle.am_model.specs.Parts.{last_stamp};
ghost use Rattle.std.specs.Prelude.{◌↔◌, ◌≤◌, ◌^◌, IsTrue, max};

use am_endpoint::Endpoint;

/// No stamp of 2^63 or more is followed by another.
pub const LAST: u64 = 1 << 63;

/// Whether the clock or the endpoint's last stamp is 2^63 or more.
pub fn is_spent(clock: u64, end: &Endpoint) -> bool
    ensures { IsTrue result ↔ (2 ^ 63 ≤ max clock (last_stamp end.now.log)) }
{
    clock.max(end.last_stamp()) >= LAST
}
