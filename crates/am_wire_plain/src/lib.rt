//! Relays without faults, for items that bear no stamp: what comes is what was sent. The two ends are those of `am_wire_relay`,
//! with its calls between `make_plain` and `close_plain`.
#![tactic(auto)]

ghost use Rattle.std.specs.Prelude.{◌≡◌, [], ◌++◌, IfOk};
ghost use Rattle.am_wire_relay.specs.Relays.{AreEnds, emitted, free_places, pumped, received};
ghost use Rattle.am_wire_plain.specs.Plain.{IsFaultless};

use am_names::NoMemory;
use am_wire_relay::{RelayIn, RelayOut, RelayRecord, Stamping, close_relay, make_relay};
use am_wire_release::LinkFaults;
use std::alloc::Global;

/// The stamping of items that bear no stamp: each leaves the relay as it was emitted.
///
/// ```
/// let (out, inn) = make_relay::<Number, Plain>(alloc, faults)?;
/// ```
pub struct Plain;

impl<T> Stamping<T> for Plain {
    ghost use Rattle.am_wire_plain.specs.Plain.{no_stamp, unchanged};

    ghost stamp_of = { no_stamp };

    ghost restamped = { unchanged };

    fn stamp(_item: &T) -> u64 {
        0
    }

    fn restamp(item: T, _stamp: u64) -> T {
        item
    }
}

/// A relay without faults on which nothing was emitted. `NoMemory` comes only for want of memory.
///
/// ```
/// let (mut out, mut inn) = make_plain::<Number>(alloc)?;
/// ```
pub fn make_plain<T: Copy + Send>(
    alloc: Global,
) -> Result<(RelayOut<T, Plain>, RelayIn<T>), NoMemory>
    ensures ends { IfOk result (λ ends. AreEnds ends.0 ends.1) }
    ensures faultless { IfOk result (λ ends. IsFaultless ends.0) }
    ensures emitted { IfOk result (λ ends. emitted ends.0 ≡ []) }
    ensures pumped { IfOk result (λ ends. pumped ends.0 ≡ []) }
    ensures received { IfOk result (λ ends. received ends.1 ≡ []) }
    ensures places { IfOk result (λ ends. free_places ends.0 ≡ 64) }
{
    make_relay(alloc, LinkFaults::new(alloc))
}

/// What was emitted, what was received, and what is left: received and then left are what was emitted, in order.
/// `NoMemory` comes only for want of memory; the relay is gone then.
///
/// ```
/// let all = close_plain(alloc, out, inn)?;
/// let is_done = all.left.is_empty();
/// ```
pub fn close_plain<T: Copy>(
    alloc: Global,
    out: RelayOut<T, Plain>,
    inn: RelayIn<T>,
) -> Result<RelayRecord<T>, NoMemory>
    requires ends { AreEnds out inn }
    requires faultless { IsFaultless out }
    ensures emitted { IfOk result (λ relay. relay.emitted.items ≡ emitted out) }
    ensures received { IfOk result (λ relay. relay.received.items ≡ received inn) }
    ensures whole { IfOk result (λ relay. relay.received.items ++ relay.left.items ≡ emitted out) }
{
    close_relay(alloc, out, inn)
}
