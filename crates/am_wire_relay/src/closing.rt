//! How a relay is made, and what went over it when it is closed.

ghost use Rattle.std.specs.Prelude.{◌≡◌, [], ◌++◌, IfOk};
ghost use Rattle.am_wire_release.specs.Faults.{said};
ghost use Rattle.am_wire_relay.specs.Shapes.{shape};
ghost use Rattle.am_wire_relay.specs.Relays.{AreEnds, emitted, faults_of, free_places, pumped, received};

use crate::receiving::RelayIn;
use crate::sending::RelayOut;
use crate::stamping::Stamping;
use am_names::NoMemory;
use am_wire_release::{LinkFaults, Stage};
use rtrb::RingBuffer;
use std::alloc::Global;
use std::marker::PhantomData;

/// How many items fit into the ring of a relay.
const RING_PLACES: usize = 64;

/// What went over a relay.
///
/// ```
/// let RelayRecord { emitted, received, left } = close_relay(alloc, out, inn)?;
/// ```
#[derive(Drop)]
pub struct RelayRecord<T> {
    /// The items that were emitted, in order.
    pub emitted: Vec<T>,
    /// The items that were received, in order.
    pub received: Vec<T>,
    /// The items that were released and not received, in order.
    pub left: Vec<T>,
}

/// A relay on which nothing was emitted, with these faults: what is said of an item's place, counted from 1. `NoMemory` comes
/// only for want of memory.
///
/// ```
/// let (out, inn) = make_relay::<Number, NumberStamps>(alloc, LinkFaults::new(alloc))?;
/// ```
pub fn make_relay<T: Copy + Send, S: Stamping<T> + Send>(
    alloc: Global,
    faults: LinkFaults,
) -> Result<(RelayOut<T, S>, RelayIn<T>), NoMemory>
    ensures ends { IfOk result (λ ends. AreEnds ends.0 ends.1) }
    ensures faults { IfOk result (λ ends. faults_of ends.0 ≡ said faults) }
    ensures emitted { IfOk result (λ ends. emitted ends.0 ≡ []) }
    ensures pumped { IfOk result (λ ends. pumped ends.0 ≡ []) }
    ensures received { IfOk result (λ ends. received ends.1 ≡ []) }
    ensures places { IfOk result (λ ends. free_places ends.0 ≡ 64) }
{
    let Ok((producer, consumer)) = RingBuffer::new(alloc, RING_PLACES) else {
        return Err(NoMemory);
    };
    let out = RelayOut {
        producer,
        faults,
        emitted: Vec::new(alloc),
        stage: Stage::new(alloc),
        released: Vec::new(alloc),
        pumped: 0,
        stamping: PhantomData,
    };
    Ok((movable(out), movable(RelayIn { consumer })))
}

/// Each end can be moved to another thread.
fn movable<T: Send>(end: T) -> T
    ensures { result ≡ end }
{
    end
}

/// What was emitted, what was received, and what is left: received and then left are the shape of what was emitted.
/// `NoMemory` comes only for want of memory; the relay is gone then.
///
/// ```
/// let all = close_relay(alloc, out, inn)?;
/// let is_done = all.left.is_empty();
/// ```
pub fn close_relay<T: Copy, S: Stamping<T>>(
    alloc: Global,
    out: RelayOut<T, S>,
    inn: RelayIn<T>,
) -> Result<RelayRecord<T>, NoMemory>
    requires { AreEnds out inn }
    ensures emitted { IfOk result (λ relay. relay.emitted.items ≡ emitted out) }
    ensures received { IfOk result (λ relay. relay.received.items ≡ received inn) }
    ensures shape { IfOk result (λ relay. relay.received.items ++ relay.left.items ≡ shape S.stamp_of S.restamped (faults_of out) (emitted out)) }
{
    let RelayOut {
        mut producer,
        emitted,
        released,
        pumped,
        ..
    } = out;
    let RelayIn { mut consumer } = inn;
    let known = consumer.slots_beside(&mut producer);
    let mut received = released;
    let mut left = Vec::new(alloc);
    let first_left = pumped - known;
    if left.extend_from_slice(&received[first_left..]).is_err() {
        return Err(NoMemory);
    }
    received.truncate(first_left);
    Ok(RelayRecord {
        emitted,
        received,
        left,
    })
}
