//! The end of a relay that emits.

ghost use Rattle.std.specs.Prelude.{◌≡◌, ◌≤◌, take, length, []};
ghost use Rattle.rtrb.specs.Ring.{sent};
ghost use Rattle.am_wire_release.specs.Faults.{said};
ghost use Rattle.am_wire_release.specs.Stages.{held_after};
ghost use Rattle.am_wire_relay.specs.Shapes.{shape};

use crate::stamping::{Stamping, release_stamped};
use am_names::NoMemory;
use am_wire_release::{LinkFaults, Stage};
use rtrb::Producer;
use std::marker::PhantomData;

/// The end of a relay that emits. What it released, by its faults, is pumped into the ring to the other end.
///
/// ```
/// let (mut out, mut inn) = make_relay::<Number, NumberStamps>(alloc, faults)?;
/// out.offer(number)?;
/// out.pump();
/// ```
#[derive(Drop)]
pub struct RelayOut<T: Copy, S: Stamping<T>> {
    pub(crate) producer: Producer<T>,
    pub(crate) faults: LinkFaults,
    pub(crate) emitted: Vec<T>,
    pub(crate) stage: Stage<T>,
    /// What the emissions released, in order.
    pub(crate) released: Vec<T>,
    /// How many of these were put into the ring.
    pub(crate) pumped: usize,
    pub(crate) stamping: PhantomData<S>,
    ghost shaped: { released.items ≡ shape S.stamp_of S.restamped (said faults) emitted.items },
    ghost held: { stage.held ≡ held_after (said faults) emitted.items },
    ghost taken: { stage.released ≡ [] },
    ghost within: { pumped ≤ length released.items },
    ghost moved: { sent producer ≡ take pumped released.items },
}

impl<T: Copy, S: Stamping<T>> RelayOut<T, S> {
    ghost use Rattle.std.specs.Prelude.{◌≡◌, ◌⊎◌, ◌≤◌, [], ◌∷◌, ◌++◌, OnOk, OnErr};
    ghost use mathlib.Core.List.{IsPrefix};
    ghost use Rattle.am_wire_relay.specs.Shapes.{shape};
    ghost use Rattle.am_wire_relay.specs.Relays.{SameOut, emitted, faults_of, free_places, pumped, spare, store, waiting};

    /// Makes room for one more emission. `NoMemory` comes only where there is none for it; either way nothing else changes, and
    /// no room is lost.
    pub fn room(&mut self) -> Result<(), NoMemory>
        ensures ok { OnOk result (1 ≤ spare self.new) }
        ensures err { OnErr result (spare self.new ≡ spare self.old) }
        ensures same { SameOut self.old self.new }
        ensures emitted { emitted self.new ≡ emitted self.old }
        ensures pumped { pumped self.new ≡ pumped self.old }
    {
        self.stage.room()?;
        let more = self.stage.held().len() + 2;
        if self.released.reserve(more).is_err() {
            return Err(NoMemory);
        }
        match self.emitted.reserve(1) {
            Ok(()) => Ok(()),
            Err(_) => Err(NoMemory),
        }
    }

    /// Emits an item, for which there is room. It takes no memory: the store of the relay stays as large as it was.
    ///
    /// ```
    /// out.room()?;
    /// out.offer_ready(number);
    /// ```
    pub fn offer_ready(&mut self, item: T)
        requires spare { 1 ≤ spare self.old }
        ensures same { SameOut self.old self.new }
        ensures emitted { emitted self.new ≡ emitted self.old ++ item ∷ [] }
        ensures pumped { pumped self.new ≡ pumped self.old }
        ensures store { store self.new ≡ store self.old }
    {
        let place = self.emitted.len() as u64 + 1;
        let fault = self.faults.fault(place);
        let stamp = S::stamp(&item);
        self.stage.emit(place, fault, item);
        release_stamped::<T, S>(&mut self.released, self.stage.released(), stamp);
        self.stage.take_released();
        self.emitted.push_reserved(item);
    }

    /// Emits an item. `NoMemory` comes only where there is no room for it and none can be made: nothing is emitted then.
    pub fn offer(&mut self, item: T) -> Result<(), NoMemory>
        ensures same { SameOut self.old self.new }
        ensures ok { OnOk result (emitted self.new ≡ emitted self.old ++ item ∷ []) }
        ensures err { OnErr result (emitted self.new ≡ emitted self.old) }
        ensures pumped { pumped self.new ≡ pumped self.old }
    {
        self.room()?;
        self.offer_ready(item);
        Ok(())
    }

    /// Moves released items into the ring while it takes them: until none waits, or no place is known to be free. It takes no
    /// memory.
    ///
    /// ```
    /// out.offer(number)?;
    /// out.pump();
    /// ```
    pub fn pump(&mut self)
        ensures same { SameOut self.old self.new }
        ensures store { store self.new ≡ store self.old }
        ensures spare { spare self.new ≡ spare self.old }
        ensures emitted { emitted self.new ≡ emitted self.old }
        ensures moved { IsPrefix (pumped self.old) (pumped self.new) }
        ensures order { pumped self.new ++ waiting self.new ≡ shape S.stamp_of S.restamped (faults_of self.new) (emitted self.new) }
        ensures whole { (waiting self.new ≡ []) ⊎ (free_places self.new ≡ 0) }
    {
        while self.pumped < self.released.len() {
            if self.producer.push(self.released[self.pumped]).is_err() {
                return;
            }
            self.pumped += 1;
        }
    }
}
