//! The end of a relay that receives.

use crate::sending::RelayOut;
use crate::stamping::Stamping;
use rtrb::Consumer;

/// The end of a relay that receives.
///
/// ```
/// if let Some(number) = inn.next() {
///     use_it(number);
/// }
/// ```
#[derive(Drop)]
pub struct RelayIn<T: Copy> {
    pub(crate) consumer: Consumer<T>,
}

impl<T: Copy> RelayIn<T> {
    ghost use Rattle.std.specs.Prelude.{◌≡◌, ◌<◌, [], ◌∷◌, ◌++◌, MatchOption};
    ghost use mathlib.Core.List.{IsPrefix};
    ghost use Rattle.am_wire_relay.specs.Relays.{AreEnds, SameIn, SameOut, emitted, known, pumped, received, spare, store};

    /// The next item that came through the relay, if one is seen. `None` decides nothing.
    ///
    /// ```
    /// if let Some(number) = inn.next() {
    ///     use_it(number);
    /// }
    /// ```
    pub fn next(&mut self) -> Option<T>
        ensures received { MatchOption result (received self.new ≡ received self.old) (λ item. received self.new ≡ received self.old ++ item ∷ []) }
        ensures known { MatchOption result (known self.old ≡ []) (λ item. IsPrefix (known self.old) (item ∷ known self.new)) }
        ensures same { SameIn self.old self.new }
    {
        self.consumer.pop().ok()
    }

    /// For both ends in one thread: this end then knows of each item that was pumped and not received, and `next` gives these
    /// one after the other. It takes no memory.
    ///
    /// ```
    /// inn.beside(&mut out);
    /// while let Some(number) = inn.next() {
    ///     use_it(number);
    /// }
    /// ```
    pub fn beside<S: Stamping<T>>(&mut self, out: &mut RelayOut<T, S>)
        requires { AreEnds out.old self.old }
        ensures known { received self.new ++ known self.new ≡ pumped out.new }
        ensures received { received self.new ≡ received self.old }
        ensures same { SameIn self.old self.new }
        ensures out_same { SameOut out.old out.new }
        ensures out_emitted { emitted out.new ≡ emitted out.old }
        ensures out_pumped { pumped out.new ≡ pumped out.old }
        ensures out_store { store out.new ≡ store out.old }
        ensures out_spare { spare out.new ≡ spare out.old }
    {
        self.consumer.slots_beside(&mut out.producer);
    }
}
