//! The end of a link that receives.

use crate::sending::LinkOut;
use am_names::Packet;
use am_wire_relay::RelayIn;

/// The end of a link that receives.
///
/// ```
/// if let Some(packet) = inn.next() {
///     take(packet);
/// }
/// ```
#[derive(Drop)]
pub struct LinkIn {
    pub(crate) relay: RelayIn<Packet>,
}

impl LinkIn {
    ghost use Rattle.std.specs.Prelude.{◌≡◌, ◌<◌, [], ◌∷◌, ◌++◌, MatchOption};
    ghost use mathlib.Core.List.{IsPrefix};
    ghost use Rattle.am_wire.specs.Links.{IsLink, SameEnd, SameLink, emitted, known, pumped, received, spare, store};

    /// The next packet that came through the link, if one is seen. `None` decides nothing.
    ///
    /// ```
    /// if let Some(packet) = inn.next() {
    ///     take(packet);
    /// }
    /// ```
    pub fn next(&mut self) -> Option<Packet>
        ensures received { MatchOption result (received self.new ≡ received self.old) (λ packet. received self.new ≡ received self.old ++ packet ∷ []) }
        ensures known { MatchOption result (known self.old ≡ []) (λ packet. IsPrefix (known self.old) (packet ∷ known self.new)) }
        ensures same { SameEnd self.old self.new }
    {
        self.relay.next()
    }

    /// For both ends in one thread: this end then knows of each packet that was pumped and not received, and `next` gives
    /// these one after the other. It takes no memory.
    ///
    /// ```
    /// inn.beside(&mut out);
    /// while let Some(packet) = inn.next() {
    ///     take(packet);
    /// }
    /// ```
    pub fn beside(&mut self, out: &mut LinkOut)
        requires { IsLink out.old self.old }
        ensures known { received self.new ++ known self.new ≡ pumped out.new }
        ensures received { received self.new ≡ received self.old }
        ensures same { SameEnd self.old self.new }
        ensures out_same { SameLink out.old out.new }
        ensures out_emitted { emitted out.new ≡ emitted out.old }
        ensures out_pumped { pumped out.new ≡ pumped out.old }
        ensures out_store { store out.new ≡ store out.old }
        ensures out_spare { spare out.new ≡ spare out.old }
    {
        self.relay.beside(&mut out.relay);
    }
}
