//! The end of a link that emits.

ghost use Rattle.std.specs.Prelude.{◌≡◌, ℕ};
ghost use Rattle.am_scenario_plan.specs.Shape.{fault_at};
ghost use Rattle.am_wire_relay.specs.Relays.{faults_of};

use crate::stamps::PacketStamps;
use am_names::{NoMemory, NodeId, Packet};
use am_scenario_plan::PlanLine;
use am_wire_relay::RelayOut;

/// The end of a link that emits. What it released, by its plan, is pumped into the ring to the other end.
///
/// ```
/// let (mut out, mut inn) = make_link(alloc, plan, NodeId(0), NodeId(1))?;
/// out.offer(packet)?;
/// out.pump();
/// ```
#[derive(Drop)]
pub struct LinkOut {
    /// Its faults are what the plan says of this link.
    pub(crate) relay: RelayOut<Packet, PacketStamps>,
    pub(crate) plan: Vec<PlanLine>,
    pub(crate) from: NodeId,
    pub(crate) to: NodeId,
    ghost planned: { (place : ℕ) → faults_of relay place ≡ fault_at plan.items from to place },
}

impl LinkOut {
    ghost use Rattle.std.specs.Prelude.{◌≡◌, ◌⊎◌, ◌≤◌, [], ◌∷◌, ◌++◌, OnOk, OnErr};
    ghost use mathlib.Core.List.{IsPrefix};
    ghost use Rattle.am_wire.specs.Links.{SameLink, emitted, free_places, pumped, released, spare, store, waiting};

    /// Makes room for one more emission. `NoMemory` comes only where there is none for it; either way nothing else changes, and
    /// no room is lost.
    pub fn room(&mut self) -> Result<(), NoMemory>
        ensures spare { OnOk result (1 ≤ spare self.new) }
        ensures err { OnErr result (spare self.new ≡ spare self.old) }
        ensures same { SameLink self.old self.new }
        ensures emitted { emitted self.new ≡ emitted self.old }
        ensures pumped { pumped self.new ≡ pumped self.old }
    {
        self.relay.room()
    }

    /// Emits a packet, for which there is room. It takes no memory: the store of the link stays as large as it was.
    ///
    /// ```
    /// out.room()?;
    /// out.offer_ready(packet);
    /// ```
    pub fn offer_ready(&mut self, packet: Packet)
        requires spare { 1 ≤ spare self.old }
        ensures same { SameLink self.old self.new }
        ensures emitted { emitted self.new ≡ emitted self.old ++ packet ∷ [] }
        ensures pumped { pumped self.new ≡ pumped self.old }
        ensures store { store self.new ≡ store self.old }
    {
        self.relay.offer_ready(packet);
    }

    /// Emits a packet. `NoMemory` comes only where there is no room for it and none can be made: nothing is emitted then.
    pub fn offer(&mut self, packet: Packet) -> Result<(), NoMemory>
        ensures same { SameLink self.old self.new }
        ensures ok { OnOk result (emitted self.new ≡ emitted self.old ++ packet ∷ []) }
        ensures err { OnErr result (emitted self.new ≡ emitted self.old) }
        ensures pumped { pumped self.new ≡ pumped self.old }
    {
        self.relay.offer(packet)
    }

    /// Moves released packets into the ring while it takes them: until none waits, or no place is known to be free. It
    /// takes no memory.
    ///
    /// ```
    /// out.offer(packet)?;
    /// out.pump();
    /// ```
    #[tactic(auto, using(crate::proofs::Packets::same_shape))]
    pub fn pump(&mut self)
        ensures same { SameLink self.old self.new }
        ensures store { store self.new ≡ store self.old }
        ensures spare { spare self.new ≡ spare self.old }
        ensures emitted { emitted self.new ≡ emitted self.old }
        ensures moved { IsPrefix (pumped self.old) (pumped self.new) }
        ensures order { pumped self.new ++ waiting self.new ≡ released self.new }
        ensures whole { (waiting self.new ≡ []) ⊎ (free_places self.new ≡ 0) }
    {
        self.relay.pump();
    }
}
