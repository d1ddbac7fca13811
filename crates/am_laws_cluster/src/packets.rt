//! What the packets of a history fit, and where a bound message is: so an interface can receive each packet that comes out of
//! a link, and settle each message that is bound. Each law is the contract of a function with an empty body.

ghost use Rattle.am_laws_cluster.specs.Packets.Packets.{FitsReceiver, IsAloft};
ghost use Rattle.am_model.specs.Channels.{Channel, bound_message, emitted};
ghost use Rattle.am_model.specs.History.{IsHistory};
ghost use Rattle.am_model.specs.Layout.{Layout};
ghost use Rattle.am_names.specs.declared.Message.{Message};
ghost use Rattle.am_names.specs.declared.NodeId.{NodeId};
ghost use Rattle.am_names.specs.declared.Packet.{Packet};
ghost use Rattle.am_office_entries.specs.declared.Entry.{Entry};
ghost use Rattle.std.specs.Prelude.{◌≡◌, ℕ, List, Some, false, slice_get};

/// Every packet of a link goes over one of the channels that there are. A parcel has a sequence from 1 and a well formed
/// message, whose destination is declared.
pub fn packets_fit_receivers()
    ensures { (layout : Layout) (past : List Entry) → IsHistory layout past → (node peer : NodeId) (place : ℕ) (p : Packet) → slice_get (emitted node peer past) place ≡ Some p → FitsReceiver layout p }
{}

/// On the packet network a bound message is in flight at its source, which is declared.
pub fn bound_messages_fly()
    ensures { (layout : Layout) (past : List Entry) → layout.direct ≡ false → IsHistory layout past → (c : Channel) (m : Message) → bound_message c past ≡ Some m → IsAloft layout past m }
{}
