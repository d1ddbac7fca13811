//! What the stage of a link releases is the shape of the link.

ghost use Rattle.am_wire_release.specs.Laws.{HoldsOn, NumbersLeave, PacketsLeave};

use am_names::Packet;

/// A stage that took all emissions so far and then one more releases what that emission has in the shape of the link,
/// whether the packets went through it or only their numbers, and holds back what all these emissions hold back.
pub fn stages_release_the_shape()
    ensures packets { PacketsLeave }
    ensures numbers { NumbersLeave }
    ensures held { HoldsOn Packet }
{}
