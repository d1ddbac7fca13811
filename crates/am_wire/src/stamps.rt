//! A packet leaves a link with the stamp of the emission that releases it.

ghost use Rattle.am_scenario_plan.specs.Shape.{stamp_of, stamped};

use am_names::Packet;
use am_wire_relay::Stamping;

/// How packets bear their stamps.
pub struct PacketStamps;

impl Stamping<Packet> for PacketStamps {
    ghost stamp_of = { stamp_of };

    ghost restamped = { stamped };

    fn stamp(packet: &Packet) -> u64 {
        match *packet {
            Packet::Parcel(parcel) => parcel.stamp,
            Packet::Answer(answer) => answer.stamp,
        }
    }

    fn restamp(packet: Packet, stamp: u64) -> Packet {
        match packet {
            Packet::Parcel(mut parcel) => {
                parcel.stamp = stamp;
                Packet::Parcel(parcel)
            }
            Packet::Answer(mut answer) => {
                answer.stamp = stamp;
                Packet::Answer(answer)
            }
        }
    }
}
