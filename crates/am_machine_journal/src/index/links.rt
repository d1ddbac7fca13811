//! The packets of all links.

ghost use Rattle.am_machine_journal.specs.Index.Kept.{has_space, items_of};
ghost use Rattle.am_machine_journal.specs.Index.Places.{delivered, link_of};
ghost use Rattle.std.specs.Prelude.{◌≡◌, ◌<◌, [], true, false, length, map, vec_len, IfOk, IfSome, OnOk, All, slice_index_or};

use crate::index::places::link;
use am_names::Packet;
use am_office_entries::{NoMemory, growth};
use std::alloc::Global;

/// No packets on any link.
pub(crate) fn no_packets(alloc: Global) -> Result<Vec<Vec<Packet>>, NoMemory>
    ensures len { IfOk result (λ links. vec_len links ≡ 256) }
    ensures none { IfOk result (λ links. All (λ packets. packets.items ≡ []) links.items) }
{
    let mut links = Vec::new(alloc);
    for i in 0..256u16 {
        let Ok(()) = links.push(Vec::new(alloc)) else {
            return Err(NoMemory);
        };
    }
    Ok(links)
}

/// Makes room for one more packet on a link.
pub(crate) fn space_on(links: &mut Vec<Vec<Packet>>, place: usize) -> Result<(), NoMemory>
    requires { place < length links.old.items }
    ensures same { map items_of links.new.items ≡ map items_of links.old.items }
    ensures space { OnOk result (slice_index_or (map has_space links.new.items) place false ≡ true) }
{
    let more = growth(&links[place]);
    match links[place].reserve(more) {
        Ok(()) => Ok(()),
        Err(_) => Err(NoMemory),
    }
}

/// The place of the link that a packet goes over.
fn link_of(packet: &Packet) -> usize
    ensures { result ≡ link_of packet.now }
{
    match packet {
        Packet::Parcel(p) => link(p.from, p.to),
        Packet::Answer(p) => link(p.from, p.to),
    }
}

/// Puts a packet, if there is one, last on its link.
pub(crate) fn deliver(links: &mut Vec<Vec<Packet>>, packet: Option<Packet>)
    requires within { IfSome packet (λ p. link_of p < length links.old.items) }
    requires space { IfSome packet (λ p. slice_index_or (map has_space links.old.items) (link_of p) false ≡ true) }
    ensures { map items_of links.new.items ≡ delivered packet (map items_of links.old.items) }
{
    if let Some(packet) = packet {
        links[link_of(&packet)].push(packet).unwrap();
    }
}
