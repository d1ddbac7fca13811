//! Packets by their links and their numbers there.

ghost use Rattle.std.specs.Prelude.{◌≡◌, ◌||◌, OnOk};
ghost use Rattle.std.specs.Option.{option_or};
ghost use Rattle.am_lab_picture.specs.Ways as ways;
ghost use Rattle.am_lab_picture.specs.Ways.{has_way, place_for, place_in, receives};
ghost use Rattle.am_names.specs.declared.Way.{Way};

use am_iface::emitted_of;
use am_names::Way;
use am_office_entries::{Entry, Event};
use std::alloc::AllocError;
use std::collections::{BTreeMap, BTreeSet};

fn emitted_way(entry: &Entry) -> Option<Way>
    ensures { result ≡ ways.emitted_way entry.now }
{
    match emitted_of(entry) {
        Some(packet) => Some(packet.way()),
        None => None,
    }
}

/// The packet that an event receives, if it receives one.
pub(crate) fn received_way(event: Event) -> Option<Way>
    ensures { result ≡ ways.received_way event }
{
    match event {
        Event::Receive { node, peer, number } => Some(Way {
            from: peer,
            to: node,
            number,
        }),
        _ => None,
    }
}

/// The place of an entry, if it emits a packet and is the first for this packet.
pub(crate) fn note_emitter(
    places: &mut BTreeMap<Way, usize>,
    entry: &Entry,
    place: usize,
) -> Result<(), AllocError>
    ensures { OnOk result ((w : Way) → place_in places.new w ≡ option_or (place_in places.old w) (place_for w (ways.emitted_way entry.now) place)) }
{
    let Some(way) = emitted_way(entry) else {
        return Ok(());
    };
    if !places.contains_key(&way) {
        places.insert(way, place)?;
    }
    Ok(())
}

/// The packet that an entry receives, if it receives one.
pub(crate) fn note_received(set: &mut BTreeSet<Way>, entry: &Entry) -> Result<(), AllocError>
    ensures { OnOk result ((w : Way) → has_way set.new w ≡ (has_way set.old w || receives w entry.now)) }
{
    if let Some(way) = received_way(entry.event) {
        set.insert(way)?;
    }
    Ok(())
}
