//! The arrows and the crosses of a picture.

ghost use Rattle.std.specs.Prelude.{◌≡◌, ◌+◌, ◌≤◌, ◌<◌, ◌^◌, ◌++◌, IfOk, OnOk, length};
ghost use Rattle.am_lab_picture.specs.Arrows as arrows;
ghost use Rattle.am_lab_picture.specs.Ways.{emitter};

use crate::abouts::about_of;
use crate::data::{Arrow, Cross, Lines};
use crate::entries::{entries_in, named_by};
use crate::journals::IndexedJournal;
use crate::ways::received_way;
use am_iface::emitted_of;
use am_names::{Packet, Way};
use am_office_entries::{Entry, Outcome, Received};
use std::alloc::{AllocError, Global};

fn does_count(received: Received) -> bool
    ensures { result ≡ arrows.does_count received }
{
    match received {
        Received::Accepted { .. }
        | Received::Refused { .. }
        | Received::Delivered(_)
        | Received::Requeued { .. }
        | Received::Returned { .. } => true,
        Received::Again { .. } | Received::Stale | Received::Nothing => false,
    }
}

fn counts(outcome: Outcome) -> bool
    ensures { result ≡ arrows.counts outcome }
{
    match outcome {
        Outcome::Received { result, .. } => does_count(result),
        _ => false,
    }
}

fn arrow_of(
    journal: &IndexedJournal,
    line: u32,
    entry: &Entry,
    place: usize,
    emitter: &Entry,
) -> Option<Arrow>
    requires { place + 3 < 2 ^ 32 }
    ensures { result ≡ arrows.arrow_at journal.now line entry.now place (Some emitter.now) }
{
    match emitted_of(emitter) {
        Some(packet) => Some(Arrow {
            from: place as u32 + 3,
            to: line,
            packet,
            about: named_by(journal, about_of(emitter)),
            counts: counts(entry.outcome),
        }),
        None => None,
    }
}

fn arrow_from(journal: &IndexedJournal, line: u32, entry: &Entry, place: usize) -> Option<Arrow>
    requires { length journal.now + 3 < 2 ^ 32 }
    ensures { result ≡ arrows.arrow_from journal.now line entry.now (Some place) }
{
    match journal.entries().get(place) {
        Some(emitter) => arrow_of(journal, line, entry, place, emitter),
        None => None,
    }
}

fn arrow_by(journal: &IndexedJournal, line: u32, entry: &Entry, way: Way) -> Option<Arrow>
    requires { length journal.now + 3 < 2 ^ 32 }
    ensures { result ≡ arrows.arrow_from journal.now line entry.now (emitter journal.now way) }
{
    match journal.emitter(way) {
        Some(place) => arrow_from(journal, line, entry, place),
        None => None,
    }
}

// The arrow that ends at an entry, if the entry receives a packet.
fn arrow(journal: &IndexedJournal, line: u32, entry: &Entry) -> Option<Arrow>
    requires { length journal.now + 3 < 2 ^ 32 }
    ensures { result ≡ arrows.arrow journal.now line entry.now }
{
    match received_way(entry.event) {
        Some(way) => arrow_by(journal, line, entry, way),
        None => None,
    }
}

fn is_among(lines: Lines, line: u32) -> bool
    requires { lines.first + lines.count < 2 ^ 32 }
    ensures { result ≡ arrows.is_among lines line }
{
    lines.first <= line && line < lines.first + lines.count
}

fn is_shown(lines: Lines, arrow: &Arrow) -> bool
    requires { lines.first + lines.count < 2 ^ 32 }
    ensures { result ≡ arrows.is_shown lines arrow.now }
{
    is_among(lines, arrow.from) || is_among(lines, arrow.to)
}

fn put_if_shown(
    shown: &mut Vec<Arrow>,
    lines: Lines,
    arrow: Option<Arrow>,
) -> Result<(), AllocError>
    requires { lines.first + lines.count < 2 ^ 32 }
    ensures { OnOk result (shown.new.items ≡ shown.old.items ++ arrows.if_shown lines arrow) }
{
    match arrow {
        Some(arrow) if is_shown(lines, &arrow) => {
            shown.push(arrow)?;
            Ok(())
        }
        _ => Ok(()),
    }
}

/// The arrows of the journal that begin or end in some of its lines, in the order of their ends (`arrows` of
/// specs/Arrows). `AllocError` comes where there is no memory for them.
pub fn arrows(
    alloc: Global,
    journal: &IndexedJournal,
    lines: Lines,
) -> Result<Vec<Arrow>, AllocError>
    requires few { length journal.now + 3 < 2 ^ 32 }
    requires within { lines.first + lines.count ≤ length journal.now + 3 }
    ensures { IfOk result (λ made. made.items ≡ arrows.arrows lines journal.now) }
{
    let entries = journal.entries();
    let mut made = Vec::new(alloc);
    let mut line: u32 = 3;
    for entry in entries {
        put_if_shown(&mut made, lines, arrow(journal, line, entry))?;
        line += 1;
    }
    Ok(made)
}

fn put_cross_of(
    made: &mut Vec<Cross>,
    journal: &IndexedJournal,
    line: u32,
    entry: &Entry,
    packet: Packet,
) -> Result<(), AllocError>
    ensures { OnOk result (made.new.items ≡ made.old.items ++ arrows.cross_by journal.now line entry.now (Some packet)) }
{
    if journal.is_received(packet.way()) {
        return Ok(());
    }
    made.push(Cross {
        line,
        packet,
        about: named_by(journal, about_of(entry)),
    })?;
    Ok(())
}

fn put_cross(
    made: &mut Vec<Cross>,
    journal: &IndexedJournal,
    line: u32,
    entry: &Entry,
) -> Result<(), AllocError>
    ensures { OnOk result (made.new.items ≡ made.old.items ++ arrows.cross journal.now line entry.now) }
{
    match emitted_of(entry) {
        Some(packet) => put_cross_of(made, journal, line, entry, packet),
        None => Ok(()),
    }
}

/// The packets that are emitted in some lines and that no entry of the journal receives, in order (`crosses` of
/// specs/Arrows). `AllocError` comes where there is no memory for them.
pub fn crosses(
    alloc: Global,
    journal: &IndexedJournal,
    lines: Lines,
) -> Result<Vec<Cross>, AllocError>
    requires few { length journal.now + 3 < 2 ^ 32 }
    requires first { 3 ≤ lines.first }
    requires within { lines.first + lines.count ≤ length journal.now + 3 }
    ensures { IfOk result (λ made. made.items ≡ arrows.crosses lines journal.now) }
{
    let shown = entries_in(journal, lines);
    let mut made = Vec::new(alloc);
    let mut line = lines.first;
    for entry in shown {
        put_cross(&mut made, journal, line, entry)?;
        line += 1;
    }
    Ok(made)
}
