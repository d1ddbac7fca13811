//! An entry as a JSON object.

ghost use Rattle.am_lab_page.specs.Json.Objects as objects;
ghost use Rattle.am_lab_page.specs.Json.Objects.{fate_of, link_part, object_line, packet_value, place_part, serial_value, way_value};
ghost use Rattle.am_lemmas.specs.Numbered.{numbered};
ghost use Rattle.std.specs.Prelude.{◌≡◌, ◌<◌, ◌^◌, ◌++◌, IfOk, OnOk, length};

use crate::json::texts::put_texts;
use am_iface::emitted_of;
use am_lab_picture::{Named, Row};
use am_names::{NoMemory, Packet, Way};
use am_office_entries::Fate;
use am_office_text::LinePiece::{Number, Text};
use am_office_text::{LinePiece, count, put_word, small};
use std::alloc::{AllocError, Global};

#[tactic(auto, using(std::proofs::Common::append_assoc), unfolding(crate::specs::Json::Objects::place_part))]
fn put_place(out: &mut Vec<u8>, line: u64, stamp: u64) -> Result<(), AllocError>
    ensures { OnOk result (out.new.items ≡ out.old.items ++ place_part line stamp) }
{
    put_word(out, Text("{\"line\":"))?;
    put_word(out, Number(line))?;
    put_word(out, Text(",\"stamp\":"))?;
    put_word(out, Number(stamp))
}

// Appends the serial of a message in quotes, or that there is none.
#[tactic(auto, using(std::proofs::Common::append_assoc), unfolding(crate::specs::Json::Objects::quoted))]
fn put_serial(out: &mut Vec<u8>, named: Option<Named>) -> Result<(), AllocError>
    ensures { OnOk result (out.new.items ≡ out.old.items ++ serial_value named) }
{
    let Some(named) = named else {
        return put_word(out, Text("null"));
    };
    put_word(out, Text("\""))?;
    put_word(out, LinePiece::Serial(named.serial))?;
    put_word(out, Text("\""))
}

// The word of a fate in quotes, or that there is none.
#[tactic(auto, unfolding(crate::specs::Json::Objects::fate_value))]
fn fate_text(fate: Option<Fate>) -> &'static str
    ensures { result.now ≡ objects.fate_value fate }
{
    match fate {
        None => "null",
        Some(Fate::Ran) => "\"ran\"",
        Some(Fate::Returned(_)) => "\"returned\"",
        Some(Fate::Unknown) => "\"unknown\"",
        Some(Fate::UnknownButRan) => "\"unknown-but-ran\"",
        Some(Fate::Pending) => "\"pending\"",
    }
}

fn fate_of(named: Option<Named>) -> &'static str
    ensures { result.now ≡ fate_of named }
{
    match named {
        None => "null",
        Some(named) => fate_text(named.fate),
    }
}

// Appends the messages that an entry names.
#[tactic(auto, using(std::proofs::Common::append_assoc), unfolding(crate::specs::Json::Objects::message_part))]
fn put_messages(out: &mut Vec<u8>, row: &Row) -> Result<(), AllocError>
    ensures { OnOk result (out.new.items ≡ out.old.items ++ objects.message_part row.now) }
{
    put_word(out, Text(",\"serial\":"))?;
    put_serial(out, row.about)?;
    put_word(out, Text(",\"fate\":"))?;
    put_word(out, Text(fate_of(row.about)))?;
    put_word(out, Text(",\"reply\":"))?;
    put_serial(out, row.reply)
}

#[tactic(auto, using(std::proofs::Common::append_assoc), unfolding(crate::specs::Json::Objects::link_part))]
fn put_link(out: &mut Vec<u8>, from: u8, to: u8) -> Result<(), AllocError>
    ensures { OnOk result (out.new.items ≡ out.old.items ++ link_part from to) }
{
    put_word(out, Text("{\"from\":"))?;
    put_word(out, small(from))?;
    put_word(out, Text(",\"to\":"))?;
    put_word(out, small(to))
}

#[tactic(auto, using(std::proofs::Common::append_assoc), unfolding(crate::specs::Json::Objects::way_value))]
fn put_way(out: &mut Vec<u8>, way: Way) -> Result<(), AllocError>
    ensures { OnOk result (out.new.items ≡ out.old.items ++ way_value way) }
{
    put_link(out, way.from.0, way.to.0)?;
    put_word(out, Text(",\"number\":"))?;
    put_word(out, count(way.number))?;
    put_word(out, Text("}"))
}

fn put_packet(out: &mut Vec<u8>, packet: Option<Packet>) -> Result<(), AllocError>
    ensures { OnOk result (out.new.items ≡ out.old.items ++ packet_value packet) }
{
    match packet {
        Some(packet) => put_way(out, packet.way()),
        None => put_word(out, Text("null")),
    }
}

// Appends the line of an entry's object.
#[tactic(auto, using(std::proofs::Common::append_assoc))]
fn put_object(out: &mut Vec<u8>, alloc: Global, line: u64, row: &Row) -> Result<(), NoMemory>
    ensures { OnOk result (out.new.items ≡ out.old.items ++ object_line line row.now) }
{
    put_place(out, line, row.entry.stamp)?;
    put_texts(out, alloc, &row.entry)?;
    put_messages(out, row)?;
    put_word(out, Text(",\"packet\":"))?;
    put_packet(out, emitted_of(&row.entry))?;
    put_word(out, Text("}\n"))?;
    Ok(())
}

fn put_objects(out: &mut Vec<u8>, alloc: Global, rows: &[Row]) -> Result<(), NoMemory>
    requires { length rows.now < 2 ^ 31 }
    ensures { OnOk result (out.new.items ≡ out.old.items ++ numbered object_line 3 rows.now) }
{
    let mut line: u64 = 3;
    for row in rows {
        put_object(out, alloc, line, row)?;
        line += 1;
    }
    Ok(())
}

/// The lines of the objects of rows, of which the first stands in line 3 of its report.
///
/// `NoMemory` comes where there is none for the lines; then nothing is left of them.
pub fn objects_text(alloc: Global, rows: &[Row]) -> Result<Vec<u8>, NoMemory>
    requires { length rows.now < 2 ^ 31 }
    ensures { IfOk result (λ text. text.items ≡ numbered object_line 3 rows.now) }
{
    let mut out = Vec::new(alloc);
    put_objects(&mut out, alloc, rows)?;
    Ok(out)
}
