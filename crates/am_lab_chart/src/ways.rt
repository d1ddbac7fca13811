//! The ways of packets.

ghost use Rattle.std.specs.Prelude.{◌≡◌, ◌≤◌, ◌++◌, OnOk, map};
ghost use Rattle.am_lab_picture.specs.Layout.Layout.{IsDrawable};
ghost use Rattle.am_lab_chart.specs.Ways as ways;
ghost use Rattle.am_lab_xml.specs.Trees.{each, printed};
ghost use Rattle.am_office_text.specs.Pieces.{word_of};

use crate::captions::put_titled;
use am_lab_picture::layout::{class_of, head_of, opacity, packet_dashes, x_of_interface, y_of};
use am_lab_picture::{Arrow, Cross, Named, Picture};
use am_lab_xml::Attribute::{Number, Path, Word};
use am_lab_xml::Point;
use am_names::Packet;
use am_office_text::{LinePiece, count, small};
use std::alloc::{AllocError, Global};

fn message(about: Option<Named>) -> LinePiece
    ensures { word_of result ≡ ways.message about }
{
    match about {
        None => LinePiece::Text("-"),
        Some(about) => LinePiece::Serial(about.serial),
    }
}

// The words of the title of a packet's way.
fn way_title(
    about: Option<Named>,
    packet: Packet,
    line: u32,
    came: &'static str,
    end: LinePiece,
) -> [LinePiece; 11]
    ensures { map word_of result ≡ ways.way_title about packet line came.now (word_of end) }
{
    let way = packet.way();
    [
        message(about),
        LinePiece::Text(" packet "),
        count(way.number),
        LinePiece::Text(", "),
        small(way.from.0),
        LinePiece::Text(" to "),
        small(way.to.0),
        LinePiece::Text(", line "),
        count(line),
        LinePiece::Text(came),
        end,
    ]
}

fn arrow_title(arrow: Arrow) -> [LinePiece; 11]
    ensures { map word_of result ≡ ways.arrow_title arrow }
{
    way_title(
        arrow.about,
        arrow.packet,
        arrow.from,
        " to ",
        count(arrow.to),
    )
}

fn begin_x(picture: &Picture, left: u64, packet: Packet) -> u64
    requires drawable { IsDrawable picture.now }
    requires narrow { left ≤ 4000 }
    ensures exact { result ≡ ways.begin_x picture.now left packet }
    ensures low { result ≤ 60100 }
{
    x_of_interface(picture, left, packet.way().from)
}

fn end_x(picture: &Picture, left: u64, packet: Packet) -> u64
    requires drawable { IsDrawable picture.now }
    requires narrow { left ≤ 4000 }
    ensures { result ≡ ways.end_x picture.now left packet }
{
    x_of_interface(picture, left, packet.way().to)
}

#[tactic(auto, unfolding(crate::specs::Ways::straight, crate::specs::Captions::titled))]
fn put_straight(
    out: &mut Vec<u8>,
    alloc: Global,
    picture: &Picture,
    left: u64,
    arrow: Arrow,
) -> Result<(), AllocError>
    requires drawable { IsDrawable picture.now }
    requires narrow { left ≤ 4000 }
    ensures { OnOk result (out.new.items ≡ out.old.items ++ printed (ways.straight picture.now left arrow)) }
{
    let given = [
        Word("class", class_of(arrow.about)),
        Number("x1", begin_x(picture, left, arrow.packet)),
        Number("y1", y_of(picture, arrow.from)),
        Number("x2", end_x(picture, left, arrow.packet)),
        Number("y2", y_of(picture, arrow.to)),
        Word("stroke-dasharray", packet_dashes(arrow.packet)),
        Word("marker-end", head_of(arrow.about)),
        Word("opacity", opacity(arrow.counts)),
    ];
    put_titled(out, alloc, "line", &given, &arrow_title(arrow), &[])
}

#[tactic(auto, unfolding(crate::specs::Ways::arc, crate::specs::Captions::titled))]
fn put_arc(
    out: &mut Vec<u8>,
    alloc: Global,
    picture: &Picture,
    left: u64,
    arrow: Arrow,
) -> Result<(), AllocError>
    requires drawable { IsDrawable picture.now }
    requires narrow { left ≤ 4000 }
    ensures { OnOk result (out.new.items ≡ out.old.items ++ printed (ways.arc picture.now left arrow)) }
{
    let x = begin_x(picture, left, arrow.packet);
    let (y, end) = (y_of(picture, arrow.from), y_of(picture, arrow.to));
    let places = [
        Point { lead: "M", x, y },
        Point {
            lead: "C",
            x: x + 26,
            y,
        },
        Point {
            lead: " ",
            x: x + 26,
            y: end,
        },
        Point {
            lead: " ",
            x: x + 3,
            y: end,
        },
    ];
    let given = [
        Word("class", class_of(arrow.about)),
        Path("d", &places),
        Word("stroke-dasharray", packet_dashes(arrow.packet)),
        Word("marker-end", head_of(arrow.about)),
        Word("opacity", opacity(arrow.counts)),
    ];
    put_titled(out, alloc, "path", &given, &arrow_title(arrow), &[])
}

fn put_arrow(
    out: &mut Vec<u8>,
    alloc: Global,
    picture: &Picture,
    left: u64,
    arrow: Arrow,
) -> Result<(), AllocError>
    requires drawable { IsDrawable picture.now }
    requires narrow { left ≤ 4000 }
    ensures { OnOk result (out.new.items ≡ out.old.items ++ printed (ways.drawn_arrow picture.now left arrow)) }
{
    let way = arrow.packet.way();
    if way.from.0 == way.to.0 {
        put_arc(out, alloc, picture, left, arrow)
    } else {
        put_straight(out, alloc, picture, left, arrow)
    }
}

/// Appends arrows.
pub(crate) fn put_arrows(
    out: &mut Vec<u8>,
    alloc: Global,
    picture: &Picture,
    left: u64,
    arrows: &[Arrow],
) -> Result<(), AllocError>
    requires drawable { IsDrawable picture.now }
    requires narrow { left ≤ 4000 }
    ensures { OnOk result (out.new.items ≡ out.old.items ++ printed (each (ways.drawn_arrow picture.now left) arrows.now)) }
{
    for arrow in arrows {
        put_arrow(out, alloc, picture, left, *arrow)?;
    }
    Ok(())
}

fn lost_sign(leftwards: bool) -> &'static str
    ensures { result.now ≡ ways.lost_sign leftwards }
{
    if leftwards {
        "#lost-left"
    } else {
        "#lost-right"
    }
}

#[tactic(auto, unfolding(crate::specs::Ways::drawn_cross, crate::specs::Captions::titled))]
fn put_cross(
    out: &mut Vec<u8>,
    alloc: Global,
    picture: &Picture,
    left: u64,
    cross: Cross,
) -> Result<(), AllocError>
    requires drawable { IsDrawable picture.now }
    requires narrow { left ≤ 4000 }
    ensures { OnOk result (out.new.items ≡ out.old.items ++ printed (ways.drawn_cross picture.now left cross)) }
{
    let x = begin_x(picture, left, cross.packet);
    let sign = lost_sign(end_x(picture, left, cross.packet) < x);
    let given = [
        Word("href", sign),
        Number("x", x),
        Number("y", y_of(picture, cross.line)),
        Word("class", class_of(cross.about)),
        Word("stroke-dasharray", packet_dashes(cross.packet)),
    ];
    let nowhere = LinePiece::Text("");
    let told = way_title(
        cross.about,
        cross.packet,
        cross.line,
        ", not received",
        nowhere,
    );
    put_titled(out, alloc, "use", &given, &told, &[])
}

/// Appends crosses.
pub(crate) fn put_crosses(
    out: &mut Vec<u8>,
    alloc: Global,
    picture: &Picture,
    left: u64,
    crosses: &[Cross],
) -> Result<(), AllocError>
    requires drawable { IsDrawable picture.now }
    requires narrow { left ≤ 4000 }
    ensures { OnOk result (out.new.items ≡ out.old.items ++ printed (each (ways.drawn_cross picture.now left) crosses.now)) }
{
    for cross in crosses {
        put_cross(out, alloc, picture, left, *cross)?;
    }
    Ok(())
}
