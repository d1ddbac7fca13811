//! The bands of the nodes, and the heads of their lanes.

ghost use Rattle.std.specs.Prelude.{◌≡◌, ◌≤◌, ◌++◌, OnOk, map};
ghost use Rattle.am_lab_chart.specs.Lanes as lanes;
ghost use Rattle.am_lab_picture.specs.Layout.Layout.{IsDrawable};
ghost use Rattle.am_lab_xml.specs.Trees.{each, printed};
ghost use Rattle.am_office_text.specs.Pieces.{word_of};

use crate::captions::put_titled;
use am_lab_picture::layout::{
    TOP, band_left, band_width, bottom, has_interfaces, pages, x_of_end, x_of_interface,
};
use am_lab_picture::{Lane, Picture};
use am_lab_xml::Attribute::{Number, Word};
use am_lab_xml::put_empty;
use am_names::{NodeId, Tag};
use am_office_text::{LinePiece, small};
use std::alloc::{AllocError, Global};

// Appends words in the middle of a lane or a band.
#[tactic(auto, unfolding(crate::specs::Lanes::head))]
fn put_head(
    out: &mut Vec<u8>,
    alloc: Global,
    class: &'static str,
    x: u64,
    y: u64,
    size: &'static str,
    told: &[LinePiece],
    words: &[LinePiece],
) -> Result<(), AllocError>
    ensures { OnOk result (out.new.items ≡ out.old.items ++ printed (lanes.head class.now x y size.now (map word_of told.now) (map word_of words.now))) }
{
    let given = [
        Number("x", x),
        Number("y", y),
        Word("class", class),
        Word("font-size", size),
    ];
    put_titled(out, alloc, "text", &given, told, words)
}

// Appends a head again, behind each page of rows.
fn put_repeated(
    out: &mut Vec<u8>,
    alloc: Global,
    picture: &Picture,
    x: u64,
    told: &[LinePiece],
    words: &[LinePiece],
) -> Result<(), AllocError>
    requires { IsDrawable picture.now }
    ensures { OnOk result (out.new.items ≡ out.old.items ++ printed (lanes.repeated x (map word_of told.now) (map word_of words.now) (lanes.pages_of picture.now))) }
{
    let pages = pages(picture, picture.rows.len() as u64);
    for page in 0..pages {
        let y = TOP + 912 + 918 * page;
        put_head(out, alloc, "again", x, y, "9", told, words)?;
    }
    Ok(())
}

#[tactic(auto, unfolding(crate::specs::Lanes::tag_size))]
fn tag_size(tag: Tag) -> &'static str
    ensures { result.now ≡ lanes.tag_size tag }
{
    if tag.0 >= 100_000_000_000 && tag.0 < u64::MAX {
        "5"
    } else {
        "9"
    }
}

#[tactic(auto, using(std::proofs::Common::append_assoc), unfolding(crate::specs::Lanes::end_head))]
fn put_end_head(
    out: &mut Vec<u8>,
    alloc: Global,
    picture: &Picture,
    left: u64,
    lane: &Lane,
) -> Result<(), AllocError>
    requires drawable { IsDrawable picture.now }
    requires narrow { left ≤ 4000 }
    ensures { OnOk result (out.new.items ≡ out.old.items ++ printed (lanes.end_head picture.now left lane.now)) }
{
    let (x, size) = (x_of_end(picture, left, lane.id), tag_size(lane.tag));
    let (id, tag) = (small(lane.id.0), LinePiece::Tag(lane.tag));
    let told = [
        LinePiece::Text("endpoint "),
        id,
        LinePiece::Text(" of node "),
        small(lane.node.0),
        LinePiece::Text(", tag "),
        tag,
    ];
    let words = [LinePiece::Text("endpoint "), id];
    put_head(out, alloc, "head", x, TOP - 20, "9", &told, &words)?;
    put_head(
        out,
        alloc,
        "head",
        x,
        TOP - 8,
        size,
        &told,
        &[LinePiece::Text("tag "), tag],
    )?;
    put_repeated(out, alloc, picture, x, &told, &words)
}

/// Appends the heads of endpoints.
pub(crate) fn put_end_heads(
    out: &mut Vec<u8>,
    alloc: Global,
    picture: &Picture,
    left: u64,
    ends: &[Lane],
) -> Result<(), AllocError>
    requires drawable { IsDrawable picture.now }
    requires narrow { left ≤ 4000 }
    ensures { OnOk result (out.new.items ≡ out.old.items ++ printed (each (lanes.end_head picture.now left) ends.now)) }
{
    for lane in ends {
        put_end_head(out, alloc, picture, left, lane)?;
    }
    Ok(())
}

#[tactic(auto, using(std::proofs::Common::append_assoc), unfolding(crate::specs::Lanes::band))]
fn put_band(
    out: &mut Vec<u8>,
    alloc: Global,
    picture: &Picture,
    left: u64,
    node: u8,
) -> Result<(), AllocError>
    requires drawable { IsDrawable picture.now }
    requires narrow { left ≤ 4000 }
    ensures { OnOk result (out.new.items ≡ out.old.items ++ printed (lanes.band picture.now left node)) }
{
    let (x, wide) = (band_left(picture, left, node), band_width(picture, node));
    let words = [LinePiece::Text("node "), small(node)];
    put_empty(
        out,
        "rect",
        &[
            Word("class", "band"),
            Number("x", x),
            Number("y", TOP - 36),
            Number("width", wide),
            Number("height", bottom(picture).saturating_sub(TOP) + 44),
        ],
    )?;
    put_head(
        out,
        alloc,
        "head",
        x + wide / 2,
        TOP - 42,
        "12",
        &words,
        &words,
    )
}

#[tactic(auto, unfolding(crate::specs::Lanes::dotted))]
fn put_dotted(
    out: &mut Vec<u8>,
    alloc: Global,
    picture: &Picture,
    x: u64,
    told: &[LinePiece],
) -> Result<(), AllocError>
    requires { IsDrawable picture.now }
    ensures { OnOk result (out.new.items ≡ out.old.items ++ printed (lanes.dotted picture.now x (map word_of told.now))) }
{
    let given = [
        Word("class", "lane"),
        Number("x1", x),
        Number("y1", TOP),
        Number("x2", x),
        Number("y2", bottom(picture)),
    ];
    put_titled(out, alloc, "line", &given, told, &[])
}

#[tactic(auto, using(std::proofs::Common::append_assoc), unfolding(crate::specs::Lanes::interface_lane, crate::specs::Lanes::dotted, crate::specs::Lanes::head, crate::specs::Captions::titled))]
fn put_interface_lane(
    out: &mut Vec<u8>,
    alloc: Global,
    picture: &Picture,
    x: u64,
    node: u8,
) -> Result<(), AllocError>
    requires { IsDrawable picture.now }
    ensures { OnOk result (out.new.items ≡ out.old.items ++ printed (lanes.interface_lane picture.now x node)) }
{
    let told = [LinePiece::Text("interface of node "), small(node)];
    let words = [LinePiece::Text("i"), small(node)];
    put_head(out, alloc, "head", x, TOP - 8, "9", &told, &words)?;
    put_dotted(out, alloc, picture, x, &told)?;
    put_repeated(out, alloc, picture, x, &told, &words)
}

fn put_interface(
    out: &mut Vec<u8>,
    alloc: Global,
    picture: &Picture,
    left: u64,
    node: u8,
) -> Result<(), AllocError>
    requires drawable { IsDrawable picture.now }
    requires narrow { left ≤ 4000 }
    ensures { OnOk result (out.new.items ≡ out.old.items ++ printed (lanes.interface picture.now left node)) }
{
    if has_interfaces(picture.network) {
        let x = x_of_interface(picture, left, NodeId(node));
        put_interface_lane(out, alloc, picture, x, node)
    } else {
        Ok(())
    }
}

#[tactic(auto, using(std::proofs::Common::append_assoc))]
fn put_node(
    out: &mut Vec<u8>,
    alloc: Global,
    picture: &Picture,
    left: u64,
    node: u8,
) -> Result<(), AllocError>
    requires drawable { IsDrawable picture.now }
    requires narrow { left ≤ 4000 }
    ensures { OnOk result (out.new.items ≡ out.old.items ++ printed (lanes.node_lane picture.now left node)) }
{
    put_band(out, alloc, picture, left, node)?;
    put_interface(out, alloc, picture, left, node)
}

/// Appends the bands of the nodes in front of this one.
pub(crate) fn put_nodes(
    out: &mut Vec<u8>,
    alloc: Global,
    picture: &Picture,
    left: u64,
    nodes: u8,
) -> Result<(), AllocError>
    requires drawable { IsDrawable picture.now }
    requires narrow { left ≤ 4000 }
    ensures { OnOk result (out.new.items ≡ out.old.items ++ printed (lanes.nodes picture.now left nodes)) }
{
    for node in 0..nodes {
        put_node(out, alloc, picture, left, node)?;
    }
    Ok(())
}
