//! The whole picture.

ghost use Rattle.std.specs.Prelude.{◌≡◌, ◌≤◌, ◌++◌, IfOk, OnOk, codes, map};
ghost use Rattle.am_lab_chart.specs.Drawing as drawing;
ghost use Rattle.am_lab_picture.specs.Layout.Layout as layout;
ghost use Rattle.am_lab_picture.specs.Layout.Layout.{IsDrawable};
ghost use Rattle.am_check_lines.specs.Grammar as lines;
ghost use Rattle.am_lab_chart.specs.Titles.{row_titles, titles_before};
ghost use Rattle.am_lab_xml.specs.Grammar.{IsDocument};
ghost use Rattle.am_lab_xml.specs.Reading.{first_texts_in, texts_in};
ghost use Rattle.am_lab_xml.specs.Trees.{opening, printed};

use crate::bars::put_bars;
use crate::captions::put_holding;
use crate::lanes::{put_end_heads, put_nodes};
use crate::rows::{line_of, put_rows};
use crate::shapes::put_definitions;
use crate::tables::{
    STYLE, put_bar_meanings, put_call_meanings, put_event_meanings, put_fate_meanings,
    put_way_meanings,
};
use crate::ways::{put_arrows, put_crosses};
use am_lab_picture::layout::{bottom, has_text, width};
use am_lab_picture::{Picture, PlacedRow};
use am_lab_xml::Attribute::{Number, Path, Word};
use am_lab_xml::{Point, put_break, put_close, put_empty, put_open};
use am_names::NoMemory;
use std::alloc::{AllocError, Global};

/// The class of a picture, by whether its rows have text.
#[tactic(auto, unfolding(crate::specs::Drawing::size_class))]
pub(crate) fn size_class(picture: &Picture) -> &'static str
    ensures { result.now ≡ drawing.size_class picture.now }
{
    if has_text(picture) { "large" } else { "small" }
}

#[tactic(auto, unfolding(crate::specs::Drawing::page))]
fn put_page(out: &mut Vec<u8>, wide: u64, high: u64) -> Result<(), AllocError>
    ensures { OnOk result (out.new.items ≡ out.old.items ++ printed (drawing.page wide high)) }
{
    put_empty(
        out,
        "rect",
        &[
            Word("class", "page"),
            Number("width", wide),
            Number("height", high),
        ],
    )
}

#[tactic(auto, using(std::proofs::Common::append_assoc), unfolding(crate::specs::Drawing::front))]
fn put_front(out: &mut Vec<u8>, picture: &Picture) -> Result<(), AllocError>
    ensures { OnOk result (out.new.items ≡ out.old.items ++ printed (drawing.front picture.now)) }
{
    put_holding(out, "desc", &[], &picture.summary)?;
    put_holding(out, "style", &[], STYLE.as_bytes())?;
    put_definitions(out, picture)
}

fn put_totals(out: &mut Vec<u8>, y: u64, summary: &[u8]) -> Result<(), AllocError>
    ensures { OnOk result (out.new.items ≡ out.old.items ++ printed (drawing.totals y summary.now)) }
{
    let given = [Number("x", 20), Number("y", y), Word("class", "plain")];
    put_holding(out, "text", &given, summary)
}

#[tactic(auto, using(std::proofs::Common::append_assoc), unfolding(crate::specs::Drawing::legend))]
fn put_legend(out: &mut Vec<u8>, alloc: Global, picture: &Picture) -> Result<(), AllocError>
    ensures { OnOk result (out.new.items ≡ out.old.items ++ printed (drawing.legend picture.now)) }
{
    let bars = put_fate_meanings(out, alloc, picture, 18)?;
    let calls = put_bar_meanings(out, alloc, picture, bars)?;
    let events = put_call_meanings(out, alloc, picture, calls)?;
    let ways = put_event_meanings(out, alloc, picture, events)?;
    let below = put_way_meanings(out, alloc, picture, ways)?;
    put_totals(out, below.saturating_sub(4), &picture.summary)
}

#[tactic(auto, using(std::proofs::Common::append_assoc), unfolding(crate::specs::Drawing::lanes_of))]
fn put_lanes(
    out: &mut Vec<u8>,
    alloc: Global,
    picture: &Picture,
    left: u64,
) -> Result<(), AllocError>
    requires drawable { IsDrawable picture.now }
    requires narrow { left ≤ 4000 }
    ensures { OnOk result (out.new.items ≡ out.old.items ++ printed (drawing.lanes_of picture.now left)) }
{
    put_nodes(out, alloc, picture, left, picture.nodes)?;
    put_bars(out, alloc, picture, left, &picture.lanes)?;
    put_end_heads(out, alloc, picture, left, &picture.lanes)
}

#[tactic(auto, using(std::proofs::Common::append_assoc), unfolding(crate::specs::Drawing::entries_of))]
fn put_entries(
    out: &mut Vec<u8>,
    alloc: Global,
    picture: &Picture,
    left: u64,
) -> Result<(), NoMemory>
    requires drawable { IsDrawable picture.now }
    requires narrow { left ≤ 4000 }
    ensures { OnOk result (out.new.items ≡ out.old.items ++ printed (drawing.entries_of picture.now left)) }
{
    put_arrows(out, alloc, picture, left, &picture.arrows)?;
    put_crosses(out, alloc, picture, left, &picture.crosses)?;
    put_rows(out, alloc, picture, left, &picture.rows)
}

/// Appends what stands inside a picture.
#[tactic(auto, using(std::proofs::Common::append_assoc), unfolding(crate::specs::Drawing::inside))]
pub(crate) fn put_inside(
    out: &mut Vec<u8>,
    alloc: Global,
    picture: &Picture,
    left: u64,
    wide: u64,
    high: u64,
) -> Result<(), NoMemory>
    requires drawable { IsDrawable picture.now }
    requires narrow { left ≤ 4000 }
    requires width { wide ≡ layout.width picture.now left }
    requires height { high ≡ layout.height picture.now }
    ensures { OnOk result (out.new.items ≡ out.old.items ++ printed (drawing.inside picture.now left)) }
{
    put_front(out, picture)?;
    put_page(out, wide, high)?;
    put_legend(out, alloc, picture)?;
    put_lanes(out, alloc, picture, left)?;
    put_entries(out, alloc, picture, left)
}

/// Appends the start of a picture with this class, width and height.
pub(crate) fn put_svg_open(
    out: &mut Vec<u8>,
    class: &'static str,
    wide: u64,
    high: u64,
) -> Result<(), AllocError>
    ensures { OnOk result (out.new.items ≡ out.old.items ++ opening (codes "svg") (drawing.svg_attributes class.now wide high)) }
{
    let size = [
        Point {
            lead: "",
            x: 0,
            y: 0,
        },
        Point {
            lead: " ",
            x: wide,
            y: high,
        },
    ];
    put_open(
        out,
        "svg",
        &[
            Word("xmlns", "http://www.w3.org/2000/svg"),
            Word("class", class),
            Number("width", wide),
            Number("height", high),
            Path("viewBox", &size),
            Word("font-family", "sans-serif"),
            Word("font-size", "9"),
        ],
    )
}

#[tactic(auto, using(std::proofs::Common::append_assoc), unfolding(crate::specs::Drawing::drawing))]
fn put_drawing(
    out: &mut Vec<u8>,
    alloc: Global,
    picture: &Picture,
    left: u64,
) -> Result<(), NoMemory>
    requires drawable { IsDrawable picture.now }
    requires narrow { left ≤ 4000 }
    ensures { OnOk result (out.new.items ≡ out.old.items ++ printed (drawing.drawing picture.now left)) }
{
    let (wide, high) = (width(picture, left), bottom(picture) + 24);
    put_svg_open(out, size_class(picture), wide, high)?;
    put_inside(out, alloc, picture, left, wide, high)?;
    put_close(out, "svg")?;
    Ok(())
}

// The length of the longest line.
fn longest(alloc: Global, rows: &[PlacedRow]) -> Result<usize, NoMemory>
    ensures { IfOk result (λ length. length ≡ layout.longest rows.now) }
{
    let mut longest = 0;
    for placed in rows {
        let text = line_of(alloc, &placed.row.entry)?;
        longest = text.len().max(longest);
    }
    Ok(longest)
}

/// Where the first band of a picture begins.
#[tactic(auto, unfolding(am_lab_picture::specs::Layout::Layout::left_edge))]
pub(crate) fn left_edge(alloc: Global, picture: &Picture) -> Result<u64, NoMemory>
    ensures exact { IfOk result (λ left. left ≡ layout.left_edge picture.now) }
    ensures low { IfOk result (λ left. left ≤ 4000) }
{
    if !has_text(picture) {
        return Ok(30);
    }
    let longest = longest(alloc, &picture.rows)?;
    Ok(84 + 7 * longest.min(400) as u64)
}

#[tactic(auto, using(std::proofs::Common::append_assoc))]
fn text_of(alloc: Global, picture: &Picture) -> Result<Vec<u8>, NoMemory>
    requires { IsDrawable picture.now }
    ensures { IfOk result (λ text. text.items ≡ drawing.svg_of picture.now) }
{
    let left = left_edge(alloc, picture)?;
    let mut out = Vec::new(alloc);
    put_drawing(&mut out, alloc, picture, left)?;
    put_break(&mut out)?;
    Ok(out)
}

/// A picture as an SVG document (`svg_of` of `specs/Drawing.antt`).
///
/// `NoMemory` comes where there is none for the text; then nothing is left of it.
pub fn chart(alloc: Global, picture: &Picture) -> Result<Vec<u8>, NoMemory>
    requires { IsDrawable picture.now }
    ensures exact { IfOk result (λ text. text.items ≡ drawing.svg_of picture.now) }
    // It is well formed by the grammar of a small XML.
    ensures formed { IfOk result (λ text. IsDocument text.items) }
    // Its titles, in order and read as text, are those of heads, bars, arrows and crosses, and then those of the rows.
    ensures titles { IfOk result (λ text. texts_in (codes "title") text.items ≡ titles_before picture.now ++ row_titles picture.now) }
    // Those of the rows, with which each `g` begins, are the lines of the rows' entries.
    ensures rows { IfOk result (λ text. first_texts_in (codes "g") (codes "title") text.items ≡ map (λ placed. lines.printed placed.row.entry) picture.now.rows) }
{
    text_of(alloc, picture)
}
