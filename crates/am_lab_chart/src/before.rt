//! The picture of what stands in front of a report's fault, with the fault as a last row.

ghost use Rattle.std.specs.Prelude.{◌≡◌, ◌≤◌, ◌++◌, IfOk, OnOk, codes, map};
ghost use Rattle.am_check_lines.specs.Grammar as lines;
ghost use Rattle.am_lab_chart.specs.Before as before;
ghost use Rattle.am_lab_picture.specs.Layout.Layout.{IsDrawable};
ghost use Rattle.am_lab_xml.specs.Grammar.{IsDocument};
ghost use Rattle.am_lab_xml.specs.Reading.{first_texts_in, texts_in};
ghost use Rattle.am_lab_xml.specs.Trees.{printed};

use crate::captions::put_title;
use crate::drawing::{left_edge, put_inside, put_svg_open, size_class};
use am_lab_picture::Picture;
use am_lab_picture::layout::{bottom, width};
use am_lab_xml::Attribute::{Number, Word};
use am_lab_xml::{put_break, put_close, put_open, put_text};
use am_names::NoMemory;
use am_office_text::{LinePiece, count};
use std::alloc::{AllocError, Global};

// Appends the fault's row, below this height.
#[tactic(auto, using(std::proofs::Common::append_assoc), unfolding(crate::specs::Before::fault_row, crate::specs::Before::fault_attributes))]
fn put_fault(
    out: &mut Vec<u8>,
    alloc: Global,
    y: u64,
    line: u32,
    told: &[u8],
) -> Result<(), AllocError>
    requires { y ≤ 400000 }
    ensures { OnOk result (out.new.items ≡ out.old.items ++ printed (before.fault_row y line told.now)) }
{
    let given = [
        Number("x", 20),
        Number("y", y + 14),
        Word("class", "fault"),
        Word("color", "#b3261e"),
    ];
    put_open(out, "text", &given)?;
    put_title(
        out,
        alloc,
        &[LinePiece::Text("first fault: line "), count(line)],
    )?;
    put_text(out, told)?;
    put_close(out, "text")
}

#[tactic(auto, using(std::proofs::Common::append_assoc), unfolding(crate::specs::Before::drawing_before))]
fn put_drawing(
    out: &mut Vec<u8>,
    alloc: Global,
    picture: &Picture,
    left: u64,
    line: u32,
    told: &[u8],
) -> Result<(), NoMemory>
    requires drawable { IsDrawable picture.now }
    requires narrow { left ≤ 4000 }
    ensures { OnOk result (out.new.items ≡ out.old.items ++ printed (before.drawing_before picture.now left line told.now)) }
{
    let below = bottom(picture);
    let (wide, high) = (width(picture, left), below + 24);
    put_svg_open(out, size_class(picture), wide, high)?;
    put_inside(out, alloc, picture, left, wide, high)?;
    put_fault(out, alloc, below, line, told)?;
    put_close(out, "svg")?;
    Ok(())
}

#[tactic(auto, using(std::proofs::Common::append_assoc))]
fn text_of(alloc: Global, picture: &Picture, line: u32, told: &[u8]) -> Result<Vec<u8>, NoMemory>
    requires { IsDrawable picture.now }
    ensures { IfOk result (λ text. text.items ≡ before.svg_before picture.now line told.now) }
{
    let left = left_edge(alloc, picture)?;
    let mut out = Vec::new(alloc);
    put_drawing(&mut out, alloc, picture, left, line, told)?;
    put_break(&mut out)?;
    Ok(out)
}

/// A picture of what stands in front of a report's fault as an SVG document (`svg_before` of `specs/Before.antt`): below the last
/// row, as a last `text` element of class `fault`, what is said of the fault, with its line of the report in its title.
///
/// `NoMemory` comes where there is none for the text; then nothing is left of it.
pub fn chart_before(
    alloc: Global,
    picture: &Picture,
    line: u32,
    told: &[u8],
) -> Result<Vec<u8>, NoMemory>
    requires { IsDrawable picture.now }
    ensures exact { IfOk result (λ text. text.items ≡ before.svg_before picture.now line told.now) }
    // It is well formed by the grammar of a small XML.
    ensures formed { IfOk result (λ text. IsDocument text.items) }
    // Its titles, in order and read as text, are those of the picture, and last that of the fault.
    ensures titles { IfOk result (λ text. texts_in (codes "title") text.items ≡ before.titles_with picture.now line) }
    // Those of the rows, with which each `g` begins, are the lines of the rows' entries.
    ensures rows { IfOk result (λ text. first_texts_in (codes "g") (codes "title") text.items ≡ map (λ placed. lines.printed placed.row.entry) picture.now.rows) }
{
    text_of(alloc, picture, line, told)
}
