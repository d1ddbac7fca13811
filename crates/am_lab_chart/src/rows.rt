//! The row of an entry.

ghost use Rattle.std.specs.Prelude.{◌≡◌, ◌≤◌, ◌++◌, IfOk, OnOk, option_map};
ghost use Rattle.am_check_lines.specs.Grammar as lines;
ghost use Rattle.am_lab_picture.specs.Layout.Layout.{IsDrawable};
ghost use Rattle.am_lab_chart.specs.Rows as rows;
ghost use Rattle.am_lab_xml.specs.Trees.{each, printed};
ghost use Rattle.am_office_text.specs.Pieces.{word_of};

use crate::captions::{put_caption, put_holding, put_sign};
use am_lab_picture::layout::{
    Ending, Link, Spot, class_of, ending_dashes, ending_sign, fate_class, fate_sign, has_text,
    head_of, inner_of, label_of, link_of, sign_of, spot_of, x_of_end, x_of_interface, y_of,
};
use am_lab_picture::{Named, Picture, PlacedRow, Row};
use am_lab_xml::Attribute::{Number, Word};
use am_lab_xml::{put_break, put_close, put_empty, put_open};
use am_names::NoMemory;
use am_office_entries::{Entry, Outcome};
use am_office_text::entry_lines::entry_line;
use am_office_text::{LinePiece, count};
use std::alloc::{AllocError, Global};

/// The line of an entry, without its newline.
#[tactic(auto, using(crate::proofs::Endings::same_fronts), unfolding(am_office_text::specs::EntryLines::Lines::line_of))]
pub(crate) fn line_of(alloc: Global, entry: &Entry) -> Result<Vec<u8>, NoMemory>
    ensures { IfOk result (λ text. text.items ≡ lines.printed entry.now) }
{
    let mut text = Vec::new(alloc);
    entry_line(entry, &mut text)?;
    text.pop();
    Ok(text)
}

#[tactic(auto, unfolding(crate::specs::Rows::line_number, crate::specs::Captions::caption, crate::specs::Captions::holding))]
fn put_line_number(out: &mut Vec<u8>, alloc: Global, y: u64, line: u32) -> Result<(), AllocError>
    requires { y ≤ 400000 }
    ensures { OnOk result (out.new.items ≡ out.old.items ++ printed (rows.line_number y line)) }
{
    put_caption(
        out,
        alloc,
        &[
            Number("x", 38),
            Number("y", y + 4),
            Word("class", "line-number"),
        ],
        &[count(line)],
    )
}

#[tactic(auto, unfolding(crate::specs::Rows::line_text, crate::specs::Captions::holding))]
fn put_line_text(out: &mut Vec<u8>, line: &[u8], y: u64, row: Row) -> Result<(), AllocError>
    requires line { line.now ≡ lines.printed row.entry }
    requires low { y ≤ 400000 }
    ensures { OnOk result (out.new.items ≡ out.old.items ++ printed (rows.line_text y row)) }
{
    let given = [
        Number("x", 62),
        Number("y", y + 4),
        Word("class", class_of(row.about)),
        Word("font-family", "monospace"),
        Word("font-size", "11"),
    ];
    put_holding(out, "text", &given, line)
}

#[tactic(auto, using(std::proofs::Common::append_assoc))]
fn put_texts(
    out: &mut Vec<u8>,
    alloc: Global,
    picture: &Picture,
    text: &[u8],
    y: u64,
    line: u32,
    row: Row,
) -> Result<(), AllocError>
    requires line { text.now ≡ lines.printed row.entry }
    requires low { y ≤ 400000 }
    ensures { OnOk result (out.new.items ≡ out.old.items ++ printed (rows.texts_of picture.now y line row)) }
{
    if !has_text(picture) {
        return Ok(());
    }
    put_line_number(out, alloc, y, line)?;
    put_line_text(out, text, y, row)
}

fn fate_x(picture: &Picture) -> u64
    ensures { result ≡ rows.fate_x picture.now }
{
    if has_text(picture) { 50 } else { 14 }
}

fn put_fate(
    out: &mut Vec<u8>,
    picture: &Picture,
    y: u64,
    about: Option<Named>,
) -> Result<(), AllocError>
    ensures { OnOk result (out.new.items ≡ out.old.items ++ printed (rows.fate_of picture.now y about)) }
{
    match about {
        None => Ok(()),
        Some(about) => put_sign(
            out,
            fate_sign(about.fate),
            fate_x(picture),
            y,
            fate_class(about.fate),
        ),
    }
}

fn x_of(picture: &Picture, left: u64, spot: Spot) -> u64
    requires drawable { IsDrawable picture.now }
    requires narrow { left ≤ 4000 }
    ensures exact { result ≡ rows.x_of picture.now left spot }
    ensures low { result ≤ 60100 }
{
    match spot {
        Spot::End(end) => x_of_end(picture, left, end),
        Spot::Interface(node) => x_of_interface(picture, left, node),
    }
}

fn link_head(about: Option<Named>, ending: Ending) -> &'static str
    ensures { result.now ≡ rows.link_head about ending }
{
    match ending {
        Ending::Arrived => head_of(about),
        _ => "none",
    }
}

#[tactic(auto, unfolding(crate::specs::Rows::link_line))]
fn put_link_line(
    out: &mut Vec<u8>,
    x: u64,
    far: u64,
    y: u64,
    about: Option<Named>,
    ending: Ending,
) -> Result<(), AllocError>
    ensures { OnOk result (out.new.items ≡ out.old.items ++ printed (rows.link_line x far y about ending)) }
{
    put_empty(
        out,
        "line",
        &[
            Word("class", class_of(about)),
            Number("x1", x),
            Number("y1", y),
            Number("x2", far),
            Number("y2", y),
            Word("stroke-dasharray", ending_dashes(ending)),
            Word("marker-end", link_head(about, ending)),
        ],
    )
}

#[tactic(auto, using(std::proofs::Common::append_assoc))]
fn put_link(
    out: &mut Vec<u8>,
    picture: &Picture,
    left: u64,
    x: u64,
    y: u64,
    about: Option<Named>,
    to: Option<Link>,
) -> Result<(), AllocError>
    requires drawable { IsDrawable picture.now }
    requires narrow { left ≤ 4000 }
    ensures { OnOk result (out.new.items ≡ out.old.items ++ printed (rows.link picture.now left x y about to)) }
{
    let Some(to) = to else {
        return Ok(());
    };
    let far = x_of_end(picture, left, to.far);
    put_link_line(out, x, far, y, about, to.ending)?;
    put_sign(out, ending_sign(to.ending), far, y, class_of(about))
}

#[tactic(auto, unfolding(crate::specs::Rows::inner_text))]
fn put_inner(
    out: &mut Vec<u8>,
    alloc: Global,
    picture: &Picture,
    x: u64,
    y: u64,
    text: Option<LinePiece>,
) -> Result<(), AllocError>
    requires { y ≤ 400000 }
    ensures { OnOk result (out.new.items ≡ out.old.items ++ printed (rows.inner picture.now x y (option_map word_of text))) }
{
    let Some(text) = text else {
        return Ok(());
    };
    if !has_text(picture) {
        return Ok(());
    }
    let given = [Number("x", x), Number("y", y + 3), Word("class", "in-sign")];
    put_caption(out, alloc, &given, &[text])
}

#[tactic(auto, unfolding(crate::specs::Rows::label_x))]
fn label_x(picture: &Picture, left: u64, x: u64, to: Option<Link>) -> u64
    requires drawable { IsDrawable picture.now }
    requires narrow { left ≤ 4000 }
    requires near { x ≤ 60100 }
    ensures { result ≡ rows.label_x picture.now left x to }
{
    match to {
        None => x + 9,
        Some(to) => (x + x_of_end(picture, left, to.far)) / 2,
    }
}

#[tactic(auto, unfolding(crate::specs::Rows::label_anchor))]
fn label_anchor(to: Option<Link>) -> &'static str
    ensures { result.now ≡ rows.label_anchor to }
{
    match to {
        None => "start",
        Some(_) => "middle",
    }
}

#[tactic(auto, unfolding(crate::specs::Rows::label_at))]
fn put_label_at(
    out: &mut Vec<u8>,
    alloc: Global,
    x: u64,
    y: u64,
    class: &'static str,
    anchor: &'static str,
    text: LinePiece,
) -> Result<(), AllocError>
    ensures { OnOk result (out.new.items ≡ out.old.items ++ printed (rows.label_at x y class.now anchor.now (word_of text))) }
{
    let given = [
        Number("x", x),
        Number("y", y),
        Word("dy", "9"),
        Word("class", class),
        Word("text-anchor", anchor),
    ];
    put_caption(out, alloc, &given, &[text])
}

fn put_label(
    out: &mut Vec<u8>,
    alloc: Global,
    picture: &Picture,
    left: u64,
    x: u64,
    y: u64,
    about: Option<Named>,
    to: Option<Link>,
    text: Option<LinePiece>,
) -> Result<(), AllocError>
    requires drawable { IsDrawable picture.now }
    requires narrow { left ≤ 4000 }
    requires near { x ≤ 60100 }
    ensures { OnOk result (out.new.items ≡ out.old.items ++ printed (rows.label picture.now left x y about to (option_map word_of text))) }
{
    let Some(text) = text else {
        return Ok(());
    };
    if !has_text(picture) {
        return Ok(());
    }
    let (place, anchor) = (label_x(picture, left, x, to), label_anchor(to));
    put_label_at(out, alloc, place, y, class_of(about), anchor, text)
}

fn labelled(outcome: Outcome, row: Row) -> Option<Named>
    ensures { result ≡ rows.labelled outcome row }
{
    match outcome {
        Outcome::Ran { .. } => row.reply,
        _ => row.about,
    }
}

#[tactic(auto, using(std::proofs::Common::append_assoc), unfolding(crate::specs::Rows::mark))]
fn put_mark(
    out: &mut Vec<u8>,
    alloc: Global,
    picture: &Picture,
    left: u64,
    x: u64,
    y: u64,
    row: Row,
) -> Result<(), AllocError>
    requires drawable { IsDrawable picture.now }
    requires narrow { left ≤ 4000 }
    requires near { x ≤ 60100 }
    requires low { y ≤ 400000 }
    ensures { OnOk result (out.new.items ≡ out.old.items ++ printed (rows.mark picture.now left x y row)) }
{
    let (event, outcome) = (row.entry.event, row.entry.outcome);
    let to = link_of(event, outcome);
    put_link(out, picture, left, x, y, row.about, to)?;
    put_sign(out, sign_of(event, outcome), x, y, class_of(row.about))?;
    put_inner(out, alloc, picture, x, y, inner_of(outcome))?;
    let about = labelled(outcome, row);
    put_label(
        out,
        alloc,
        picture,
        left,
        x,
        y,
        about,
        to,
        label_of(outcome),
    )
}

#[tactic(auto, using(std::proofs::Common::append_assoc), unfolding(crate::specs::Rows::row_head))]
fn put_row_head(
    out: &mut Vec<u8>,
    alloc: Global,
    picture: &Picture,
    text: &[u8],
    y: u64,
    line: u32,
    row: Row,
) -> Result<(), AllocError>
    requires line { text.now ≡ lines.printed row.entry }
    requires low { y ≤ 400000 }
    ensures { OnOk result (out.new.items ≡ out.old.items ++ printed (rows.row_head picture.now y line row)) }
{
    put_holding(out, "title", &[], text)?;
    put_fate(out, picture, y, row.about)?;
    put_texts(out, alloc, picture, text, y, line, row)
}

#[tactic(auto, using(std::proofs::Common::append_assoc), unfolding(crate::specs::Rows::row_of))]
fn put_told_row(
    out: &mut Vec<u8>,
    alloc: Global,
    picture: &Picture,
    left: u64,
    text: &[u8],
    line: u32,
    row: Row,
) -> Result<(), AllocError>
    requires drawable { IsDrawable picture.now }
    requires narrow { left ≤ 4000 }
    requires line { text.now ≡ lines.printed row.entry }
    ensures { OnOk result (out.new.items ≡ out.old.items ++ printed (rows.row_of picture.now left line row)) }
{
    let y = y_of(picture, line);
    let x = x_of(picture, left, spot_of(row.entry.event));
    put_open(out, "g", &[])?;
    put_row_head(out, alloc, picture, text, y, line, row)?;
    put_mark(out, alloc, picture, left, x, y, row)?;
    put_close(out, "g")?;
    put_break(out)
}

fn put_row(
    out: &mut Vec<u8>,
    alloc: Global,
    picture: &Picture,
    left: u64,
    line: u32,
    row: Row,
) -> Result<(), NoMemory>
    requires drawable { IsDrawable picture.now }
    requires narrow { left ≤ 4000 }
    ensures { OnOk result (out.new.items ≡ out.old.items ++ printed (rows.row_of picture.now left line row)) }
{
    let text = line_of(alloc, &row.entry)?;
    put_told_row(out, alloc, picture, left, &text, line, row)?;
    Ok(())
}

/// Appends rows.
pub(crate) fn put_rows(
    out: &mut Vec<u8>,
    alloc: Global,
    picture: &Picture,
    left: u64,
    placed_rows: &[PlacedRow],
) -> Result<(), NoMemory>
    requires drawable { IsDrawable picture.now }
    requires narrow { left ≤ 4000 }
    ensures { OnOk result (out.new.items ≡ out.old.items ++ printed (each (rows.placed_row picture.now left) placed_rows.now)) }
{
    for placed in placed_rows {
        put_row(out, alloc, picture, left, placed.line, placed.row)?;
    }
    Ok(())
}
