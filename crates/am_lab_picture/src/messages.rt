//! The picture of one message.

ghost use Rattle.std.specs.Prelude.{◌≡◌, [], ◌∷◌, ◌++◌, IfOk, OnOk, filter, if◌then◌else◌, map};
ghost use Rattle.am_lab_picture.specs.Messages as messages;
ghost use Rattle.am_lab_picture.specs.Rows.{AreInOrder};

use crate::data::{Arrow, Cross, Lane, Named, Picture, PlacedRow, Row, Span};
use crate::placed::{has_row, stands_between};
use am_names::Serial;
use std::alloc::{AllocError, Global};

fn is_named(serial: Serial, named: Option<Named>) -> bool
    ensures { result ≡ messages.is_named serial named }
{
    match named {
        Some(named) => serial == named.serial,
        None => false,
    }
}

fn is_touching(serial: Serial, row: &Row) -> bool
    ensures { result ≡ messages.is_touching serial row.now }
{
    is_named(serial, row.about) || is_named(serial, row.reply)
}

// An item more, if it is kept.
fn put_if<T: Copy>(made: &mut Vec<T>, is_kept: bool, item: T) -> Result<(), AllocError>
    ensures { OnOk result (made.new.items ≡ made.old.items ++ (if is_kept then item ∷ [] else [])) }
{
    if is_kept {
        made.push(item)?;
    }
    Ok(())
}

// The rows that touch a message.
fn touching(alloc: Global, serial: Serial, rows: &[PlacedRow]) -> Result<Vec<PlacedRow>, AllocError>
    ensures { IfOk result (λ made. made.items ≡ messages.touching serial rows.now) }
{
    let mut made = Vec::new(alloc);
    for placed in rows {
        put_if(&mut made, is_touching(serial, &placed.row), *placed)?;
    }
    Ok(made)
}

fn leads(rows: &[PlacedRow], arrow: &Arrow) -> bool
    requires { AreInOrder rows.now }
    ensures { result ≡ messages.leads rows.now arrow.now }
{
    has_row(rows, arrow.from) || has_row(rows, arrow.to)
}

// The arrows that begin or end at one of these rows.
fn arrows_at(alloc: Global, rows: &[PlacedRow], arrows: &[Arrow]) -> Result<Vec<Arrow>, AllocError>
    requires { AreInOrder rows.now }
    ensures { IfOk result (λ made. made.items ≡ filter (messages.leads rows.now) arrows.now) }
{
    let mut made = Vec::new(alloc);
    for arrow in arrows {
        put_if(&mut made, leads(rows, arrow), *arrow)?;
    }
    Ok(made)
}

// The crosses that stand in one of them.
fn crosses_at(
    alloc: Global,
    rows: &[PlacedRow],
    crosses: &[Cross],
) -> Result<Vec<Cross>, AllocError>
    requires { AreInOrder rows.now }
    ensures { IfOk result (λ made. made.items ≡ filter (messages.is_crossed rows.now) crosses.now) }
{
    let mut made = Vec::new(alloc);
    for cross in crosses {
        put_if(&mut made, has_row(rows, cross.line), *cross)?;
    }
    Ok(made)
}

fn is_seen<T: Copy>(rows: &[PlacedRow], span: &Span<T>) -> bool
    requires { AreInOrder rows.now }
    ensures { result ≡ messages.is_seen rows.now span.now }
{
    stands_between(rows, u64::from(span.from), u64::from(span.until) + 1)
}

// The values that stand in front of one of these rows, or behind it.
fn spans_at<T: Copy>(
    alloc: Global,
    rows: &[PlacedRow],
    spans: &[Span<T>],
) -> Result<Vec<Span<T>>, AllocError>
    requires { AreInOrder rows.now }
    ensures { IfOk result (λ made. made.items ≡ filter (messages.is_seen rows.now) spans.now) }
{
    let mut made = Vec::new(alloc);
    for span in spans {
        put_if(&mut made, is_seen(rows, span), *span)?;
    }
    Ok(made)
}

// A lane, as far as it is seen at these rows.
fn lane_at(alloc: Global, rows: &[PlacedRow], lane: &Lane) -> Result<Lane, AllocError>
    requires { AreInOrder rows.now }
    ensures { IfOk result (λ made. made ≡ messages.lane_seen rows.now lane.now) }
{
    let residency = spans_at(alloc, rows, &lane.residency)?;
    let records = spans_at(alloc, rows, &lane.records)?;
    let received = spans_at(alloc, rows, &lane.received)?;
    Ok(Lane {
        id: lane.id,
        node: lane.node,
        tag: lane.tag,
        residency,
        records,
        received,
    })
}

fn lanes_at(alloc: Global, rows: &[PlacedRow], lanes: &[Lane]) -> Result<Vec<Lane>, AllocError>
    requires { AreInOrder rows.now }
    ensures { IfOk result (λ made. made.items ≡ map (messages.lane_seen rows.now) lanes.now) }
{
    let mut made = Vec::new(alloc);
    for lane in lanes {
        let seen = lane_at(alloc, rows, lane)?;
        made.push(seen)?;
    }
    Ok(made)
}

// What a picture shows at some of its rows.
fn shown_at(alloc: Global, picture: &Picture, rows: Vec<PlacedRow>) -> Result<Picture, AllocError>
    requires { AreInOrder rows.items }
    ensures { IfOk result (λ shown. shown ≡ messages.shown_at picture.now rows.items) }
{
    let arrows = arrows_at(alloc, &rows, &picture.arrows)?;
    let crosses = crosses_at(alloc, &rows, &picture.crosses)?;
    let lanes = lanes_at(alloc, &rows, &picture.lanes)?;
    let summary = Vec::from_slice(alloc, &picture.summary)?;
    Ok(Picture {
        network: picture.network,
        nodes: picture.nodes,
        rows,
        arrows,
        crosses,
        lanes,
        summary,
    })
}

/// What a picture shows of one message: the rows that touch the message, the arrows that begin or end at them, the crosses
/// in them, and of the lanes what stands in front of them and behind them (`message_picture` of specs/Messages).
/// `AllocError` comes where there is no memory for it.
pub fn message_picture(
    alloc: Global,
    picture: &Picture,
    serial: Serial,
) -> Result<Picture, AllocError>
    requires { AreInOrder picture.now.rows }
    ensures { IfOk result (λ shown. shown ≡ messages.message_picture picture.now serial) }
{
    let rows = touching(alloc, serial, &picture.rows)?;
    shown_at(alloc, picture, rows)
}
