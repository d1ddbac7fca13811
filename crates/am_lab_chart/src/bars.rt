//! The bars of an endpoint's lane.

ghost use Rattle.std.specs.Prelude.{◌≡◌, ◌≤◌, ◌++◌, OnOk, length, map};
ghost use Rattle.am_lab_chart.specs.Bars as bars;
ghost use Rattle.am_lab_picture.specs.Layout.Layout.{IsDrawable};
ghost use Rattle.am_lab_xml.specs.Trees.{each, printed};
ghost use Rattle.am_office_text.specs.Pieces.{word_of};

use crate::captions::{put_caption, put_titled};
use am_lab_picture::layout::{frame_of, has_text, left_of, place_class, y_of};
use am_lab_picture::{Lane, Picture, Residency, Span};
use am_lab_xml::Attribute::{Number, Word};
use am_names::EndpointId;
use am_office_text::{LinePiece, count, small};
use std::alloc::{AllocError, Global};

#[tactic(auto, unfolding(crate::specs::Bars::place_name))]
fn place_name(place: Residency) -> &'static str
    ensures { result.now ≡ bars.place_name place }
{
    match place {
        Residency::Direct => "direct network",
        Residency::Frame(_) => "frame ",
        Residency::Draining(_) => "draining in frame ",
        Residency::Host => "host",
        Residency::Disk => "disk",
    }
}

fn amount(count: Option<u8>) -> LinePiece
    ensures { word_of result ≡ bars.amount count }
{
    match count {
        None => LinePiece::Text(""),
        Some(count) => small(count),
    }
}

// The words of a bar's title.
fn bar_title(
    end: EndpointId,
    shown: &'static str,
    held: Option<u8>,
    from: u32,
    until: u32,
) -> [LinePiece; 9]
    ensures { map word_of result ≡ bars.bar_title end shown.now held from until }
{
    [
        LinePiece::Text("endpoint "),
        small(end.0),
        LinePiece::Text(": "),
        LinePiece::Text(shown),
        amount(held),
        LinePiece::Text(", line "),
        count(from),
        LinePiece::Text(" to "),
        count(until),
    ]
}

// Appends a box from one line of the report to another.
#[tactic(auto, unfolding(crate::specs::Bars::stretch))]
fn put_stretch(
    out: &mut Vec<u8>,
    alloc: Global,
    picture: &Picture,
    class: &'static str,
    x: u64,
    wide: u64,
    from: u32,
    until: u32,
    told: &[LinePiece],
) -> Result<(), AllocError>
    requires { IsDrawable picture.now }
    ensures { OnOk result (out.new.items ≡ out.old.items ++ printed (bars.stretch picture.now class.now x wide from until (map word_of told.now))) }
{
    let (y, end) = (y_of(picture, from), y_of(picture, until));
    let given = [
        Word("class", class),
        Number("x", x),
        Number("y", y),
        Number("width", wide),
        Number("height", end.saturating_sub(y)),
    ];
    put_titled(out, alloc, "rect", &given, told, &[])
}

fn has_room(picture: &Picture, from: u32, until: u32) -> bool
    requires { IsDrawable picture.now }
    ensures { result ≡ bars.has_room picture.now from until }
{
    has_text(picture) && y_of(picture, from) + 14 <= y_of(picture, until)
}

// Appends the number of the frame that an endpoint holds, if it holds one and there is room.
#[tactic(auto, unfolding(crate::specs::Bars::frame_caption, crate::specs::Captions::caption, crate::specs::Captions::holding))]
fn put_frame(
    out: &mut Vec<u8>,
    alloc: Global,
    picture: &Picture,
    x: u64,
    from: u32,
    until: u32,
    frame: Option<u8>,
) -> Result<(), AllocError>
    requires drawable { IsDrawable picture.now }
    requires narrow { x ≤ 60000 }
    ensures { OnOk result (out.new.items ≡ out.old.items ++ printed (bars.frame_part picture.now x from until frame)) }
{
    let Some(frame) = frame else {
        return Ok(());
    };
    if !has_room(picture, from, until) {
        return Ok(());
    }
    let given = [
        Number("x", x + 33),
        Number("y", y_of(picture, from) + 11),
        Word("class", "in-frame"),
    ];
    put_caption(out, alloc, &given, &[small(frame)])
}

#[tactic(auto, using(std::proofs::Common::append_assoc), unfolding(crate::specs::Bars::bar))]
fn put_bar(
    out: &mut Vec<u8>,
    alloc: Global,
    picture: &Picture,
    x: u64,
    end: EndpointId,
    span: Span<Residency>,
) -> Result<(), AllocError>
    requires drawable { IsDrawable picture.now }
    requires narrow { x ≤ 60000 }
    ensures { OnOk result (out.new.items ≡ out.old.items ++ printed (bars.bar picture.now x end span)) }
{
    let (class, frame) = (place_class(span.value), frame_of(span.value));
    let told = bar_title(end, place_name(span.value), frame, span.from, span.until);
    put_stretch(
        out,
        alloc,
        picture,
        class,
        x + 28,
        10,
        span.from,
        span.until,
        &told,
    )?;
    put_frame(out, alloc, picture, x, span.from, span.until, frame)
}

fn put_residency(
    out: &mut Vec<u8>,
    alloc: Global,
    picture: &Picture,
    x: u64,
    end: EndpointId,
    spans: &[Span<Residency>],
) -> Result<(), AllocError>
    requires drawable { IsDrawable picture.now }
    requires narrow { x ≤ 60000 }
    ensures { OnOk result (out.new.items ≡ out.old.items ++ printed (each (bars.bar picture.now x end) spans.now)) }
{
    for span in spans {
        put_bar(out, alloc, picture, x, end, *span)?;
    }
    Ok(())
}

fn level_width(count: u8) -> u64
    ensures exact { result ≡ bars.level_width count }
    ensures low { result ≤ 26 }
{
    2 + u64::from(count.min(48)) / 2
}

#[tactic(auto, unfolding(crate::specs::Bars::records))]
fn put_record_level(
    out: &mut Vec<u8>,
    alloc: Global,
    picture: &Picture,
    x: u64,
    end: EndpointId,
    span: Span<u8>,
) -> Result<(), AllocError>
    requires drawable { IsDrawable picture.now }
    requires narrow { x ≤ 60000 }
    ensures { OnOk result (out.new.items ≡ out.old.items ++ printed (bars.records picture.now x end span)) }
{
    if span.value == 0 {
        return Ok(());
    }
    let wide = level_width(span.value);
    let place = x + (28 - wide);
    let told = bar_title(end, "records ", Some(span.value), span.from, span.until);
    put_stretch(
        out, alloc, picture, "records", place, wide, span.from, span.until, &told,
    )
}

#[tactic(auto, unfolding(crate::specs::Bars::received))]
fn put_received_level(
    out: &mut Vec<u8>,
    alloc: Global,
    picture: &Picture,
    x: u64,
    end: EndpointId,
    span: Span<u8>,
) -> Result<(), AllocError>
    requires drawable { IsDrawable picture.now }
    requires narrow { x ≤ 60000 }
    ensures { OnOk result (out.new.items ≡ out.old.items ++ printed (bars.received picture.now x end span)) }
{
    if span.value == 0 {
        return Ok(());
    }
    let wide = level_width(span.value);
    let told = bar_title(end, "received ", Some(span.value), span.from, span.until);
    put_stretch(
        out,
        alloc,
        picture,
        "received",
        x + 38,
        wide,
        span.from,
        span.until,
        &told,
    )
}

fn put_records(
    out: &mut Vec<u8>,
    alloc: Global,
    picture: &Picture,
    x: u64,
    end: EndpointId,
    spans: &[Span<u8>],
) -> Result<(), AllocError>
    requires drawable { IsDrawable picture.now }
    requires narrow { x ≤ 60000 }
    ensures { OnOk result (out.new.items ≡ out.old.items ++ printed (each (bars.records picture.now x end) spans.now)) }
{
    for span in spans {
        put_record_level(out, alloc, picture, x, end, *span)?;
    }
    Ok(())
}

fn put_received(
    out: &mut Vec<u8>,
    alloc: Global,
    picture: &Picture,
    x: u64,
    end: EndpointId,
    spans: &[Span<u8>],
) -> Result<(), AllocError>
    requires drawable { IsDrawable picture.now }
    requires narrow { x ≤ 60000 }
    ensures { OnOk result (out.new.items ≡ out.old.items ++ printed (each (bars.received picture.now x end) spans.now)) }
{
    for span in spans {
        put_received_level(out, alloc, picture, x, end, *span)?;
    }
    Ok(())
}

#[tactic(auto, using(std::proofs::Common::append_assoc), unfolding(crate::specs::Bars::lane_bars))]
fn put_lane(
    out: &mut Vec<u8>,
    alloc: Global,
    picture: &Picture,
    left: u64,
    lane: &Lane,
) -> Result<(), AllocError>
    requires drawable { IsDrawable picture.now }
    requires narrow { left ≤ 4000 }
    ensures { OnOk result (out.new.items ≡ out.old.items ++ printed (bars.lane_bars picture.now left lane.now)) }
{
    let x = left_of(picture, left, lane.id);
    put_residency(out, alloc, picture, x, lane.id, &lane.residency)?;
    put_records(out, alloc, picture, x, lane.id, &lane.records)?;
    put_received(out, alloc, picture, x, lane.id, &lane.received)
}

/// Appends the bars of lanes.
pub(crate) fn put_bars(
    out: &mut Vec<u8>,
    alloc: Global,
    picture: &Picture,
    left: u64,
    lanes: &[Lane],
) -> Result<(), AllocError>
    requires drawable { IsDrawable picture.now }
    requires narrow { left ≤ 4000 }
    ensures { OnOk result (out.new.items ≡ out.old.items ++ printed (each (bars.lane_bars picture.now left) lanes.now)) }
{
    for lane in lanes {
        put_lane(out, alloc, picture, left, lane)?;
    }
    Ok(())
}
