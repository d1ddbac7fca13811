//! What occurs in a picture, by the words that the legend has for it.

ghost use Rattle.std.specs.Prelude.{◌≡◌};
ghost use Rattle.std.specs.List.{list_any};
ghost use Rattle.am_lab_chart.specs.Known as known;

use am_lab_picture::layout::{
    Link, class_of, ending_sign, link_of, packet_dashes, place_class, sign_of,
};
use am_lab_picture::{Arrow, Cross, Lane, Picture, PlacedRow, Residency, Row, Span};

fn link_sign(to: Option<Link>) -> &'static str
    ensures { result.now ≡ known.link_sign to }
{
    match to {
        None => "",
        Some(to) => ending_sign(to.ending),
    }
}

fn is_in_row(key: &str, row: &Row) -> bool
    ensures { result ≡ known.is_in_row key.now row.now }
{
    let (event, outcome) = (row.entry.event, row.entry.outcome);
    class_of(row.about) == key
        || sign_of(event, outcome) == key
        || link_sign(link_of(event, outcome)) == key
}

fn is_at_some(key: &str, spans: &[Span<Residency>]) -> bool
    ensures { result ≡ list_any (known.is_at key.now) spans.now }
{
    for span in spans {
        if place_class(span.value) == key {
            return true;
        }
    }
    false
}

fn has_level(spans: &[Span<u8>]) -> bool
    ensures { result ≡ list_any known.is_some_level spans.now }
{
    for span in spans {
        if span.value != 0 {
            return true;
        }
    }
    false
}

fn is_level(key: &str, name: &str, spans: &[Span<u8>]) -> bool
    ensures { result ≡ known.is_level key.now name.now spans.now }
{
    name == key && has_level(spans)
}

fn is_in_lane(key: &str, lane: &Lane) -> bool
    ensures { result ≡ known.is_in_lane key.now lane.now }
{
    is_at_some(key, &lane.residency)
        || is_level(key, "records", &lane.records)
        || is_level(key, "received", &lane.received)
}

fn is_in_rows(key: &str, rows: &[PlacedRow]) -> bool
    ensures { result ≡ list_any (known.is_in_placed key.now) rows.now }
{
    for placed in rows {
        if is_in_row(key, &placed.row) {
            return true;
        }
    }
    false
}

fn is_in_arrows(key: &str, arrows: &[Arrow]) -> bool
    ensures { result ≡ list_any (known.is_in_arrow key.now) arrows.now }
{
    for arrow in arrows {
        if packet_dashes(arrow.packet) == key {
            return true;
        }
    }
    false
}

fn is_in_crosses(key: &str, crosses: &[Cross]) -> bool
    ensures { result ≡ list_any (known.is_in_cross key.now) crosses.now }
{
    for cross in crosses {
        if packet_dashes(cross.packet) == key || "#lost-left" == key {
            return true;
        }
    }
    false
}

fn is_in_lanes(key: &str, lanes: &[Lane]) -> bool
    ensures { result ≡ list_any (known.is_in_lane key.now) lanes.now }
{
    for lane in lanes {
        if is_in_lane(key, lane) {
            return true;
        }
    }
    false
}

/// Whether something that the legend has by this word occurs in the picture.
pub(crate) fn occurs(picture: &Picture, key: &str) -> bool
    ensures { result ≡ known.occurs picture.now key.now }
{
    is_in_rows(key, &picture.rows)
        || is_in_arrows(key, &picture.arrows)
        || is_in_crosses(key, &picture.crosses)
        || is_in_lanes(key, &picture.lanes)
}
