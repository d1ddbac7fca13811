//! Where things lie in the picture, in pixels.

ghost use Rattle.std.specs.Prelude.{◌≡◌, ◌≤◌, length};
ghost use Rattle.am_lab_picture.specs.Layout.Layout as layout;
ghost use Rattle.am_lab_picture.specs.Layout.Layout.{IsDrawable};

use crate::placed::{has_row, rows_before};
use crate::{Lane, Picture};
use am_names::{EndpointId, NodeId};
use am_scenario_types::Network;

/// The upper edge of the first row.
pub const TOP: u64 = 190;

/// Whether the rows have room for text.
pub fn has_text(picture: &Picture) -> bool
    ensures { result ≡ layout.has_text picture.now }
{
    picture.rows.len() <= 400
}

/// How many times the heads of the lanes stand behind a page of so many rows.
pub fn pages(picture: &Picture, rows: u64) -> u64
    requires { rows ≤ 20000 }
    ensures exact { result ≡ layout.pages picture.now rows }
    ensures few { result ≤ 400 }
{
    if has_text(picture) {
        rows / 50
    } else {
        rows / 300
    }
}

fn height_of(picture: &Picture, rows: u64) -> u64
    requires { rows ≤ 20000 }
    ensures exact { result ≡ layout.height_of picture.now rows }
    ensures low { result ≤ 370000 }
{
    let height = if has_text(picture) {
        18 * rows
    } else {
        3 * rows
    };
    height + 18 * pages(picture, rows)
}

fn half_row(picture: &Picture) -> u64
    ensures exact { result ≡ layout.half_row picture.now }
    ensures low { result ≤ 9 }
{
    if has_text(picture) { 9 } else { 1 }
}

/// The lower edge of the last row.
#[tactic(auto, unfolding(crate::specs::Layout::Layout::bottom))]
pub fn bottom(picture: &Picture) -> u64
    requires { IsDrawable picture.now }
    ensures exact { result ≡ layout.bottom picture.now }
    ensures low { result ≤ 400000 }
{
    TOP + height_of(picture, picture.rows.len() as u64)
}

// The upper edge of a line's row, or where it would stand.
fn edge_of(picture: &Picture, line: u32) -> u64
    requires { IsDrawable picture.now }
    ensures exact { result ≡ layout.edge_of picture.now line }
    ensures low { result ≤ 370200 }
{
    TOP + height_of(picture, rows_before(&picture.rows, u64::from(line)) as u64)
}

/// The y of a line of the report.
#[tactic(auto, unfolding(crate::specs::Layout::Layout::y_of))]
pub fn y_of(picture: &Picture, line: u32) -> u64
    requires { IsDrawable picture.now }
    ensures exact { result ≡ layout.y_of picture.now line }
    ensures low { result ≤ 400000 }
{
    let edge = edge_of(picture, line);
    if has_row(&picture.rows, line) {
        edge + half_row(picture)
    } else {
        edge
    }
}

/// Whether nodes have interfaces.
pub fn has_interfaces(network: Network) -> bool
    ensures { result ≡ layout.has_interfaces network }
{
    match network {
        Network::Direct => false,
        Network::Packet => true,
    }
}

fn interface_width(picture: &Picture) -> u64
    ensures exact { result ≡ layout.interface_width picture.now }
    ensures low { result ≤ 44 }
{
    if has_interfaces(picture.network) {
        44
    } else {
        0
    }
}

fn is_odd(node: u8) -> bool
    ensures { result ≡ layout.is_odd node }
{
    node % 2 == 1
}

#[tactic(auto, using(crate::proofs::Counts::few))]
fn ends_before(lanes: &[Lane], node: u8) -> usize
    ensures exact { result ≡ layout.ends_before lanes.now node }
    ensures few { result ≤ length lanes.now }
{
    lanes.iter().filter(|lane| lane.node.0 < node).count()
}

#[tactic(auto, using(crate::proofs::Counts::few))]
fn ends_at(lanes: &[Lane], node: u8) -> usize
    ensures exact { result ≡ layout.ends_at lanes.now node }
    ensures few { result ≤ length lanes.now }
{
    lanes.iter().filter(|lane| lane.node.0 == node).count()
}

#[tactic(auto, using(crate::proofs::Counts::few))]
fn ends_left(lanes: &[Lane], node: u8, end: u8) -> usize
    ensures exact { result ≡ layout.ends_left lanes.now node end }
    ensures few { result ≤ length lanes.now }
{
    lanes
        .iter()
        .filter(|lane| lane.node.0 == node && lane.id.0 < end)
        .count()
}

fn node_of(lanes: &[Lane], end: u8) -> u8
    ensures { result ≡ layout.node_of lanes.now end }
{
    for lane in lanes {
        if lane.id.0 == end {
            return lane.node.0;
        }
    }
    0
}

fn gaps(picture: &Picture, node: u8) -> u64
    ensures exact { result ≡ layout.gaps picture.now node }
    ensures low { result ≤ 20000 }
{
    if has_interfaces(picture.network) {
        78 * u64::from(node)
    } else {
        34 * u64::from(node)
    }
}

/// The left edge of a node's band.
#[tactic(auto, unfolding(crate::specs::Layout::Layout::band_left))]
pub fn band_left(picture: &Picture, left: u64, node: u8) -> u64
    requires drawable { IsDrawable picture.now }
    requires narrow { left ≤ 4000 }
    ensures exact { result ≡ layout.band_left picture.now left node }
    ensures low { result ≤ 41000 }
{
    left + gaps(picture, node) + 66 * ends_before(&picture.lanes, node) as u64
}

/// The width of a node's band.
#[tactic(auto, unfolding(crate::specs::Layout::Layout::band_width))]
pub fn band_width(picture: &Picture, node: u8) -> u64
    requires { IsDrawable picture.now }
    ensures exact { result ≡ layout.band_width picture.now node }
    ensures low { result ≤ 17000 }
{
    66 * ends_at(&picture.lanes, node) as u64 + interface_width(picture)
}

fn skipped(picture: &Picture, node: u8) -> u64
    ensures exact { result ≡ layout.skipped picture.now node }
    ensures low { result ≤ 44 }
{
    if is_odd(node) {
        interface_width(picture)
    } else {
        0
    }
}

#[tactic(auto, unfolding(crate::specs::Layout::Layout::left_at))]
fn left_at(picture: &Picture, left: u64, node: u8, end: u8) -> u64
    requires drawable { IsDrawable picture.now }
    requires narrow { left ≤ 4000 }
    ensures exact { result ≡ layout.left_at picture.now left node end }
    ensures low { result ≤ 60000 }
{
    band_left(picture, left, node)
        + skipped(picture, node)
        + 66 * ends_left(&picture.lanes, node, end) as u64
}

/// The left edge of an endpoint's lane.
pub fn left_of(picture: &Picture, left: u64, end: EndpointId) -> u64
    requires drawable { IsDrawable picture.now }
    requires narrow { left ≤ 4000 }
    ensures exact { result ≡ layout.left_of picture.now left end }
    ensures low { result ≤ 60000 }
{
    left_at(picture, left, node_of(&picture.lanes, end.0), end.0)
}

/// The middle of an endpoint's lane.
pub fn x_of_end(picture: &Picture, left: u64, end: EndpointId) -> u64
    requires drawable { IsDrawable picture.now }
    requires narrow { left ≤ 4000 }
    ensures exact { result ≡ layout.x_of_end picture.now left end }
    ensures low { result ≤ 60100 }
{
    left_of(picture, left, end) + 33
}

fn ends_passed(picture: &Picture, node: u8) -> u64
    requires { IsDrawable picture.now }
    ensures exact { result ≡ layout.ends_passed picture.now node }
    ensures low { result ≤ 17000 }
{
    if is_odd(node) {
        0
    } else {
        66 * ends_at(&picture.lanes, node) as u64
    }
}

/// The middle of an interface's lane.
#[tactic(auto, unfolding(crate::specs::Layout::Layout::x_of_interface))]
pub fn x_of_interface(picture: &Picture, left: u64, node: NodeId) -> u64
    requires drawable { IsDrawable picture.now }
    requires narrow { left ≤ 4000 }
    ensures exact { result ≡ layout.x_of_interface picture.now left node }
    ensures low { result ≤ 60100 }
{
    band_left(picture, left, node.0) + ends_passed(picture, node.0) + 22
}

/// The width of the whole picture.
pub fn width(picture: &Picture, left: u64) -> u64
    requires drawable { IsDrawable picture.now }
    requires narrow { left ≤ 4000 }
    ensures { result ≡ layout.width picture.now left }
{
    band_left(picture, left, picture.nodes).max(860)
}
