//! The picture as plain data.

use am_names::{EndpointId, NodeId, Packet, Serial, Tag};
use am_office_entries::{Entry, Fate};
use am_scenario_types::Network;
use std::marker::Model;

/// The lines of a part of a report's journal: so many from the first one on.
#[derive(Clone, Copy, PartialEq, Eq)]
pub struct Lines {
    /// The first line, at least 3.
    pub first: u32,
    /// How many lines.
    pub count: u32,
}

/// A message that an entry names, and what became of it.
#[derive(Clone, Copy, PartialEq, Eq)]
pub struct Named {
    pub serial: Serial,
    /// Its fate by the whole journal. None where no entry accepts it.
    pub fate: Option<Fate>,
}

/// An entry's row.
#[derive(Clone, Copy)]
pub struct Row {
    pub entry: Entry,
    /// The message that the entry is about, if it names one: accepted, sent, put, refused, judged again, settled,
    /// returned, run, told in a notice, or given up.
    pub about: Option<Named>,
    /// The reply that a run makes, if it makes one.
    pub reply: Option<Named>,
}

/// An entry's row, and the line of the report in which the entry stands.
#[derive(Clone, Copy)]
pub struct PlacedRow {
    pub line: u32,
    pub row: Row,
}

/// A packet's way from the entry that emits it to one that receives it. A packet that is received twice has two arrows.
#[derive(Clone, Copy)]
pub struct Arrow {
    /// The line of the entry that emits it, which need not have a row.
    pub from: u32,
    /// The line of the entry that receives it, which need not have one either.
    pub to: u32,
    pub packet: Packet,
    /// The message that it carries, or whose verdict it tells.
    pub about: Option<Named>,
    /// Whether the receipt judges a message or settles one. It does not where the message was judged before or is of
    /// the past, or where the answer counts for nothing.
    pub counts: bool,
}

/// A packet that no entry of the journal receives.
#[derive(Clone, Copy)]
pub struct Cross {
    /// The line of the entry that emits it.
    pub line: u32,
    pub packet: Packet,
    /// The message that it carries, or whose verdict it tells.
    pub about: Option<Named>,
}

/// Where an endpoint lies, and whether it drains there.
#[derive(Clone, Copy, PartialEq, Eq)]
pub enum Residency {
    /// Nowhere in particular: in the direct network.
    Direct,
    /// In the frame of its node with this number, 0 to 15.
    Frame(u8),
    /// In this frame, and it binds no message from now on.
    Draining(u8),
    Host,
    Disk,
}

/// How an endpoint stands: where it lies, and how much it holds.
#[derive(Clone, Copy, PartialEq, Eq)]
pub struct Standing {
    pub residency: Residency,
    /// How many records of requests are out, 0 to 32.
    pub records: u8,
    /// How many messages are received and not polled, 0 to 48.
    pub received: u8,
}

/// A value that stands from one line to another: behind the entry of line `from` and each later one, and no longer
/// behind that of line `until`. What stands before the first line that is shown begins at the line before it, and what
/// stands at the end ends at the line behind the last. The spans of a list join on, and neighbours differ, but in a picture
/// of one message, which lacks those with no row at them.
#[derive(Clone, Copy)]
pub struct Span<T> {
    pub value: T,
    pub from: u32,
    pub until: u32,
}

/// An endpoint's lane. Contracts see its spans as lists.
#[derive(Drop)]
pub struct Lane {
    pub id: EndpointId,
    pub node: NodeId,
    /// Its own tag, as it was declared.
    pub tag: Tag,
    pub residency: Vec<Span<Residency>>,
    /// How many records of requests are out, 0 to 32.
    pub records: Vec<Span<u8>>,
    /// How many messages are received and not polled, 0 to 48.
    pub received: Vec<Span<u8>>,
}

impl Model for Lane {
    ghost use Rattle.am_lab_picture.specs.Data.{LaneLists};

    ghost Value = { LaneLists };

    ghost view = { λ lane. record {
      id = lane.id;
      node = lane.node;
      tag = lane.tag;
      residency = lane.residency.items;
      records = lane.records.items;
      received = lane.received.items;
    } };
}

/// A picture of some lines of a report: of those from one to another, or of those that touch one message. Contracts see
/// its parts as lists.
#[derive(Drop)]
pub struct Picture {
    /// In the direct network no node has an interface, and there are no packets.
    pub network: Network,
    /// How many nodes there are, 1 to 16.
    pub nodes: u8,
    /// A row for each entry that is shown, in order.
    pub rows: Vec<PlacedRow>,
    /// An arrow for each receipt of a packet whose line, or that of the packet's emission, has a row; in the order of
    /// the receipts.
    pub arrows: Vec<Arrow>,
    /// A cross for each packet that is emitted in a line with a row and that no entry of the journal receives, in order.
    pub crosses: Vec<Cross>,
    /// A lane for each endpoint, by their numbers.
    pub lanes: Vec<Lane>,
    /// Two lines of the report: how many entries there are, and how many messages have each fate.
    pub summary: Vec<u8>,
}

impl Model for Picture {
    ghost use Rattle.am_lab_picture.specs.Data.{PictureLists};

    ghost Value = { PictureLists };

    ghost view = { λ picture. record {
      network = picture.network;
      nodes = picture.nodes;
      rows = picture.rows.items;
      arrows = picture.arrows.items;
      crosses = picture.crosses.items;
      lanes = picture.lanes.items;
      summary = picture.summary.items;
    } };
}
