//! What each worker has.

use crate::turns::Waits;
use am_driver_moves::choice::View;
use am_iface::{IfaceSettings, Interface};
use am_names::{NodeId, Packet};
use am_places::Seat;
use am_scenario_types::ScriptCall;
use am_swap::MemorySwap;
use am_wire::{LinkIn, LinkOut};
use am_workers_laws::books::EndBook;

/// Why a worker makes no further turn.
#[derive(Clone, Copy, PartialEq, Eq)]
pub enum Stop {
    /// A log has as many entries as it may, and its next entry would go there.
    LogFull,
    NoMemory,
}

/// An application thread.
#[derive(Drop)]
pub struct ThreadWorker {
    pub seat: Seat<EndBook>,
    /// Its number, 0 to 63.
    pub thread: u8,
    /// The calls that it is to make, in order.
    pub script: Vec<ScriptCall>,
    /// How many of them it made.
    pub next: usize,
    /// The stamp of its last entry, 0 where it made none.
    pub clock: u64,
    /// Why it makes no further turn, if it makes none.
    pub stop: Option<Stop>,
}

/// An interface between its links.
#[derive(Drop)]
pub struct InterfaceWorker {
    pub seat: Seat<EndBook>,
    pub interface: Interface,
    /// The settings of the interface.
    pub set: IfaceSettings,
    /// How long each channel has waited.
    pub waits: Waits,
    /// A packet that it took out of the link from a node, and that it hasn't received yet.
    pub hand: Option<(NodeId, Packet)>,
    /// For each node, by its number, the end of the link from it.
    pub ins: Vec<LinkIn>,
    /// For each node, by its number, the end of the link to it.
    pub outs: Vec<LinkOut>,
    /// The link that took the last packet: on each other one there is room for a packet more.
    pub last: usize,
    /// The node at whose link it looks next.
    pub from: usize,
    /// The endpoint that it looks at next, by its place.
    pub end: usize,
    /// Why it makes no further turn, if it makes none.
    pub stop: Option<Stop>,
}

/// The driver of a node.
#[derive(Drop)]
pub struct DriverWorker {
    pub seat: Seat<EndBook>,
    pub node: NodeId,
    pub swap: MemorySwap,
    pub view: View,
    /// The stamp of its last entry, 0 where it made none.
    pub clock: u64,
    /// Why it makes no further turn, if it makes none.
    pub stop: Option<Stop>,
}
