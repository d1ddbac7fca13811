//! The index of a cluster's journal, which has what its machine reads off the entries, and none of them: the greatest stamp so
//! far, the packets that each link took, and how many of them were received. So no step looks through the logs.

ghost use Rattle.am_machine_journal.specs.Index.View.{AreNodes, CanCount, HasRoomFor, IsIndexOf, is_ready_on, received_in, receipts};
ghost use Rattle.am_model.specs.History.{page_calls};
ghost use Rattle.am_model.specs.Channels.{emitted};
ghost use Rattle.am_office_entries.specs.Entries.{emitted_of};
ghost use Rattle.am_office_entries.specs.declared.Entry.{Entry};
ghost use Rattle.std.specs.Prelude.{◌≡◌, ◌<◌, [], ◌∷◌, ◌++◌, true, IfOk, IfSome, List, OnOk};

mod links;
mod places;

use crate::index::links::{deliver, no_packets, space_on};
use crate::index::places::{count, link, receipt_place};
use am_names::{NodeId, Packet};
use am_office_entries::Entry;
pub use am_office_entries::NoMemory;
use std::alloc::Global;
use std::marker::Model;

/// The index of a journal of a cluster of at most 16 nodes. Contracts see what it reads, and for each link whether there is
/// room for one more packet. It reads what the definitions read off the entries that were logged.
#[derive(Drop)]
pub struct JournalIndex {
    /// The greatest stamp of the entries, and 0 where there are none.
    greatest: u64,
    /// How many packets of each link were received: the links from one node stand together, sixteen to a node.
    receipts: [u64; 256],
    /// The packets that each link took, in the same order.
    packets: Vec<Vec<Packet>>,
}

impl Model for JournalIndex {
    ghost use Rattle.am_machine_journal.specs.Index.View.{IndexView};

    ghost Value = { IndexView };

    ghost use Rattle.am_machine_journal.specs.Index.Kept.{view_of, IsWhole};

    ghost view = { view_of };

    ghost invariant = { IsWhole };
}

impl JournalIndex {
    /// The index of a journal without entries.
    pub fn new(alloc: Global) -> Result<JournalIndex, NoMemory>
        ensures { IfOk result (λ index. IsIndexOf [] index.read) }
    {
        let packets = no_packets(alloc)?;
        Ok(JournalIndex {
            greatest: 0,
            receipts: [0; 256],
            packets,
        })
    }

    /// The greatest stamp of the entries, and 0 where there are none.
    pub fn greatest_stamp(&self) -> u64
        ensures { result ≡ self.now.read.greatest }
    {
        self.greatest
    }

    /// The packets that a node emitted to another, in order.
    pub fn emitted(&self, from: NodeId, to: NodeId) -> &[Packet]
        requires from { from.0 < 16 }
        requires to { to.0 < 16 }
        ensures { (past : List Entry) → IsIndexOf past self.now.read → result.now ≡ emitted from to past }
    {
        self.packets[link(from, to)].as_slice()
    }

    /// How many receipts of packets of a link there are.
    pub fn received(&self, from: NodeId, to: NodeId) -> u64
        requires from { from.0 < 16 }
        requires to { to.0 < 16 }
        ensures value { result ≡ received_in self.now.read from to }
        ensures receipts { (past : List Entry) → IsIndexOf past self.now.read → result ≡ receipts from to past }
    {
        self.receipts[link(from, to)]
    }

    /// Makes room for the packet that an entry emits on a link from a node, if it is to emit one.
    pub fn room_to(&mut self, from: NodeId, to: Option<NodeId>) -> Result<(), NoMemory>
        requires from { from.0 < 16 }
        requires to { IfSome to (λ node. node.0 < 16) }
        ensures read { self.new.read ≡ self.old.read }
        ensures link { OnOk result (IfSome to (λ node. is_ready_on self.new from node ≡ true)) }
    {
        match to {
            Some(to) => self.room_on(from, to),
            None => Ok(()),
        }
    }

    /// Makes room for one more packet on a link.
    fn room_on(&mut self, from: NodeId, to: NodeId) -> Result<(), NoMemory>
        requires from { from.0 < 16 }
        requires to { to.0 < 16 }
        ensures read { self.new.read ≡ self.old.read }
        ensures link { OnOk result (is_ready_on self.new from to ≡ true) }
    {
        space_on(&mut self.packets, link(from, to))
    }

    /// Reads an entry, and the packet that it emits, for which there is room: of whichever entries it was the index, it is now
    /// that of these and the new one.
    pub fn log(&mut self, entry: &Entry, packet: Option<Packet>)
        requires packet { packet ≡ emitted_of entry.now }
        requires counts { CanCount self.old.read }
        requires room { HasRoomFor self.old packet }
        requires nodes { AreNodes entry.now.event }
        ensures { (past : List Entry) → IsIndexOf past self.old.read → IsIndexOf (past ++ entry.now ∷ []) self.new.read }
    {
        count(&mut self.receipts, receipt_place(&entry.event));
        deliver(&mut self.packets, packet);
        self.greatest = self.greatest.max(entry.stamp);
    }
}
