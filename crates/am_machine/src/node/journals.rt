//! The journal that the logs of several nodes merge into, and what is read off it.

ghost use Rattle.am_model.specs.Packets.{from_of, receiver_of};
ghost use Rattle.am_machine_journal.specs.Merge.Joined.{AreOne, lists_of};
ghost use Rattle.am_machine_journal.specs.Index.View.{CanCount, HasRoomFor, IsIndexOf};
ghost use Rattle.am_model_merge.specs.Logs.{IsRising};
ghost use Rattle.am_model_merge.specs.Merged.{entries_of};
ghost use Rattle.am_model.specs.Layout.{AllAre};
ghost use Rattle.am_machine.specs.Node.Parts.{all_logs, journal_of, logs_of_part};
ghost use Rattle.am_machine_journal.specs.Index.View.{IsBetweenNodes};
ghost use Rattle.am_machine.specs.Node.Packets.{GoesWithin};
ghost use Rattle.am_office_entries.specs.declared.Entry.{Entry};
ghost use Rattle.am_office_entries.specs.Logged.Behind.{entries_behind};
ghost use Rattle.std.specs.Prelude.{◌≡◌, ◌+◌, ◌<◌, ◌^◌, ◌∷◌, ◌++◌, [], length, IfOk, List, OnOk};

use crate::logs::add_ends;
use crate::node::NodePart;
use am_iface::emitted_of;
use am_machine_journal::index::JournalIndex;
use am_machine_journal::merge::join;
use am_names::{NodeId, Packet};
use am_office_entries::logged::LoggedJournal;
use am_office_entries::{Entry, NoMemory};
use std::alloc::Global;

/// Adds the logs of a node's endpoints and then that of its interface.
fn add_logs<'a>(logs: &mut Vec<&'a [Entry]>, part: &'a NodePart) -> Result<(), NoMemory>
    ensures { OnOk result (lists_of logs.new.items ≡ lists_of logs.old.items ++ logs_of_part part.now) }
{
    add_ends(logs, &part.ends)?;
    logs.push(part.iface.log())?;
    Ok(())
}

/// The journal that the nodes' logs merge into.
pub fn journal_of<'a>(alloc: Global, parts: &'a [NodePart]) -> Result<LoggedJournal<'a>, NoMemory>
    requires rising { AllAre IsRising (all_logs parts.now) }
    requires one { AreOne (entries_of (all_logs parts.now)) }
    ensures { IfOk result (λ journal. journal ≡ journal_of parts.now) }
{
    let mut logs = Vec::new(alloc);
    for part in parts {
        add_logs(&mut logs, part)?;
    }
    join(alloc, &logs)
}

/// The nodes that a packet goes from and to.
fn nodes_of(packet: &Packet) -> (NodeId, NodeId)
    ensures from { result.0 ≡ from_of packet.now }
    ensures to { result.1 ≡ receiver_of packet.now }
{
    match packet {
        Packet::Parcel(p) => (p.from, p.to),
        Packet::Answer(p) => (p.from, p.to),
    }
}

/// Makes room for this packet, if there is one.
fn make_room(index: &mut JournalIndex, packet: Option<Packet>) -> Result<(), NoMemory>
    requires { IsBetweenNodes packet }
    ensures read { index.new.read ≡ index.old.read }
    ensures room { OnOk result (HasRoomFor index.new packet) }
{
    match packet {
        Some(packet) => {
            let (from, to) = nodes_of(&packet);
            index.room_to(from, Some(to))
        }
        None => Ok(()),
    }
}

/// Reads an entry, with the packet that it emits.
fn add_entry(index: &mut JournalIndex, entry: &Entry) -> Result<(), NoMemory>
    requires within { GoesWithin entry.now }
    requires counts { CanCount index.old.read }
    ensures { OnOk result ((past : List Entry) → IsIndexOf past index.old.read → IsIndexOf (past ++ entry.now ∷ []) index.new.read) }
{
    let packet = emitted_of(entry);
    make_room(index, packet)?;
    index.log(entry, packet);
    Ok(())
}

/// The index of a journal of these entries.
pub fn index_of(alloc: Global, entries: &[&Entry]) -> Result<JournalIndex, NoMemory>
    requires within { AllAre GoesWithin (entries_behind entries.now) }
    requires few { length entries.now + 1 < 2 ^ 64 }
    ensures { IfOk result (λ index. IsIndexOf (entries_behind entries.now) index.read) }
{
    let mut index = JournalIndex::new(alloc)?;
    for entry in entries {
        add_entry(&mut index, entry)?;
    }
    Ok(index)
}
