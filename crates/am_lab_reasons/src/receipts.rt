//! A journal with where its packets are received.

ghost use Rattle.am_lab_reasons.specs.Packets.{receives};
ghost use Rattle.am_lab_reasons.specs.Receipts as receipts;
ghost use Rattle.am_lab_reasons.specs.Receipts.{AreFirst, AreLater, place_for, place_in};
ghost use Rattle.am_names.specs.declared.Way.{Way};
ghost use Rattle.std.specs.Prelude.{◌≡◌, IfOk, None, OnOk, Some, if◌then◌else◌};

use am_names::{NoMemory, Way};
use am_office_entries::{Entry, Event, Journal};
use std::alloc::{AllocError, Global};
use std::collections::BTreeMap;
use std::marker::Model;

/// A journal in which the receipts of a packet are found without a look at all its entries. Contracts see the entries. A
/// place is counted from 0.
#[derive(Drop)]
pub struct TracedJournal {
    journal: Journal,
    // The place of the first entry that receives a packet.
    first: BTreeMap<Way, usize>,
    // For each entry that receives a packet the place of the next that receives the same.
    later: Vec<Option<usize>>,
}

impl Model for TracedJournal {
    ghost use Rattle.std.specs.Prelude.{List};
    ghost use Rattle.am_lab_reasons.specs.Receipts.{AreFirst, AreLater};
    ghost use Rattle.am_office_entries.specs.declared.Entry.{Entry};

    ghost Value = { List Entry };

    ghost view = { λ traced. traced.journal };

    ghost invariant = { λ traced. AreFirst traced.first 0 traced.journal × AreLater traced.later.items 0 traced.journal };
}

// The packet that an event receives, if it receives one.
fn received_way(event: Event) -> Option<Way>
    ensures { result ≡ receipts.received_way event }
{
    match event {
        Event::Receive { node, peer, number } => Some(Way {
            from: peer,
            to: node,
            number,
        }),
        _ => None,
    }
}

// Notes that the entry at a place is the first that receives its packet, and gives the one that was the first.
fn note_receipt(
    first: &mut BTreeMap<Way, usize>,
    event: Event,
    place: usize,
) -> Result<Option<usize>, AllocError>
    ensures noted { OnOk result ((w : Way) → place_in first.new w ≡ (if receives w.from w.to w.number event then Some place else place_in first.old w)) }
    ensures later { IfOk result (λ later. later ≡ place_for first.old (receipts.received_way event)) }
{
    match received_way(event) {
        Some(way) => Ok(first.insert(way, place)?),
        None => Ok(None),
    }
}

// Where the entries' packets are received first, and again.
fn receipts_of(
    alloc: Global,
    entries: &[Entry],
) -> Result<(BTreeMap<Way, usize>, Vec<Option<usize>>), AllocError>
    ensures first { IfOk result (λ kept. AreFirst kept.0 0 entries.now) }
    ensures later { IfOk result (λ kept. AreLater kept.1.items 0 entries.now) }
{
    let mut first = BTreeMap::new(alloc);
    let mut later = vec![in alloc; None; entries.len()]?;
    let mut place = entries.len();
    while place > 0 {
        place -= 1;
        later[place] = note_receipt(&mut first, entries[place].event, place)?;
    }
    Ok((first, later))
}

impl TracedJournal {
    ghost use Rattle.am_lab_reasons.specs.Receipts as receipts;
    ghost use Rattle.std.specs.Prelude.{◌≡◌, ◌<◌, IfOk, length};

    /// The journal with where its packets are received, for which it goes over the entries once. `NoMemory` comes where there
    /// is none for that, and nothing is left of the journal.
    pub fn new(alloc: Global, journal: Journal) -> Result<TracedJournal, NoMemory>
        ensures { IfOk result (λ traced. traced ≡ journal) }
    {
        let (first, later) = receipts_of(alloc, &journal.entries)?;
        Ok(TracedJournal {
            journal,
            first,
            later,
        })
    }

    /// The journal.
    pub fn journal(&self) -> &Journal
        ensures { result.now ≡ self.now }
    {
        &self.journal
    }

    /// The entries.
    pub fn entries(&self) -> &[Entry]
        ensures { result.now ≡ self.now }
    {
        &self.journal.entries
    }

    /// The place of the first entry that receives a packet (`first_receipt` of specs/Receipts). None where no entry does.
    pub(crate) fn first_receipt(&self, way: Way) -> Option<usize>
        ensures { result ≡ receipts.first_receipt self.now way }
    {
        self.first.get(&way).copied()
    }

    /// The place of the next entry that receives the same packet as the one at a place (`later_receipt` of specs/Receipts).
    /// None where none does, and where that one receives none.
    pub(crate) fn later_receipt(&self, place: usize) -> Option<usize>
        requires { place < length self.now }
        ensures { result ≡ receipts.later_receipt self.now place }
    {
        self.later[place]
    }
}
