//! The moves of a node's driver.

ghost use Rattle.am_model_parts.specs.Driver.{end_moved};
ghost use Rattle.am_model.specs.Parts.{driver_of};
ghost use Rattle.am_machine.specs.Refusals.{refusal};
ghost use Rattle.am_machine.specs.View.{Makes};
ghost use Rattle.am_model.specs.History.{failing, is_in_range};
ghost use Rattle.std.specs.Prelude.{◌≡◌, Some, false, true};

use crate::Cluster;
use crate::ends::{is_full, place_of};
use crate::frames::{failing_on, is_taken};
use am_driver_moves::make_move;
use am_model::EntryFault;
use am_names::{EndpointId, NodeId};
use am_office_entries::{Condition, Event, Part};
use am_scenario_types::Network;

impl Cluster {
    /// Makes a move of a node's driver: a drain, an unload, a load, a page-out or a page-in.
    pub(crate) fn make_move(
        &mut self,
        event: Event,
        node: NodeId,
        end: EndpointId,
    ) -> Result<(), EntryFault>
        requires driver { driver_of event ≡ Some node }
        requires end { end_moved event ≡ Some end }
        requires in_range { is_in_range self.old.layout event ≡ true }
        ensures { Makes self.old self.new event result }
    {
        if let Some(fault) = self.refusal_of_move(event, node, end) {
            return Err(fault);
        }
        let Some(place) = place_of(&self.ends, end) else {
            unreachable!()
        };
        let stamp = self.index.greatest_stamp() + 1;
        let swap = &mut self.swaps[node.0 as usize];
        match make_move(self.alloc, swap, &mut self.ends[place], event, stamp) {
            Ok(entry) => {
                self.index.log(&entry, None);
                Ok(())
            }
            Err(_) => Err(EntryFault::NoMemory),
        }
    }

    /// What a move is refused for, want of memory aside.
    pub(crate) fn refusal_of_move(
        &self,
        event: Event,
        node: NodeId,
        end: EndpointId,
    ) -> Option<EntryFault>
        requires driver { driver_of event ≡ Some node }
        requires end { end_moved event ≡ Some end }
        requires in_range { is_in_range self.now.layout event ≡ true }
        ensures { result ≡ refusal self.now event }
    {
        if let Some(condition) = self.failing_move(event, node, end) {
            return Some(EntryFault::NotEnabled(condition));
        }
        let Some(place) = place_of(&self.ends, end) else {
            unreachable!()
        };
        if is_full(&self.ends[place], self.settings.log) {
            return Some(EntryFault::LogFull(Part::Endpoint(end)));
        }
        None
    }

    /// The first condition that keeps a move from being made.
    fn failing_move(&self, event: Event, node: NodeId, end: EndpointId) -> Option<Condition>
        requires driver { driver_of event ≡ Some node }
        requires end { end_moved event ≡ Some end }
        requires in_range { is_in_range self.now.layout event ≡ true }
        ensures { result ≡ failing self.now.layout self.now.journal event }
    {
        match self.settings.network {
            Network::Direct => Some(Condition::NotPacket),
            Network::Packet => self.failing_packet_move(event, node, end),
        }
    }

    /// The first condition that keeps a move of the packet network from being made.
    fn failing_packet_move(&self, event: Event, node: NodeId, end: EndpointId) -> Option<Condition>
        requires packet { self.now.layout.direct ≡ false }
        requires driver { driver_of event ≡ Some node }
        requires end { end_moved event ≡ Some end }
        requires in_range { is_in_range self.now.layout event ≡ true }
        ensures { result ≡ failing self.now.layout self.now.journal event }
    {
        let Some(place) = place_of(&self.ends, end) else {
            unreachable!()
        };
        let one = &self.ends[place];
        if node.0 != one.node().0 {
            return Some(Condition::OtherNode);
        }
        failing_on(one, event, is_taken(&self.ends, event))
    }
}
