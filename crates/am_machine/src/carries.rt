//! Carries of the direct network.

ghost use Rattle.am_machine.specs.Refusals.{refusal};
ghost use Rattle.am_machine.specs.View.{Makes};
ghost use Rattle.am_model.specs.History.{is_in_range};
ghost use Rattle.am_office_entries.specs.declared.Event.TheVariants as Events;
ghost use Rattle.std.specs.Prelude.{◌≡◌, true};

use crate::Cluster;
use crate::ends::{carry_between, is_full, least_full, place_of, room_for_both};
use am_model::{EntryFault, judged};
use am_names::EndpointId;
use am_office_entries::{Condition, Entry, Event, Part};
use am_scenario_types::Network;

impl Cluster {
    /// What a carry is refused for, want of memory aside.
    pub(crate) fn refusal_of_carry(&self, end: EndpointId) -> Option<EntryFault>
        requires { is_in_range self.now.layout (Events.Carry end) ≡ true }
        ensures { result ≡ refusal self.now (Events.Carry end) }
    {
        match self.settings.network {
            Network::Packet => Some(EntryFault::NotEnabled(Condition::NotDirect)),
            Network::Direct => self.refusal_of_front(end),
        }
    }

    /// What a carry of the direct network is refused for, want of memory aside.
    fn refusal_of_front(&self, end: EndpointId) -> Option<EntryFault>
        requires direct { self.now.layout.direct ≡ true }
        requires in_range { is_in_range self.now.layout (Events.Carry end) ≡ true }
        ensures { result ≡ refusal self.now (Events.Carry end) }
    {
        let Some(source) = place_of(&self.ends, end) else {
            unreachable!()
        };
        let Some(front) = self.ends[source].front() else {
            return Some(EntryFault::NotEnabled(Condition::NoMessage));
        };
        let to = front.message.dest;
        let Some(dest) = place_of(&self.ends, to) else {
            unreachable!()
        };
        let limit = self.settings.log;
        let is_source_full = is_full(&self.ends[source], limit);
        let is_dest_full = is_full(&self.ends[dest], limit);
        match least_full(end, is_source_full, to, is_dest_full) {
            Some(full) => Some(EntryFault::LogFull(Part::Endpoint(full))),
            None => None,
        }
    }

    /// Carries the front message of an endpoint to its destination, where the network is direct.
    pub(crate) fn carry(&mut self, end: EndpointId) -> Result<(), EntryFault>
        requires { is_in_range self.old.layout (Events.Carry end) ≡ true }
        ensures { Makes self.old self.new (Events.Carry end) result }
    {
        match self.settings.network {
            Network::Packet => Err(EntryFault::NotEnabled(Condition::NotDirect)),
            Network::Direct => self.carry_front(end),
        }
    }

    /// Carries the front message of an endpoint of the direct network to its destination.
    fn carry_front(&mut self, end: EndpointId) -> Result<(), EntryFault>
        requires direct { self.old.layout.direct ≡ true }
        requires in_range { is_in_range self.old.layout (Events.Carry end) ≡ true }
        ensures { Makes self.old self.new (Events.Carry end) result }
    {
        if let Some(fault) = self.refusal_of_front(end) {
            return Err(fault);
        }
        let Some(source) = place_of(&self.ends, end) else {
            unreachable!()
        };
        let Some(front) = self.ends[source].front() else {
            unreachable!()
        };
        let message = front.message;
        let Some(dest) = place_of(&self.ends, message.dest) else {
            unreachable!()
        };
        let verdict = self.ends[dest].verdict(&message);
        let Ok(()) = room_for_both(&mut self.ends, source, dest) else {
            return Err(EntryFault::NoMemory);
        };
        let entry = Entry {
            stamp: self.index.greatest_stamp() + 1,
            event: Event::Carry { end },
            outcome: judged(self.settings.bounces, message, front.bounces, verdict),
        };
        carry_between(&mut self.ends, source, dest, entry);
        self.index.log(&entry, None);
        Ok(())
    }
}
