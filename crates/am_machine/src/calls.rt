//! Calls and wants of applications.

ghost use Rattle.am_machine.specs.Refusals.{refusal};
ghost use Rattle.am_machine.specs.View.{Makes};
ghost use Rattle.am_model.specs.History.{is_in_range};
ghost use Rattle.am_office_entries.specs.declared.Event.TheVariants as Events;
ghost use Rattle.std.specs.Prelude.{◌≡◌, true};

use crate::Cluster;
use crate::ends::{is_full, is_on_disk, place_of};
use am_model::EntryFault;
use am_names::EndpointId;
use am_office_entries::{Actor, Call, Condition, Part};

impl Cluster {
    /// What a call of an application is refused for, want of memory aside.
    pub(crate) fn refusal_of_call(
        &self,
        actor: Actor,
        end: EndpointId,
        call: Call,
    ) -> Option<EntryFault>
        requires { is_in_range self.now.layout (Events.Call actor end call) ≡ true }
        ensures { result ≡ refusal self.now (Events.Call actor end call) }
    {
        let Some(place) = place_of(&self.ends, end) else {
            unreachable!()
        };
        if is_on_disk(&self.ends[place]) {
            return Some(EntryFault::NotEnabled(Condition::OnDisk));
        }
        if is_full(&self.ends[place], self.settings.log) {
            return Some(EntryFault::LogFull(Part::Endpoint(end)));
        }
        None
    }

    /// What a want of an endpoint is refused for, want of memory aside.
    pub(crate) fn refusal_of_want(&self, actor: Actor, end: EndpointId) -> Option<EntryFault>
        requires { is_in_range self.now.layout (Events.Want actor end) ≡ true }
        ensures { result ≡ refusal self.now (Events.Want actor end) }
    {
        let Some(place) = place_of(&self.ends, end) else {
            unreachable!()
        };
        if !is_on_disk(&self.ends[place]) {
            return Some(EntryFault::NotEnabled(Condition::NotOnDisk));
        }
        if is_full(&self.ends[place], self.settings.log) {
            return Some(EntryFault::LogFull(Part::Endpoint(end)));
        }
        None
    }

    /// Makes a call of an application.
    pub(crate) fn call(
        &mut self,
        actor: Actor,
        end: EndpointId,
        call: Call,
    ) -> Result<(), EntryFault>
        requires { is_in_range self.old.layout (Events.Call actor end call) ≡ true }
        ensures { Makes self.old self.new (Events.Call actor end call) result }
    {
        if let Some(fault) = self.refusal_of_call(actor, end, call) {
            return Err(fault);
        }
        let Some(place) = place_of(&self.ends, end) else {
            unreachable!()
        };
        match self.ends[place].call(self.index.greatest_stamp(), actor, call) {
            Ok(entry) => {
                self.index.log(&entry, None);
                Ok(())
            }
            Err(_) => Err(EntryFault::NoMemory),
        }
    }

    /// Wants an endpoint that is on disk.
    pub(crate) fn want(&mut self, actor: Actor, end: EndpointId) -> Result<(), EntryFault>
        requires { is_in_range self.old.layout (Events.Want actor end) ≡ true }
        ensures { Makes self.old self.new (Events.Want actor end) result }
    {
        if let Some(fault) = self.refusal_of_want(actor, end) {
            return Err(fault);
        }
        let Some(place) = place_of(&self.ends, end) else {
            unreachable!()
        };
        match self.ends[place].want(self.index.greatest_stamp(), actor) {
            Ok(entry) => {
                self.index.log(&entry, None);
                Ok(())
            }
            Err(_) => Err(EntryFault::NoMemory),
        }
    }
}
