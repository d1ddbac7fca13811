//! What becomes of the messages that an endpoint has in flight.

ghost use Rattle.am_block.specs.Pools.{without};
ghost use Rattle.am_endpoint.specs.Flights.{IsSlotOf};
ghost use Rattle.am_endpoint.specs.Seen.{state_in};
ghost use Rattle.am_model.specs.Changes.{after, expired, given_up_by, received, settled_by, settled_in};
ghost use Rattle.std.specs.Prelude.{◌≡◌};

use crate::fields::Fields;
use am_block::Slot;
use am_names::{EndpointId, Why};
use am_office_entries::{Entry, Event, Outcome, Received};

impl Fields {
    /// After a receipt with this result, which settles the message in flight at this slot.
    fn settle_answered(&mut self, e: EndpointId, what: &Received, slot: Slot)
        requires slot { IsSlotOf (settled_by what.now) self.old.body.body.in_flight self.old.body.flights slot.0 }
        ensures state { state_in self.new ≡ received e (state_in self.old) what.now }
        ensures pool { self.new.body.pool ≡ self.old.body.pool }
        ensures flights { self.new.body.flights ≡ without slot.0 self.old.body.flights }
    {
        match *what {
            Received::Delivered(serial) => self.body.land(serial, slot),
            Received::Requeued { serial, used, .. } => {
                self.body.requeue_flight(serial, slot, used)
            }
            Received::Returned { serial, cause } => {
                self.body.return_flight(serial, slot, Why::Refused(cause))
            }
            _ => unreachable!(),
        }
    }

    /// After a time-out with this outcome, which gives up the message in flight at this slot.
    fn expire(&mut self, outcome: &Outcome, slot: Slot)
        requires slot { IsSlotOf (given_up_by outcome.now) self.old.body.body.in_flight self.old.body.flights slot.0 }
        ensures state { state_in self.new ≡ expired (state_in self.old) outcome.now }
        ensures pool { self.new.body.pool ≡ self.old.body.pool }
        ensures flights { self.new.body.flights ≡ without slot.0 self.old.body.flights }
    {
        match *outcome {
            Outcome::Delivered(serial) => self.body.land(serial, slot),
            Outcome::Unknown(serial) => self.body.return_flight(serial, slot, Why::Unknown),
            _ => unreachable!(),
        }
    }

    /// After an entry that settles the message in flight at this slot, or gives it up.
    pub fn settle(&mut self, e: EndpointId, entry: &Entry, slot: Slot)
        requires slot { IsSlotOf (settled_in entry.now.event entry.now.outcome) self.old.body.body.in_flight self.old.body.flights slot.0 }
        ensures state { state_in self.new ≡ after e (state_in self.old) entry.now }
        ensures pool { self.new.body.pool ≡ self.old.body.pool }
        ensures flights { self.new.body.flights ≡ without slot.0 self.old.body.flights }
    {
        match entry.event {
            Event::Receive { .. } => match &entry.outcome {
                Outcome::Received { result: what, .. } => self.settle_answered(e, what, slot),
                _ => unreachable!(),
            },
            Event::Expire { .. } => self.expire(&entry.outcome, slot),
            _ => unreachable!(),
        }
    }
}
