//! What each entry makes of the state of an endpoint.

ghost use Rattle.am_endpoint_body.specs.Views.{Fits};
ghost use Rattle.am_endpoint.specs.Events.{keeps_flights};
ghost use Rattle.am_endpoint.specs.Seen.{state_in};
ghost use Rattle.am_model.specs.Allowed.{message_in};
ghost use Rattle.am_model.specs.Changes.{after, has_queued, placed, received};
ghost use Rattle.std.specs.Prelude.{◌≡◌, ◌||◌, false, is_some, true};

use crate::fields::Fields;
use am_names::{Cause, EndpointId};
use am_office_entries::{Entry, Event, Outcome, Place, Received};

impl Fields {
    fn unload(&mut self)
        ensures body { self.new.body ≡ self.old.body }
        ensures state { state_in self.new ≡ placed (state_in self.old) Place.Host ((state_in self.old).head.wanted || has_queued (state_in self.old).body) (state_in self.old).head.draining }
    {
        self.head.wanted = self.head.wanted || self.body.has_queued();
        self.head.place = Place::Host;
    }

    fn load(&mut self, frame: u8)
        ensures body { self.new.body ≡ self.old.body }
        ensures state { state_in self.new ≡ placed (state_in self.old) (Place.Frame frame) false false }
    {
        self.head.place = Place::Frame(frame);
        self.head.wanted = false;
        self.head.draining = false;
    }

    /// After a receipt of a message with this result.
    fn arrive(&mut self, e: EndpointId, what: &Received)
        requires message { is_some (message_in what.now) ≡ true }
        requires fits { Fits (received e (state_in self.old) what.now).body }
        ensures state { state_in self.new ≡ received e (state_in self.old) what.now }
        ensures pool { self.new.body.pool ≡ self.old.body.pool }
        ensures flights { self.new.body.flights ≡ self.old.body.flights }
    {
        match what {
            Received::Accepted { message, .. } => self.put(message),
            Received::Refused {
                cause: Cause::NotResident,
                ..
            } => self.head.wanted = true,
            Received::Refused { .. } => {}
            _ => unreachable!(),
        }
    }

    /// After an entry that touches it, and is no call, where it stays in memory with its messages in flight.
    pub fn apply(&mut self, e: EndpointId, entry: &Entry)
        requires keeps { keeps_flights entry.now.event entry.now.outcome ≡ true }
        requires fits { Fits (after e (state_in self.old) entry.now).body }
        ensures state { state_in self.new ≡ after e (state_in self.old) entry.now }
        ensures pool { self.new.body.pool ≡ self.old.body.pool }
        ensures flights { self.new.body.flights ≡ self.old.body.flights }
    {
        match entry.event {
            Event::Carry { end } => self.carry(e, end, &entry.outcome),
            Event::Receive { .. } => match &entry.outcome {
                Outcome::Received { result: what, .. } => self.arrive(e, what),
                _ => unreachable!(),
            },
            Event::Drain { .. } => self.head.draining = true,
            Event::Unload { .. } => self.unload(),
            Event::Load { frame, .. } => self.load(frame),
            _ => unreachable!(),
        }
    }
}
