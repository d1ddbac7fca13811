//! Messages of its own that an endpoint has in flight.

ghost use Rattle.am_block.specs.Pools.{without};
ghost use Rattle.am_endpoint_body.specs.Flights.{flight_noticed, front_aloft, slot_of};
ghost use Rattle.am_endpoint_body.specs.Views.{flying_in};
ghost use Rattle.am_model.specs.Changes.{flying_of, marked, requeued_flight, returned_flight, without_flight};
ghost use Rattle.am_model.specs.Endpoint.{front_of};
ghost use Rattle.std.specs.Option.{option_map};
ghost use Rattle.std.specs.Prelude.{◌≡◌, ◌↔◌, [], ◌∷◌, ◌++◌, IsSome, None, Some, length, map};

use crate::Body;
use crate::moves::{Change, front_slot, refile};
use crate::queues::queue_of;
use crate::walks::{Sought, answer_flights, find};
use am_block::{Descriptor, List, Slot};
use am_model::Flying;
use am_names::{Serial, Why};

fn as_flying(descriptor: &Descriptor) -> Flying
    ensures { result ≡ flying_in descriptor.now }
{
    Flying {
        message: descriptor.message,
        bounces: descriptor.used,
        answered: descriptor.answered,
    }
}

impl Body {
    /// How many messages are in flight.
    pub fn in_flight_len(&self) -> u8
        ensures { result ≡ length self.now.body.in_flight }
    {
        self.block.len(List::InFlight)
    }

    /// The message in flight with this serial, if any.
    pub fn flight(&self, serial: Serial) -> Option<Flying>
        ensures { result ≡ flying_of serial self.now.body.in_flight }
    {
        match find(&self.block, List::InFlight, Sought::Of(serial)) {
            Some(slot) => Some(as_flying(self.block.get(slot))),
            None => None,
        }
    }

    /// The slot of the first message in flight with this serial. None exactly where no message with this serial is in flight.
    pub fn flight_slot(&self, serial: Serial) -> Option<Slot>
        ensures slot { option_map (λ s. s.0) result ≡ slot_of serial self.now.body.in_flight self.now.flights }
        ensures none { (result ≡ None) ↔ (flying_of serial self.now.body.in_flight ≡ None) }
    {
        find(&self.block, List::InFlight, Sought::Of(serial))
    }

    /// The front message, of which there is one, is in flight from now on, and has no reply yet. Tells its slot.
    pub fn fly_front(&mut self) -> Slot
        requires { IsSome (front_of self.old.body.replies self.old.body.requests) }
        ensures { self.new ≡ record self.old { body = front_aloft self.old.body; flights = self.old.flights ++ result.0 ∷ [] } }
    {
        match front_slot(&self.block) {
            Some(slot) => {
                refile(&mut self.block, slot, List::InFlight, Change::Flies);
                slot
            }
            None => unreachable!(),
        }
    }

    /// The message in flight with this serial, whose slot this is, was delivered: its slot is free from now on.
    pub fn land(&mut self, serial: Serial, slot: Slot)
        requires { slot_of serial self.old.body.in_flight self.old.flights ≡ Some slot.0 }
        ensures { self.new ≡ record self.old { body = without_flight serial self.old.body; flights = without slot.0 self.old.flights } }
    {
        self.block.move_slot(slot, List::Free);
    }

    /// The message in flight with this serial, whose slot this is, goes back to the tail of its queue, having bounced so often.
    pub fn requeue_flight(&mut self, serial: Serial, slot: Slot, bounces: u8)
        requires { slot_of serial self.old.body.in_flight self.old.flights ≡ Some slot.0 }
        ensures { self.new ≡ record self.old { body = requeued_flight (flying_of serial self.old.body.in_flight) bounces (without_flight serial self.old.body); flights = without slot.0 self.old.flights } }
    {
        let queue = queue_of(&self.block.get(slot).message);
        refile(&mut self.block, slot, queue, Change::Bounced(bounces));
    }

    /// The message in flight with this serial, whose slot this is, is a notice from now on, for this reason.
    fn notice_flight(&mut self, serial: Serial, slot: Slot, why: Why)
        requires { slot_of serial self.old.body.in_flight self.old.flights ≡ Some slot.0 }
        ensures { self.new ≡ record self.old { body = flight_noticed serial why self.old.body; flights = without slot.0 self.old.flights } }
    {
        refile(&mut self.block, slot, List::Notices, Change::Back(why));
    }

    /// The message in flight with this serial, whose slot this is, comes back, for this reason, and its waiting record, if there is
    /// one, goes.
    pub fn return_flight(&mut self, serial: Serial, slot: Slot, why: Why)
        requires { slot_of serial self.old.body.in_flight self.old.flights ≡ Some slot.0 }
        ensures { self.new ≡ record self.old { body = returned_flight serial (flying_of serial self.old.body.in_flight) why (without_flight serial self.old.body); flights = without slot.0 self.old.flights } }
    {
        self.give_up(serial);
        self.notice_flight(serial, slot, why);
    }

    /// The request is answered, where it is in flight.
    pub fn mark_answered(&mut self, request: Serial)
        ensures { self.new ≡ record self.old { body = record self.old.body { in_flight = map (marked request) self.old.body.in_flight } } }
    {
        answer_flights(&mut self.block, request);
    }
}
