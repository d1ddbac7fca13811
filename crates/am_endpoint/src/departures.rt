//! What it makes of the state of an endpoint that its front message leaves.

ghost use Rattle.am_endpoint_body.specs.Flights.{front_aloft};
ghost use Rattle.am_endpoint_body.specs.Views.{Fits};
ghost use Rattle.am_endpoint.specs.Seen.{state_in};
ghost use Rattle.am_model.specs.Changes.{bounces_of, carried, left, noticed, put, queued, reached, with_body, without_front};
ghost use Rattle.am_model.specs.Endpoint.{front_of};
ghost use Rattle.am_names.specs.Names.{same_end};
ghost use Rattle.std.specs.Prelude.{◌≡◌, ◌++◌, ◌∷◌, [], IsSome, cond};

use crate::fields::Fields;
use am_block::Slot;
use am_names::{EndpointId, Message, Why};
use am_office_entries::Outcome;

impl Fields {
    /// How often the front message bounced.
    fn front_bounces(&self) -> u8
        ensures { result ≡ bounces_of self.now.body.body.replies self.now.body.body.requests }
    {
        self.body.front_bounces()
    }

    /// A message arrives and is accepted.
    pub fn put(&mut self, m: &Message)
        requires { Fits (put m.now (state_in self.old)).body }
        ensures state { state_in self.new ≡ put m.now (state_in self.old) }
        ensures pool { self.new.body.pool ≡ self.old.body.pool }
        ensures flights { self.new.body.flights ≡ self.old.body.flights }
    {
        self.body.put(m);
    }

    /// The front message goes to the tail of its queue, having bounced so often.
    fn requeue_front(&mut self, message: Message, bounces: u8)
        requires { Fits (queued message bounces (without_front self.old.body.body)) }
        ensures state { state_in self.new ≡ with_body (state_in self.old) (queued message bounces (without_front self.old.body.body)) }
        ensures pool { self.new.body.pool ≡ self.old.body.pool }
        ensures flights { self.new.body.flights ≡ self.old.body.flights }
    {
        self.body.drop_front();
        self.body.queue(message, bounces);
    }

    /// The front message comes back, for this reason.
    fn return_front(&mut self, message: Message, why: Why)
        requires { Fits (noticed message (bounces_of self.old.body.body.replies self.old.body.body.requests) why (without_front self.old.body.body)) }
        ensures state { state_in self.new ≡ with_body (state_in self.old) (noticed message (bounces_of self.old.body.body.replies self.old.body.body.requests) why (without_front self.old.body.body)) }
        ensures pool { self.new.body.pool ≡ self.old.body.pool }
        ensures flights { self.new.body.flights ≡ self.old.body.flights }
    {
        let bounces = self.front_bounces();
        self.body.drop_front();
        self.body.come_back(message, bounces, why);
    }

    /// The front message, of which there is one, is in flight. Tells its slot.
    pub fn fly_front(&mut self) -> Slot
        requires { IsSome (front_of self.old.body.body.replies self.old.body.body.requests) }
        ensures state { state_in self.new ≡ with_body (state_in self.old) (front_aloft self.old.body.body) }
        ensures pool { self.new.body.pool ≡ self.old.body.pool }
        ensures flights { self.new.body.flights ≡ self.old.body.flights ++ result.0 ∷ [] }
    {
        self.body.fly_front()
    }

    /// The source after a carry with this outcome.
    fn leave(&mut self, outcome: &Outcome)
        requires { Fits (left (state_in self.old) outcome.now).body }
        ensures state { state_in self.new ≡ left (state_in self.old) outcome.now }
        ensures pool { self.new.body.pool ≡ self.old.body.pool }
        ensures flights { self.new.body.flights ≡ self.old.body.flights }
    {
        match *outcome {
            Outcome::Accepted(_) => self.body.drop_front(),
            Outcome::Requeued { message, used, .. } => self.requeue_front(message, used),
            Outcome::Returned { message, cause } => self.return_front(message, Why::Refused(cause)),
            _ => {}
        }
    }

    /// The endpoint `e` after a carry from `from` with this outcome, but for what reaches it.
    fn leave_from(&mut self, e: EndpointId, from: EndpointId, outcome: &Outcome)
        requires { Fits (cond (same_end e from) (left (state_in self.old) outcome.now) (state_in self.old)).body }
        ensures state { state_in self.new ≡ cond (same_end e from) (left (state_in self.old) outcome.now) (state_in self.old) }
        ensures pool { self.new.body.pool ≡ self.old.body.pool }
        ensures flights { self.new.body.flights ≡ self.old.body.flights }
    {
        if e.0 == from.0 {
            self.leave(outcome);
        }
    }

    /// The destination after a carry with this outcome.
    fn reach(&mut self, e: EndpointId, outcome: &Outcome)
        requires { Fits (reached e (state_in self.old) outcome.now).body }
        ensures state { state_in self.new ≡ reached e (state_in self.old) outcome.now }
        ensures pool { self.new.body.pool ≡ self.old.body.pool }
        ensures flights { self.new.body.flights ≡ self.old.body.flights }
    {
        match outcome {
            Outcome::Accepted(m) => if e.0 == m.dest.0 {
                self.put(m);
            },
            _ => {}
        }
    }

    /// After a carry from the endpoint `from` with this outcome.
    pub fn carry(&mut self, e: EndpointId, from: EndpointId, outcome: &Outcome)
        requires { Fits (carried e from (state_in self.old) outcome.now).body }
        ensures state { state_in self.new ≡ carried e from (state_in self.old) outcome.now }
        ensures pool { self.new.body.pool ≡ self.old.body.pool }
        ensures flights { self.new.body.flights ≡ self.old.body.flights }
    {
        self.leave_from(e, from, outcome);
        self.reach(e, outcome);
    }
}
