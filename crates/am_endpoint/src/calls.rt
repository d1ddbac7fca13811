//! What comes of a call, and what it makes of the state of an endpoint.

ghost use Rattle.am_endpoint.specs.Done.{done};
ghost use Rattle.am_endpoint.specs.Seen.{state_in};
ghost use Rattle.am_model.specs.Allowed.{are_numbers_in_range};
ghost use Rattle.am_model.specs.Calls.{outcome_of_call, tested};
ghost use Rattle.am_model.specs.Changes.{called};
ghost use Rattle.am_model.specs.History.{are_credits_in_range};
ghost use Rattle.am_model.specs.Order.{IsInOrder};
ghost use Rattle.std.specs.Prelude.{◌≡◌, ◌+◌, ◌<◌, ◌^◌, true};

use crate::fields::Fields;
use am_names::{EndpointId, Serial, Tag, Words};
use am_office_entries::{Call, HandlerKind, Mask, Outcome, Refusal};

/// What comes of a test of the events.
fn tested(mask: Mask, quiet: bool) -> Outcome
    ensures { result ≡ tested mask quiet }
{
    match mask {
        Mask::NoEvents => Outcome::Quiet,
        Mask::NotEmpty => if quiet {
            Outcome::Quiet
        } else {
            Outcome::Ready
        },
    }
}

/// Done, unless there is a refusal.
fn done(told: Result<(), Refusal>) -> Outcome
    ensures { result ≡ done told }
{
    match told {
        Ok(()) => Outcome::Done,
        Err(refusal) => Outcome::Refused(refusal),
    }
}

impl Fields {
    fn is_closed(&self) -> bool
        ensures { result ≡ self.now.head.closed }
    {
        self.head.closed
    }

    fn request(&mut self, e: EndpointId, index: u8, handler: u8, words: Words) -> Outcome
        requires count { self.old.body.body.accepted + 1 < 2 ^ 32 }
        requires order { IsInOrder self.old.body.pool e (state_in self.old) }
        ensures outcome { result ≡ outcome_of_call self.old.body.pool e (state_in self.old) (Call.Request index handler words) }
        ensures state { state_in self.new ≡ called (state_in self.old) (Call.Request index handler words) result }
        ensures pool { self.new.body.pool ≡ self.old.body.pool }
        ensures flights { self.new.body.flights ≡ self.old.body.flights }
    {
        if self.is_closed() {
            return Outcome::Refused(Refusal::Closed);
        }
        match self.body.request(e, index, handler, words) {
            Err(refusal) => Outcome::Refused(refusal),
            Ok(message) => {
                self.want_on_host();
                Outcome::Requested(message)
            }
        }
    }

    /// Wanted from now on, where it lies on the host and a poll with this outcome sent a reply.
    fn want_for(&mut self, outcome: Outcome)
        ensures { self.new ≡ record self.old { head = (called (state_in self.old) Call.Poll outcome).head } }
    {
        match outcome {
            Outcome::Ran { sends: Some(_), .. } => self.want_on_host(),
            _ => {}
        }
    }

    fn poll(&mut self, e: EndpointId) -> Outcome
        requires count { self.old.body.body.accepted + 1 < 2 ^ 32 }
        requires order { IsInOrder self.old.body.pool e (state_in self.old) }
        ensures outcome { result ≡ outcome_of_call self.old.body.pool e (state_in self.old) Call.Poll }
        ensures state { state_in self.new ≡ called (state_in self.old) Call.Poll result }
        ensures pool { self.new.body.pool ≡ self.old.body.pool }
        ensures flights { self.new.body.flights ≡ self.old.body.flights }
    {
        let outcome = self.body.poll(e);
        self.want_for(outcome);
        outcome
    }

    fn set_tag(&mut self, e: EndpointId, tag: Tag) -> Outcome
        ensures outcome { result ≡ outcome_of_call self.old.body.pool e (state_in self.old) (Call.SetTag tag) }
        ensures state { state_in self.new ≡ called (state_in self.old) (Call.SetTag tag) result }
        ensures pool { self.new.body.pool ≡ self.old.body.pool }
        ensures flights { self.new.body.flights ≡ self.old.body.flights }
    {
        if self.is_closed() {
            return Outcome::Refused(Refusal::Closed);
        }
        if let Some(refusal) = self.body.busy_refusal() {
            return Outcome::Refused(refusal);
        }
        self.body.set_tag(tag);
        Outcome::Done
    }

    fn close(&mut self, e: EndpointId) -> Outcome
        ensures outcome { result ≡ outcome_of_call self.old.body.pool e (state_in self.old) Call.Close }
        ensures state { state_in self.new ≡ called (state_in self.old) Call.Close result }
        ensures pool { self.new.body.pool ≡ self.old.body.pool }
        ensures flights { self.new.body.flights ≡ self.old.body.flights }
    {
        if self.is_closed() {
            return Outcome::Refused(Refusal::Closed);
        }
        if let Some(refusal) = self.body.busy_refusal() {
            return Outcome::Refused(refusal);
        }
        self.head.closed = true;
        Outcome::Done
    }
}

impl Fields {
    fn map(&mut self, e: EndpointId, index: u8, name: EndpointId, tag: Tag, credits: u8) -> Outcome
        requires { are_credits_in_range self.old.body.pool credits ≡ true }
        ensures outcome { result ≡ outcome_of_call self.old.body.pool e (state_in self.old) (Call.Map index name tag credits) }
        ensures state { state_in self.new ≡ called (state_in self.old) (Call.Map index name tag credits) result }
        ensures pool { self.new.body.pool ≡ self.old.body.pool }
        ensures flights { self.new.body.flights ≡ self.old.body.flights }
    {
        if self.is_closed() {
            return Outcome::Refused(Refusal::Closed);
        }
        done(self.body.map(index, name, tag, credits))
    }

    fn unmap(&mut self, e: EndpointId, index: u8) -> Outcome
        ensures outcome { result ≡ outcome_of_call self.old.body.pool e (state_in self.old) (Call.Unmap index) }
        ensures state { state_in self.new ≡ called (state_in self.old) (Call.Unmap index) result }
        ensures pool { self.new.body.pool ≡ self.old.body.pool }
        ensures flights { self.new.body.flights ≡ self.old.body.flights }
    {
        if self.is_closed() {
            return Outcome::Refused(Refusal::Closed);
        }
        done(self.body.unmap(index))
    }

    fn set_handler(&mut self, e: EndpointId, index: u8, kind: HandlerKind) -> Outcome
        ensures outcome { result ≡ outcome_of_call self.old.body.pool e (state_in self.old) (Call.SetHandler index kind) }
        ensures state { state_in self.new ≡ called (state_in self.old) (Call.SetHandler index kind) result }
        ensures pool { self.new.body.pool ≡ self.old.body.pool }
        ensures flights { self.new.body.flights ≡ self.old.body.flights }
    {
        if self.is_closed() {
            return Outcome::Refused(Refusal::Closed);
        }
        done(self.body.set_handler(index, kind))
    }

    fn give_up(&mut self, e: EndpointId, request: Serial) -> Outcome
        ensures outcome { result ≡ outcome_of_call self.old.body.pool e (state_in self.old) (Call.GiveUp request) }
        ensures state { state_in self.new ≡ called (state_in self.old) (Call.GiveUp request) result }
        ensures pool { self.new.body.pool ≡ self.old.body.pool }
        ensures flights { self.new.body.flights ≡ self.old.body.flights }
    {
        if self.is_closed() {
            return Outcome::Refused(Refusal::Closed);
        }
        if !self.body.is_waiting(request) {
            return Outcome::Refused(Refusal::NoRequest);
        }
        self.body.give_up(request);
        Outcome::Done
    }
}

impl Fields {
    /// Makes a call of the endpoint `e`, and tells what comes of it.
    #[inline(never)]
    pub fn call(&mut self, e: EndpointId, call: Call) -> Outcome
        requires count { self.old.body.body.accepted + 1 < 2 ^ 32 }
        requires order { IsInOrder self.old.body.pool e (state_in self.old) }
        requires numbers { are_numbers_in_range self.old.body.pool call ≡ true }
        ensures outcome { result ≡ outcome_of_call self.old.body.pool e (state_in self.old) call }
        ensures state { state_in self.new ≡ called (state_in self.old) call result }
        ensures pool { self.new.body.pool ≡ self.old.body.pool }
        ensures flights { self.new.body.flights ≡ self.old.body.flights }
    {
        match call {
            Call::Request {
                index,
                handler,
                words,
            } => self.request(e, index, handler, words),
            Call::Poll => self.poll(e),
            Call::SetTag(tag) => self.set_tag(e, tag),
            Call::Map {
                index,
                name,
                tag,
                credits,
            } => self.map(e, index, name, tag, credits),
            Call::Unmap(index) => self.unmap(e, index),
            Call::SetHandler { index, kind } => self.set_handler(e, index, kind),
            Call::GiveUp(request) => self.give_up(e, request),
            Call::Close => self.close(e),
            Call::Test(mask) => tested(mask, !self.body.has_arrivals()),
        }
    }
}
