//! What keeps a work from being done, asked without doing it.

ghost use Rattle.am_endpoint.specs.View.{state_after};
ghost use Rattle.am_iface.specs.Refusals.{full_here, full_with, refusal_alone, refusal_with, refused_by};
ghost use Rattle.am_iface.specs.View.{FitsInterface, IsChannelOf, own};
ghost use Rattle.am_iface.specs.With.{KnowsHome};
ghost use Rattle.am_model.specs.Endpoint.{State};
ghost use Rattle.am_model_parts.specs.Interface.{failing_at, needs};
ghost use Rattle.am_model_parts.specs.declared.work.Work.TheVariants as Works;
ghost use Rattle.std.specs.Prelude.{◌≡◌, None, Some};

use crate::Interface;
use am_endpoint::Endpoint;
use am_model::EntryFault;
use am_model_parts::work::Work;
use am_names::NodeId;
use am_office_entries::{Condition, Part};

/// What is refused for this condition that fails, or else for this log that is full, if either is.
pub fn refused_by(condition: Option<Condition>, full: Option<Part>) -> Option<EntryFault>
    ensures { result ≡ refused_by condition full }
{
    match (condition, full) {
        (Some(condition), _) => Some(EntryFault::NotEnabled(condition)),
        (None, Some(part)) => Some(EntryFault::LogFull(part)),
        (None, None) => None,
    }
}

impl Interface {
    /// Its own log, where that is full.
    fn full_here(&self) -> Option<Part>
        ensures { result ≡ full_here self.now }
    {
        if self.is_full() {
            Some(Part::Interface(self.node()))
        } else {
            None
        }
    }

    /// The endpoint's log, where that is full, or else its own.
    fn full_with(&self, endpoint: &Endpoint) -> Option<Part>
        ensures { result ≡ full_with self.now endpoint.now }
    {
        if endpoint.is_full() {
            Some(Part::Endpoint(endpoint.id()))
        } else {
            self.full_here()
        }
    }

    /// The condition that keeps a channel from timing out: that it is idle.
    fn failing_expiry(&self, peer: NodeId, channel: u8) -> Option<Condition>
        requires on { IsChannelOf self.now.settings peer channel }
        ensures { (s : State) → result ≡ failing_at (own self.now) s (Works.Expire peer channel) }
    {
        match self.bound(peer, channel) {
            Some(_) => None,
            None => Some(Condition::Idle),
        }
    }

    /// The first condition that keeps a work from being done that touches no endpoint.
    fn failing_alone(&self, work: &Work) -> Option<Condition>
        requires fits { FitsInterface self.now work.now }
        requires alone { needs (own self.now) work.now ≡ None }
        ensures { (s : State) → result ≡ failing_at (own self.now) s work.now }
    {
        match work {
            Work::Receive(_) => None,
            Work::Bind(_) => unreachable!(),
            Work::Expire { peer, channel } => self.failing_expiry(*peer, *channel),
        }
    }

    /// The first condition that keeps a work from being done that touches this endpoint.
    fn failing_with(&self, work: &Work, endpoint: &Endpoint) -> Option<Condition>
        requires fits { FitsInterface self.now work.now }
        requires needs { needs (own self.now) work.now ≡ Some endpoint.now.settings.id }
        requires known { KnowsHome (own self.now) (state_after endpoint.now) work.now }
        ensures { result ≡ failing_at (own self.now) (state_after endpoint.now) work.now }
    {
        match work {
            Work::Receive(_) => None,
            Work::Bind(_) => match self.way(endpoint) {
                Ok(_) => None,
                Err(condition) => Some(condition),
            },
            Work::Expire { peer, channel } => self.failing_expiry(*peer, *channel),
        }
    }

    /// What a work that touches no endpoint is refused for, want of memory aside: the first condition that fails, or the
    /// full log where none does. It is a test: the work isn't done.
    pub fn refusal_alone(&self, work: &Work) -> Option<EntryFault>
        requires fits { FitsInterface self.now work.now }
        requires alone { needs (own self.now) work.now ≡ None }
        ensures { (s : State) → result ≡ refusal_alone self.now s work.now }
    {
        refused_by(self.failing_alone(work), self.full_here())
    }

    /// What a work that touches this endpoint is refused for, want of memory aside: the first condition that fails, or the
    /// first full log where none does, the endpoint's before its own. It is a test: the work isn't done.
    pub fn refusal_with(&self, work: &Work, endpoint: &Endpoint) -> Option<EntryFault>
        requires fits { FitsInterface self.now work.now }
        requires needs { needs (own self.now) work.now ≡ Some endpoint.now.settings.id }
        requires known { KnowsHome (own self.now) (state_after endpoint.now) work.now }
        ensures { result ≡ refusal_with self.now endpoint.now work.now }
    {
        refused_by(self.failing_with(work, endpoint), self.full_with(endpoint))
    }
}
