//! The verdict of an endpoint on a message that arrives.

ghost use Rattle.am_endpoint.specs.Seen.{state_in};
ghost use Rattle.am_model.specs.Endpoint.{is_waited_for, verdict};
ghost use Rattle.std.specs.Prelude.{◌≡◌, cond};

use crate::fields::Fields;
use am_model::{Head, is_resident};
use am_names::{Cause, Message, Serial, Verdict};

/// The verdict of an endpoint on disk.
pub fn verdict_on_disk(head: Head) -> Verdict
    ensures { result ≡ cond head.closed (Verdict.Refused Cause.NoEndpoint) (Verdict.Refused Cause.NotResident) }
{
    if head.closed {
        Verdict::Refused(Cause::NoEndpoint)
    } else {
        Verdict::Refused(Cause::NotResident)
    }
}

impl Fields {
    /// Whether a reply to this request is awaited.
    fn is_waited_for(&self, about: Option<Serial>) -> bool
        ensures { result ≡ is_waited_for self.now.body.body.awaited about }
    {
        match about {
            None => false,
            Some(request) => self.body.is_waiting(request),
        }
    }

    /// The verdict on a message that arrives.
    pub fn verdict(&self, m: &Message) -> Verdict
        ensures { result ≡ verdict (state_in self.now) m.now }
    {
        if self.head.closed {
            return Verdict::Refused(Cause::NoEndpoint);
        }
        if !is_resident(self.head.place) {
            return Verdict::Refused(Cause::NotResident);
        }
        if !self.body.matches(m.tag) {
            return Verdict::Refused(Cause::BadTag);
        }
        let is_request = m.is_request();
        if is_request && self.body.handler_at(m.handler).is_none() {
            return Verdict::Refused(Cause::BadHandler);
        }
        if is_request && self.body.received_requests() >= 16 {
            return Verdict::Refused(Cause::QueueFull);
        }
        if !is_request && !self.is_waited_for(m.about) {
            return Verdict::Refused(Cause::NoRequest);
        }
        Verdict::Accepted
    }
}
