//! What an endpoint polls.

ghost use Rattle.am_endpoint_body.specs.Views.{on_host};
ghost use Rattle.am_model.specs.Calls.{poll, poll_requests};
ghost use Rattle.am_model.specs.Changes.{called};
ghost use Rattle.am_model.specs.Endpoint.{IsWithinBounds};
ghost use Rattle.am_office_entries.specs.declared.Call.TheVariants as Calls;
ghost use Rattle.std.specs.Prelude.{◌≡◌, ◌+◌, ◌<◌, ◌^◌};

use crate::Body;
use am_names::EndpointId;
use am_office_entries::Outcome;

impl Body {
    /// Polls the endpoint `e`, whose body this is: a notice first, then a reply, then a request.
    pub fn poll(&mut self, e: EndpointId) -> Outcome
        requires count { self.old.body.accepted + 1 < 2 ^ 32 }
        requires within { IsWithinBounds self.old.body }
        ensures outcome { result ≡ poll e (on_host self.old.body) self.old.body.notices }
        ensures state { self.new ≡ record self.old { body = (called (on_host self.old.body) Calls.Poll result).body } }
    {
        if let Some(notice) = self.first_notice() {
            self.drop_notice();
            return Outcome::Zero {
                serial: notice.message.serial,
                why: notice.why,
            };
        }
        if let Some(message) = self.take_reply() {
            let handler = self.handler_run(&message);
            self.run_reply(&message, handler);
            return Outcome::Ran {
                message,
                handler,
                sends: None,
            };
        }
        self.poll_requests(e)
    }

    /// A poll where no notice and no reply is there.
    fn poll_requests(&mut self, e: EndpointId) -> Outcome
        requires count { self.old.body.accepted + 1 < 2 ^ 32 }
        requires within { IsWithinBounds self.old.body }
        ensures outcome { result ≡ poll_requests e (on_host self.old.body) self.old.body.received }
        ensures state { self.new ≡ record self.old { body = (called (on_host self.old.body) Calls.Poll result).body } }
    {
        let Some(message) = self.first_received() else {
            return Outcome::Empty;
        };
        if self.replies_held() >= 16 {
            return Outcome::Blocked;
        }
        let reply = self.answer(e, &message);
        self.run_request(&message, Some(message.handler), &reply);
        Outcome::Ran {
            message,
            handler: Some(message.handler),
            sends: Some(reply),
        }
    }
}
