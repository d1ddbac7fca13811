//! What an endpoint holds, in numbers.

ghost use Rattle.am_endpoint_body.specs.Views.{on_host};
ghost use Rattle.am_model.specs.Calls.{busy_refusal, messages_held};
ghost use Rattle.am_model.specs.Changes.{has_arrivals, has_queued};
ghost use Rattle.am_model.specs.Endpoint.{replies_held, requests_held};
ghost use Rattle.std.specs.Prelude.{◌≡◌, ◌↔◌, ◌+◌, ◌≤◌, ◌==◌, [], false, length, not};

use crate::Body;
use crate::walks::{Sought, count};
use am_block::List;
use am_office_entries::Refusal;

impl Body {
    /// How many messages of its own are queued, in flight or noticed.
    pub fn messages_held(&self) -> u8
        ensures value { result ≡ messages_held self.now.body }
        ensures few { result ≤ 80 }
    {
        let requests = self.block.len(List::Requests);
        let replies = self.block.len(List::Replies);
        let flying = self.block.len(List::InFlight);
        let back = self.block.len(List::Notices);
        requests + replies + flying + back
    }

    /// How many request slots are held.
    pub fn requests_held(&self) -> u8
        ensures { result ≡ requests_held self.now.body }
    {
        let queued = self.block.len(List::Requests);
        let flying = count(&self.block, List::InFlight, Sought::Request);
        let back = count(&self.block, List::Notices, Sought::Request);
        queued + flying + back
    }

    /// How many reply slots are held.
    pub fn replies_held(&self) -> u8
        ensures { result ≡ replies_held self.now.body }
    {
        let queued = self.block.len(List::Replies);
        let flying = count(&self.block, List::InFlight, Sought::Reply);
        let back = count(&self.block, List::Notices, Sought::Reply);
        queued + flying + back
    }

    /// Whether a message of its own is queued.
    pub fn has_queued(&self) -> bool
        ensures { result ≡ has_queued self.now.body }
    {
        self.block.len(List::Requests) != 0 || self.block.len(List::Replies) != 0
    }

    /// Whether a reply or an empty reply is to be sent.
    pub fn has_reply(&self) -> bool
        ensures { result ≡ not (length self.now.body.replies == 0) }
    {
        self.block.len(List::Replies) != 0
    }

    /// Whether a notice or a received message is there. False exactly where there is neither.
    pub fn has_arrivals(&self) -> bool
        ensures value { result ≡ has_arrivals self.now.body }
        ensures none { (result ≡ false) ↔ ((self.now.body.notices ≡ []) × (self.now.body.received ≡ [])) }
    {
        self.may_poll()
    }

    /// Whether a notice or a received message is there, by the lengths of their lists.
    fn may_poll(&self) -> bool
        ensures { result ≡ has_arrivals self.now.body }
    {
        self.block.len(List::Notices) != 0 || self.block.len(List::Received) != 0
    }

    /// What keeps an endpoint from a change for which it has to be idle: `Held`, with what it has received, its own
    /// messages and its records, where it has any.
    pub fn busy_refusal(&self) -> Option<Refusal>
        ensures { result ≡ busy_refusal (on_host self.now.body) }
    {
        let received = self.received_len();
        let messages = self.messages_held();
        let outstanding = self.outstanding();
        if received == 0 && messages == 0 && outstanding == 0 {
            None
        } else {
            Some(Refusal::Held {
                received,
                messages,
                outstanding,
            })
        }
    }
}
