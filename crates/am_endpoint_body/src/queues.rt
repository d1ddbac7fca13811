//! Messages of its own that an endpoint has to send.

ghost use Rattle.am_block.specs.declared.List.TheVariants as Which;
ghost use Rattle.am_endpoint_body.specs.Views.{queued_in, slots_held};
ghost use Rattle.am_model.specs.Changes.{bounces_of, queued, without_front};
ghost use Rattle.am_model.specs.Endpoint.{front_of};
ghost use Rattle.am_names.specs.Names.{is_request};
ghost use Rattle.std.specs.Option.{option_map};
ghost use Rattle.std.specs.Prelude.{◌≡◌, ◌↔◌, ◌<◌, [], None, cond};

use crate::Body;
use crate::moves::{file_free, free_front, front_descriptor};
use am_block::{Descriptor, List};
use am_model::Queued;
use am_names::{Message, Why};

/// The list of the messages to be sent where this one goes.
pub(crate) fn queue_of(message: &Message) -> List
    ensures { result ≡ cond (is_request message.now) Which.Requests Which.Replies }
{
    if message.is_request() {
        List::Requests
    } else {
        List::Replies
    }
}

fn as_queued(descriptor: &Descriptor) -> Queued
    ensures { result ≡ queued_in descriptor.now }
{
    Queued {
        message: descriptor.message,
        bounces: descriptor.used,
    }
}

impl Body {
    /// The front message, and how often it bounced: the front of replies, and where there is none the front of requests. None
    /// exactly where both are empty.
    pub fn front(&self) -> Option<Queued>
        ensures value { result ≡ front_of self.now.body.replies self.now.body.requests }
        ensures none { (result ≡ None) ↔ ((self.now.body.replies ≡ []) × (self.now.body.requests ≡ [])) }
    {
        self.first_queued()
    }

    /// The front of replies, and where there is none the front of requests.
    fn first_queued(&self) -> Option<Queued>
        ensures { result ≡ front_of self.now.body.replies self.now.body.requests }
    {
        if let Some(reply) = front_descriptor(&self.block, List::Replies) {
            return Some(as_queued(reply));
        }
        match front_descriptor(&self.block, List::Requests) {
            Some(request) => Some(as_queued(request)),
            None => None,
        }
    }

    /// The front message where it lies: that of `front`.
    pub fn front_message(&self) -> Option<&Message>
        ensures value { option_map (λ message. message.now) result ≡ option_map (λ queued. queued.message) (front_of self.now.body.replies self.now.body.requests) }
        ensures none { (result ≡ None) ↔ ((self.now.body.replies ≡ []) × (self.now.body.requests ≡ [])) }
    {
        self.first_message()
    }

    /// The message of the front of replies, and where there is none that of the front of requests.
    fn first_message(&self) -> Option<&Message>
        ensures { option_map (λ message. message.now) result ≡ option_map (λ queued. queued.message) (front_of self.now.body.replies self.now.body.requests) }
    {
        if let Some(answer) = front_descriptor(&self.block, List::Replies) {
            return Some(&answer.message);
        }
        match front_descriptor(&self.block, List::Requests) {
            Some(request) => Some(&request.message),
            None => None,
        }
    }

    /// How often the front message bounced, and 0 where there is none.
    pub fn front_bounces(&self) -> u8
        ensures { result ≡ bounces_of self.now.body.replies self.now.body.requests }
    {
        if let Some(first) = front_descriptor(&self.block, List::Replies) {
            return first.used;
        }
        match front_descriptor(&self.block, List::Requests) {
            Some(first) => first.used,
            None => 0,
        }
    }

    /// The front message leaves its queue.
    pub fn drop_front(&mut self)
        ensures { self.new ≡ record self.old { body = without_front self.old.body } }
    {
        if self.block.len(List::Replies) == 0 {
            free_front(&mut self.block, List::Requests);
        } else {
            free_front(&mut self.block, List::Replies);
        }
    }

    /// A message goes to the tail of its queue, having bounced so often.
    pub fn queue(&mut self, message: Message, bounces: u8)
        requires { slots_held self.old.body < 80 }
        ensures { self.new ≡ record self.old { body = queued message bounces self.old.body } }
    {
        self.queue_copy(&message, bounces);
    }

    /// A copy of a message goes to the tail of its queue, having bounced so often.
    pub(crate) fn queue_copy(&mut self, message: &Message, bounces: u8)
        requires { slots_held self.old.body < 80 }
        ensures { self.new ≡ record self.old { body = queued message.now bounces self.old.body } }
    {
        let list = queue_of(message);
        file_free(&mut self.block, list, message, bounces, Why::Unknown);
    }
}
