//! Messages that an endpoint received.

ghost use Rattle.am_endpoint_body.specs.Views.{slots_held};
ghost use Rattle.am_model.specs.Choice.{without_first};
ghost use Rattle.am_names.specs.Names.{is_reply, is_request};
ghost use Rattle.std.specs.Prelude.{◌≡◌, ◌<◌, [], ◌∷◌, ◌++◌, MatchOption, count_by, drop, find, length, slice_get};

use crate::Body;
use crate::moves::{file_free, free_front, front_descriptor};
use crate::walks::{Sought, count, find};
use am_block::List;
use am_names::{Message, Why};

impl Body {
    /// How many messages are received and not polled.
    pub fn received_len(&self) -> u8
        ensures { result ≡ length self.now.body.received }
    {
        self.block.len(List::Received)
    }

    /// How many requests are received and not polled.
    pub fn received_requests(&self) -> u8
        ensures { result ≡ count_by is_request self.now.body.received }
    {
        count(&self.block, List::Received, Sought::Request)
    }

    /// The front of the received messages.
    pub fn first_received(&self) -> Option<Message>
        ensures { result ≡ slice_get self.now.body.received 0 }
    {
        match front_descriptor(&self.block, List::Received) {
            Some(descriptor) => Some(descriptor.message),
            None => None,
        }
    }

    /// The front of the received messages goes.
    pub fn drop_received(&mut self)
        ensures { self.new ≡ record self.old { body = record self.old.body { received = drop 1 self.old.body.received } } }
    {
        free_front(&mut self.block, List::Received);
    }

    /// The first reply or empty reply that was received, if there is one, goes. Tells the message.
    pub fn take_reply(&mut self) -> Option<Message>
        ensures reply { result ≡ find is_reply self.old.body.received }
        ensures taken { MatchOption result (self.new ≡ self.old) (λ m. self.new ≡ record self.old { body = record self.old.body { received = without_first is_reply self.old.body.received } }) }
    {
        match find(&self.block, List::Received, Sought::Reply) {
            Some(slot) => {
                let message = self.block.get(slot).message;
                self.block.move_slot(slot, List::Free);
                Some(message)
            }
            None => None,
        }
    }

    /// A message arrives. Records and messages in flight stay as they are.
    pub fn add_received(&mut self, message: Message)
        requires { slots_held self.old.body < 80 }
        ensures { self.new ≡ record self.old { body = record self.old.body { received = self.old.body.received ++ message ∷ [] } } }
    {
        self.receive_copy(&message);
    }

    /// A copy of a message arrives. Records and messages in flight stay as they are.
    pub(crate) fn receive_copy(&mut self, message: &Message)
        requires { slots_held self.old.body < 80 }
        ensures { self.new ≡ record self.old { body = record self.old.body { received = self.old.body.received ++ message.now ∷ [] } } }
    {
        file_free(&mut self.block, List::Received, message, 0, Why::Unknown);
    }
}
