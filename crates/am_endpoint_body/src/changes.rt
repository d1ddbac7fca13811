//! What arrivals, runs and returns make of a body.

ghost use Rattle.am_endpoint_body.specs.Replies.{reply_ran};
ghost use Rattle.am_endpoint_body.specs.Views.{on_host, slots_held};
ghost use Rattle.am_model.specs.Changes.{noticed, put, request_ran};
ghost use Rattle.std.specs.Prelude.{◌≡◌, ◌+◌, ◌<◌, ◌^◌};

use crate::Body;
use am_names::{Message, Serial, Why};

impl Body {
    /// A message arrives and is accepted: where it is the reply to a request, the record of that request is arrived, and
    /// the request is answered where it is in flight.
    pub fn put(&mut self, message: &Message)
        requires { slots_held self.old.body < 80 }
        ensures { self.new ≡ record self.old { body = (put message.now (on_host self.old.body)).body } }
    {
        self.receive_copy(message);
        match message.about {
            None => {}
            Some(request) => {
                self.reply_arrives(request);
                self.mark_answered(request);
            }
        }
    }

    /// A reply or empty reply that was received runs, by this handler, if by any, and the record of its request goes.
    pub fn run_reply(&mut self, message: &Message, handler: Option<u8>)
        ensures { self.new ≡ record self.old { body = reply_ran message.now handler self.old.body } }
    {
        self.run(handler, message.words);
        match message.about {
            None => {}
            Some(request) => self.settle(request),
        }
    }

    /// The front of the received messages, a request, runs, by this handler, and this is sent back.
    pub fn run_request(&mut self, message: &Message, handler: Option<u8>, reply: &Message)
        requires held { slots_held self.old.body < 80 }
        requires count { self.old.body.accepted + 1 < 2 ^ 32 }
        ensures { self.new ≡ record self.old { body = request_ran message.now handler reply.now self.old.body } }
    {
        self.accepted += 1;
        self.run(handler, message.words);
        self.queue_copy(reply, 0);
        self.drop_received();
    }

    /// A message that bounced so often comes back, for this reason, and its waiting record, if there is one, goes.
    pub fn come_back(&mut self, message: Message, bounces: u8, why: Why)
        requires { slots_held self.old.body < 80 }
        ensures { self.new ≡ record self.old { body = noticed message bounces why self.old.body } }
    {
        self.add_notice(message, bounces, why);
        self.give_up(message.serial);
    }
}
