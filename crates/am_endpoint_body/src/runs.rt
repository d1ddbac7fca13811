//! Handlers of an endpoint that run.

ghost use Rattle.am_endpoint_body.specs.Views.{on_host};
ghost use Rattle.am_endpoint_body.specs.Replies.{made_by};
ghost use Rattle.am_model.specs.Calls.{answer, handler_refusal, handler_run, sum_after};
ghost use Rattle.am_model.specs.Changes.{kind_run};
ghost use Rattle.am_model.specs.Endpoint.{entry_at};
ghost use Rattle.std.specs.Prelude.{◌≡◌, ◌+◌, ◌<◌, ◌^◌, OnErr, OnOk, Some, slice_set};
ghost use Rattle.std.specs.Result.{result_err};

use crate::Body;
use am_handlers::{HandlerFault, run};
use am_names::{EndpointId, Message, MsgKind, Tag, Words};
use am_office_entries::{HandlerKind, Refusal};

const NO_WORDS: Words = Words {
    a: 0,
    b: 0,
    c: 0,
    d: 0,
};

/// The handler that a reply is for and its words, where a handler of this kind makes one.
fn made_by(kind: Option<HandlerKind>, words: Words, sum: u64) -> Option<(u8, Words)>
    ensures { result ≡ made_by kind words sum }
{
    match kind {
        None => None,
        Some(kind) => run(kind, words, sum).reply,
    }
}

impl Body {
    /// The kind of the handler at an index, if one is set there.
    pub fn handler_at(&self, index: u8) -> Option<HandlerKind>
        ensures { result ≡ entry_at self.now.body.handlers index }
    {
        self.handlers.get(index)
    }

    /// The handler that runs for a reply or empty reply, if any: that of a reply, where it is set.
    pub fn handler_run(&self, message: &Message) -> Option<u8>
        ensures { result ≡ handler_run (on_host self.now.body) message.now }
    {
        match (message.kind, self.handler_at(message.handler)) {
            (MsgKind::Reply, Some(_)) => Some(message.handler),
            _ => None,
        }
    }

    /// Sets a handler, whether it was set or not. The refusal is `BadIndex` where the index is 16 or more, and `Reserved`
    /// where it is 0; then the body is as it was.
    pub fn set_handler(&mut self, index: u8, kind: HandlerKind) -> Result<(), Refusal>
        ensures refusal { result_err result ≡ handler_refusal (on_host self.old.body) index }
        ensures ok { OnOk result (self.new ≡ record self.old { body = record self.old.body { handlers = slice_set self.old.body.handlers index (Some kind) } }) }
        ensures err { OnErr result (self.new ≡ self.old) }
    {
        match self.handlers.set(index, kind) {
            Ok(()) => Ok(()),
            Err(HandlerFault::BadIndex) => Err(Refusal::BadIndex),
            Err(HandlerFault::Reserved) => Err(Refusal::Reserved),
        }
    }

    /// What the handler of a request sends back, as the next message that the endpoint `e`, whose body this is, accepts.
    pub fn answer(&self, e: EndpointId, message: &Message) -> Message
        requires { self.now.body.accepted + 1 < 2 ^ 32 }
        ensures { result ≡ answer e (on_host self.now.body) message.now (entry_at self.now.body.handlers message.now.handler) }
    {
        let reply = made_by(self.handler_at(message.handler), message.words, self.sum);
        let (kind, handler, words) = match reply {
            None => (MsgKind::Empty, 0, NO_WORDS),
            Some((handler, words)) => (MsgKind::Reply, handler, words),
        };
        Message {
            serial: self.new_serial(e),
            kind,
            dest: message.serial.source,
            tag: message.reply_tag,
            reply_tag: Tag(0),
            handler,
            words,
            about: Some(message.serial),
        }
    }

    fn kind_run(&self, handler: Option<u8>) -> Option<HandlerKind>
        ensures { result ≡ kind_run self.now.body.handlers handler }
    {
        match handler {
            None => None,
            Some(handler) => self.handler_at(handler),
        }
    }

    /// A handler, if any, runs on these words, and may change the sum.
    pub fn run(&mut self, handler: Option<u8>, words: Words)
        ensures { self.new ≡ record self.old { body = record self.old.body { sum = sum_after (kind_run self.old.body.handlers handler) words self.old.body.sum } } }
    {
        match self.kind_run(handler) {
            Some(kind) => self.sum = run(kind, words, self.sum).sum,
            None => {}
        }
    }
}
