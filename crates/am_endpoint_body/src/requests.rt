//! The requests that an endpoint makes.

ghost use Rattle.am_endpoint_body.specs.Refusals.{of_credit};
ghost use Rattle.am_endpoint_body.specs.Views.{on_host, table_of};
ghost use Rattle.am_model.specs.Calls.{new_request, new_serial, request_refusal};
ghost use Rattle.am_model.specs.Changes.{request_accepted};
ghost use Rattle.am_model.specs.Endpoint.{IsWithinBounds, entry_at, requests_held};
ghost use Rattle.am_office_entries.specs.declared.Outcome.TheVariants as Out;
ghost use Rattle.am_translate.specs.Tables.{credit_fault, is_known, target_at};
ghost use Rattle.std.specs.Prelude.{◌≡◌, ◌+◌, ◌<◌, ◌^◌, [], ◌∷◌, ◌++◌, IfOk, None, OnErr, OnOk, Some, false};
ghost use Rattle.std.specs.Result.{result_err};

use crate::Body;
use am_names::{EndpointId, Message, MsgKind, Serial, Words};
use am_office_entries::Refusal;
use am_translate::{CreditFault, Target};

fn of_credit(fault: CreditFault) -> Refusal
    ensures { result ≡ of_credit fault }
{
    match fault {
        CreditFault::BadIndex => Refusal::BadIndex,
        CreditFault::NotMapped => Refusal::NotMapped,
        CreditFault::NoCredit => Refusal::NoCredit,
        CreditFault::TableFull => Refusal::TableFull,
    }
}

impl Body {
    /// The serial of the next message that the endpoint `e`, whose body this is, accepts.
    pub fn new_serial(&self, e: EndpointId) -> Serial
        requires { self.now.body.accepted + 1 < 2 ^ 32 }
        ensures { result ≡ new_serial e (on_host self.now.body) }
    {
        Serial {
            source: e,
            count: self.accepted + 1,
        }
    }

    /// Where a request by an index goes. The refusal is the first that holds of `OwnTagNone`, `BadIndex`, `NotMapped`, `NoCredit`,
    /// `TableFull` and `SendFull`; where there is none the index has a credit, and a request slot is free.
    fn request_target(&self, index: u8) -> Result<Target, Refusal>
        ensures refusal { result_err result ≡ request_refusal self.now.pool (on_host self.now.body) index }
        ensures target { IfOk result (λ target. target_at (table_of self.now) index ≡ Some target) }
        ensures credit { OnOk result (credit_fault (table_of self.now) index ≡ None) }
        ensures spare { OnOk result (requests_held self.now.body < 16) }
    {
        if self.is_tagless() {
            return Err(Refusal::OwnTagNone);
        }
        match self.translate.can_take(index) {
            Err(fault) => Err(of_credit(fault)),
            Ok(target) => if self.requests_held() >= 16 {
                Err(Refusal::SendFull)
            } else {
                Ok(target)
            },
        }
    }

    /// A request by an index that has a credit gets a record, which waits.
    fn take_credit(&mut self, index: u8, request: Serial)
        requires credit { credit_fault (table_of self.old) index ≡ None }
        requires unknown { is_known (table_of self.old) request ≡ false }
        ensures { self.new ≡ record self.old { body = record self.old.body { awaited = self.old.body.awaited ++ record { index = index; serial = request; arrived = false } ∷ [] } } }
    {
        self.translate.take(index, request);
    }

    /// One more message is accepted.
    fn accept_next(&mut self)
        requires { self.old.body.accepted + 1 < 2 ^ 32 }
        ensures { self.new ≡ record self.old { body = record self.old.body { accepted = self.old.body.accepted + 1 } } }
    {
        self.accepted += 1;
    }

    /// Makes a request by an index, from the endpoint `e`, whose body this is. The refusal is the first that holds of
    /// `OwnTagNone`, `BadIndex`, `NotMapped`, `NoCredit`, `TableFull` and `SendFull`; then the body is as it was.
    pub fn request(
        &mut self,
        e: EndpointId,
        index: u8,
        handler: u8,
        words: Words,
    ) -> Result<Message, Refusal>
        requires count { self.old.body.accepted + 1 < 2 ^ 32 }
        requires unknown { is_known (table_of self.old) (new_serial e (on_host self.old.body)) ≡ false }
        requires within { IsWithinBounds self.old.body }
        ensures refusal { result_err result ≡ request_refusal self.old.pool (on_host self.old.body) index }
        ensures message { IfOk result (λ m. new_request e (on_host self.old.body) (entry_at self.old.body.mapped index) handler words ≡ Out.Requested m) }
        ensures ok { IfOk result (λ m. self.new ≡ record self.old { body = (request_accepted index m (on_host self.old.body)).body }) }
        ensures err { OnErr result (self.new ≡ self.old) }
    {
        match self.request_target(index) {
            Err(refusal) => Err(refusal),
            Ok(target) => {
                let message = Message {
                    serial: self.new_serial(e),
                    kind: MsgKind::Request,
                    dest: target.name,
                    tag: target.tag,
                    reply_tag: self.tag,
                    handler,
                    words,
                    about: None,
                };
                self.take_credit(index, message.serial);
                self.accept_next();
                self.queue_copy(&message, 0);
                Ok(message)
            }
        }
    }
}
