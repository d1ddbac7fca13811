//! The records of the requests whose replies an endpoint awaits.

ghost use Rattle.am_model.specs.Changes.{without_waiting, without_record, with_arrived};
ghost use Rattle.am_translate.specs.Tables.{IsTable, with_awaited};
ghost use Rattle.am_model.specs.Endpoint.{waits_for};
ghost use Rattle.std.specs.List.{list_any};
ghost use Rattle.std.specs.Prelude.{◌≡◌, Some, length};

use crate::Body;
use am_names::Serial;
use am_translate::Translate;

/// The waiting record of a request, if there is one, goes.
fn drop_waiting(table: &mut Translate, request: Serial)
    requires { IsTable table.old }
    ensures gone { table.new ≡ with_awaited table.old (without_waiting request table.old.awaited) }
    ensures table { IsTable table.new }
{
    match table.give_up(request) {
        Ok(()) => {}
        Err(_) => {}
    }
}

/// The record of a request, if there is one, goes.
fn drop_record(table: &mut Translate, request: Serial)
    requires { IsTable table.old }
    ensures gone { table.new ≡ with_awaited table.old (without_record (Some request) table.old.awaited) }
    ensures table { IsTable table.new }
{
    match table.reply_taken(request) {
        Ok(()) => {}
        Err(_) => drop_waiting(table, request),
    }
}

impl Body {
    /// How many records there are, at most 32.
    pub fn outstanding(&self) -> u8
        ensures { result ≡ length self.now.body.awaited }
    {
        self.translate.outstanding()
    }

    /// Whether the reply to a request is awaited: its record waits.
    pub fn is_waiting(&self, request: Serial) -> bool
        ensures { result ≡ list_any (waits_for request) self.now.body.awaited }
    {
        self.translate.is_waiting(request)
    }

    /// The waiting record of a request, if there is one, goes.
    pub fn give_up(&mut self, request: Serial)
        ensures { self.new ≡ record self.old { body = record self.old.body { awaited = without_waiting request self.old.body.awaited } } }
    {
        drop_waiting(&mut self.translate, request);
    }

    /// The reply to a request arrived: its record, if there is one, is arrived from now on.
    pub fn reply_arrives(&mut self, request: Serial)
        ensures { self.new ≡ record self.old { body = record self.old.body { awaited = with_arrived (Some request) self.old.body.awaited } } }
    {
        match self.translate.reply_arrives(request) {
            Ok(()) => {}
            Err(_) => {}
        }
    }

    /// The record of a request, if there is one, goes, whether its reply arrived or not.
    pub fn settle(&mut self, request: Serial)
        ensures { self.new ≡ record self.old { body = record self.old.body { awaited = without_record (Some request) self.old.body.awaited } } }
    {
        drop_record(&mut self.translate, request);
    }
}
