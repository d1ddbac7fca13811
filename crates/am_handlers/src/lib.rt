//! The handler table of an endpoint, and what a handler's run gives. Nothing here takes memory.
#![tactic(auto)]

ghost use Rattle.am_handlers.specs.Handlers.{IsTable, IsUnset, reply_of};
ghost use Rattle.am_model.specs.Calls.{sum_after};
ghost use Rattle.am_model.specs.Endpoint.{entry_at};
ghost use Rattle.std.specs.Prelude.{◌≡◌, ◌≤◌, ◌⊎◌, ◌↔◌, None, Some, Err, OnErr, OnOk, replicate, slice_set};

use am_names::Words;
use am_office_entries::HandlerKind;
use std::marker::Model;
use thiserror::Error;

/// The handlers of an endpoint by their indexes, 0 to 15. Contracts see the list of the 16 kinds, `None` where no
/// handler is set. Index 0 is the handler of messages that came back, which is always there and has no kind.
#[derive(Drop)]
pub struct Handlers {
    kinds: [Option<HandlerKind>; 16],
}

impl Model for Handlers {
    ghost use Rattle.std.specs.Prelude.{List, Option};
    ghost use Rattle.am_office_entries.specs.declared.HandlerKind.{HandlerKind};

    ghost Value = { List (Option HandlerKind) };

    ghost use Rattle.am_handlers.specs.Handlers.{IsTable};

    ghost view = { λ table. table.kinds };

    ghost invariant = { λ table. IsTable table.kinds };
}

/// Why a handler was not set. The first that holds, in this order, is the fault.
#[derive(Clone, Copy, PartialEq, Eq, Debug, Error)]
pub enum HandlerFault {
    /// The index is 16 or more.
    #[error("the index is 16 or more")]
    BadIndex,
    /// The index is 0, whose handler is always there and can't be set.
    #[error("index 0 is always set")]
    Reserved,
}

/// What a handler's run gives.
#[derive(Clone, Copy, PartialEq, Eq)]
pub struct Ran {
    /// The endpoint's sum after it.
    pub sum: u64,
    /// The handler that the reply is for, and its words; `None` where the handler makes no reply.
    pub reply: Option<(u8, Words)>,
}

impl Handlers {
    /// A table where no handler is set.
    pub fn new() -> Handlers
        ensures empty { result ≡ replicate 16 None }
        ensures table { IsTable result }
    {
        Handlers { kinds: [None; 16] }
    }

    /// The table with these kinds, for the 16 indexes from 0 on.
    pub fn restored(kinds: &[Option<HandlerKind>]) -> Handlers
        requires { IsTable kinds.now }
        ensures value { result ≡ kinds.now }
        ensures table { IsTable result }
    {
        let mut table = [None; 16];
        table.copy_from_slice(kinds);
        Handlers { kinds: table }
    }

    /// The kinds of the 16 handlers, from index 0 on.
    pub fn kinds(&self) -> &[Option<HandlerKind>]
        ensures value { result.now ≡ self.now }
        ensures table { IsTable self.now }
    {
        &self.kinds
    }

    /// The kind of a handler.
    pub fn get(&self, index: u8) -> Option<HandlerKind>
        ensures value { result ≡ entry_at self.now index }
        ensures none { (result ≡ None) ↔ ((index ≡ 0) ⊎ ((16 ≤ index) ⊎ IsUnset self.now index)) }
        ensures table { IsTable self.now }
    {
        if index < 16 {
            self.kinds[index as usize]
        } else {
            None
        }
    }

    /// Sets a handler, whether it was set or not. After a fault the table is as it was.
    pub fn set(&mut self, index: u8, kind: HandlerKind) -> Result<(), HandlerFault>
        ensures bad_index { (result ≡ Err HandlerFault.BadIndex) ↔ (16 ≤ index) }
        ensures reserved { (result ≡ Err HandlerFault.Reserved) ↔ (index ≡ 0) }
        ensures ok { OnOk result (self.new ≡ slice_set self.old index (Some kind)) }
        ensures err { OnErr result (self.new ≡ self.old) }
        ensures table { OnOk result (IsTable self.new) }
    {
        if index >= 16 {
            return Err(HandlerFault::BadIndex);
        }
        if index == 0 {
            return Err(HandlerFault::Reserved);
        }
        self.kinds[index as usize] = Some(kind);
        Ok(())
    }
}

/// What a run of a handler of this kind gives, for a message with these words at an endpoint with this sum.
pub fn run(kind: HandlerKind, words: Words, sum: u64) -> Ran
    ensures sum { result.sum ≡ sum_after (Some kind) words sum }
    ensures reply { result.reply ≡ reply_of kind words sum }
    ensures none { (result.reply ≡ None) ↔ (kind ≡ HandlerKind.Note) }
{
    match kind {
        HandlerKind::Note => Ran { sum, reply: None },
        HandlerKind::Echo(to) => Ran {
            sum,
            reply: Some((to, words)),
        },
        HandlerKind::Add(to) => {
            let total = sum.wrapping_add(words.a);
            Ran {
                sum: total,
                reply: Some((
                    to,
                    Words {
                        a: total,
                        b: words.b,
                        c: words.c,
                        d: words.d,
                    },
                )),
            }
        }
    }
}
