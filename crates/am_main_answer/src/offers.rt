//! How a reply is offered.

ghost use Rattle.am_io.specs.Causes.{Rose, Stands};
ghost use Rattle.am_main_answer.specs.Replies.{answer_of};
ghost use Rattle.am_main_lines.specs.Offers.{IsOffered};
ghost use Rattle.std.specs.Io.KnownBytes.{Appends};
ghost use Rattle.std.specs.Prelude.{◌≡◌, ◌≢◌, ◌⊎◌};

use crate::replies::Reply;
use am_io::{Sink, SinkFault, give_all};

/// Offers a reply. The status is its own, or that of a fault of the sink.
pub(crate) fn offer<K: Sink>(sink: &mut K, reply: &Reply) -> u8
    ensures offered { IsOffered (answer_of reply.now) result (K.held sink.old) (K.held sink.new) }
    ensures write_fault { (answer_of reply.now).status ≢ 5 → result ≡ 5 → Rose (K.count sink.old) (K.count sink.new) }
    ensures no_write_fault { result ≢ 5 → Stands (K.count sink.old) (K.count sink.new) }
    ensures shortage { (answer_of reply.now).status ≢ 8 → result ≡ 8 → Rose (K.shortages sink.old) (K.shortages sink.new) }
    ensures no_shortage { result ≢ 8 → Stands (K.shortages sink.old) (K.shortages sink.new) }
    ensures lacks { result ≡ 8 → Appends (K.held sink.old) (K.held sink.new) (answer_of reply.now).text ⊎ Rose (K.shortages sink.old) (K.shortages sink.new) }
{
    match give_all(sink, reply.text()) {
        Ok(()) => reply.status(),
        Err(SinkFault::Failed) => 5,
        Err(SinkFault::NoMemory) => 8,
    }
}

/// Offers a line that takes no memory, with a status that is neither 5 nor 8. It ends with that status, or with that of a fault of the sink.
pub fn offer_line<K: Sink>(sink: &mut K, status: u8, text: &'static [u8]) -> u8
    requires writes { status ≢ 5 }
    requires memory { status ≢ 8 }
    ensures offered { IsOffered (record { status = status; text = text.now }) result (K.held sink.old) (K.held sink.new) }
    ensures write_fault { result ≡ 5 → Rose (K.count sink.old) (K.count sink.new) }
    ensures no_write_fault { result ≢ 5 → Stands (K.count sink.old) (K.count sink.new) }
    ensures shortage { result ≡ 8 → Rose (K.shortages sink.old) (K.shortages sink.new) }
    ensures no_shortage { result ≢ 8 → Stands (K.shortages sink.old) (K.shortages sink.new) }
{
    offer(sink, &Reply::Line { status, text })
}
