//! One answer, from a source to a sink.

ghost use Rattle.am_io.specs.Causes.{Rose, Stands};
ghost use Rattle.am_io.specs.Whole.{TakesAtMost};
ghost use Rattle.am_main_answer.specs.Answers.{IsDueOffered, IsDueTo, IsFault, LacksMemory};
ghost use Rattle.am_main_lines.specs.Offers.{IsOffered, no_memory};
ghost use Rattle.std.specs.Prelude.{◌≡◌, ◌≢◌, false, true};

use crate::offers::offer;
use crate::questions::Question;
use crate::replies::{lacks_memory, reply_to};
use am_io::{Sink, Source};
use std::alloc::Global;

/// Answers a question over any source that hasn't ended and any sink: it reads the source to its end, where a text is needed, and offers one
/// answer. It gives the status that the process ends with: that of the answer; 4 where a read failed; 5 where a write failed; 7, with the
/// line, where the source had more than 16,777,216 bytes left; 8 where there was no memory. It ends at the first read that fails and at
/// the first write that is refused.
#[tactic(auto, using(crate::proofs::Ends::lacks_of, crate::proofs::Ends::ended_of))]
pub fn answer_to<Q: Question, S: Source, K: Sink>(
    alloc: Global,
    question: &Q,
    line: &'static [u8],
    source: &mut S,
    sink: &mut K,
) -> u8
    requires in_range { Q.is_in_range question.now }
    requires fresh { S.has_ended source.old ≡ false }
    // An answer that is due to the question, and to what the source had left, was offered to the sink.
    ensures answered { IsDueOffered (IsDueTo (Q.reads question.now) line.now (Q.answers question.now) (S.left source.old) (S.count source.old) (S.count source.new)) result (K.held sink.old) (K.held sink.new) }
    // A write failed where the status is 5, and nowhere else.
    ensures write_fault { result ≡ 5 → Rose (K.count sink.old) (K.count sink.new) }
    ensures no_write_fault { result ≢ 5 → Stands (K.count sink.old) (K.count sink.new) }
    // There was no memory where the status is 8: the line that says so was appended, or the sink met a shortage. Nowhere else did it meet one.
    ensures no_memory { result ≡ 8 → LacksMemory (K.held sink.old) (K.held sink.new) (K.shortages sink.old) (K.shortages sink.new) }
    ensures no_shortage { result ≢ 8 → Stands (K.shortages sink.old) (K.shortages sink.new) }
    // A text is read to its end where it is answered; where none is needed the source is left as it was.
    ensures ended { Q.reads question.now ≡ true → ¬ IsFault result → S.has_ended source.new ≡ true }
    ensures unread { Q.reads question.now ≡ false → source.new ≡ source.old }
    ensures took { TakesAtMost 16777217 (S.left source.old) (S.left source.new) }
{
    let reply = reply_to(alloc, question, line, source);
    offer(sink, &reply)
}

/// What a program answers where there is no memory for its words: it offers the line that says so.
pub fn answer_no_memory<K: Sink>(sink: &mut K) -> u8
    ensures { IsOffered no_memory result (K.held sink.old) (K.held sink.new) }
{
    offer(sink, &lacks_memory())
}
