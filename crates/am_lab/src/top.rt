//! The top call.

ghost use Rattle.am_io.specs.Causes.{Rose, Stands};
ghost use Rattle.am_io.specs.Whole.{TakesAtMost};
ghost use Rattle.am_lab.specs.Answers.{IsAnswered, reads_text};
ghost use Rattle.am_lab_words.specs.Ranges.{IsInRange};
ghost use Rattle.am_main_answer.specs.Answers.{IsFault, LacksMemory};
ghost use Rattle.am_main_lines.specs.Offers.{IsOffered, no_memory};
ghost use Rattle.std.specs.Prelude.{◌≡◌, ◌≢◌, false, true};

use crate::requests::Request;
use am_io::{Sink, Source};
use am_lab_words::Asked;
use am_main_answer as answers;
use std::alloc::Global;

const TOO_LONG: &[u8] = b"input too long: more than 16777216 bytes\n";

/// The program behind its words, over any source that hasn't ended and any sink: it reads a scenario, and but for
/// `scenario` and `schedule` behind it its report, to the end of the source, and answers what is asked for. It gives the
/// status that the process ends with.
///
/// `explain` answers as `am2 check` does, and behind the line that tells a fault of the report what was due there. Behind
/// the line that tells a fault of the scenario stands that line with a mark under the place, which words might stand there,
/// and what the text may be instead; of a scenario alone it tells the first step that can't happen, or that there is no
/// report. `why`
/// answers a right report with what became of a message, `chart` with a picture of its lines or of those that touch a message, `replay` with the run's
/// journal as a step script, and each any other text as `am2 check` does. `scenario` prints the scenario that it reads; or
/// the one behind a run, of a number, for which nothing is read, of a text with segments, or of a round of a text's words.
/// `schedule` prints the report of a run of the scenario, as `am2 run` may; or of many such runs a line each, and how many
/// distinct journals there were. `find` prints the report of the least seed whose report has a line that begins with the given words, or
/// has none; `faults` the scenario with a plan that a seed draws; `shrink` some lines of the scenario whose report still has a line that
/// begins with the given words, and of which none can be left out. `json` answers a right report with its journal as lines of JSON, `page`
/// with a page that has both the journal and the picture, and `state`
/// with the machine's state at its end or behind a line, or with what changed from one line to another.
/// `why --front` and `chart --front` answer a report that has a fault with what stands in front of it, and one behind the line of a full
/// log, with status 6, with what is there. The given words are of use for `find` and `shrink` alone.
///
/// | Status | The text | When |
/// |---|---|---|
/// | 0 | `check ok`, what became of the message, the picture, the step script, the scenario, the run's report, or the runs' lines | the report is right; for `scenario` and `schedule` the text spells a scenario, or there is one behind the run |
/// | 3, 6, 10 | as `am2 check` has it, and for `explain` what was due or might stand there; 3 and 6 for `schedule` as `am2 run` has it, but the lines of many runs with status 6; 3 and 6 for `explain` of a scenario alone as `am2 step` has it, with the line of a step | the scenario or the report has a fault, a step can't happen, or a run meets a full log |
/// | 6 | the line that tells a full log, and a sentence | this line stands in front of the report, as `am2 run` prints it there: the report is cut off |
/// | 4 | `read fault` | a read failed |
/// | 5 | a front of the text | a write failed |
/// | 7 | `input too long` and how long it may be | the source had more than 16,777,216 bytes left |
/// | 8 | `no memory`, or a front of the text | there was no memory: for the answer, which may be at any time, or for the sink |
/// | 11 | `journal too long` | `replay` of a right report with more than 65,536 entries, the most steps that a step script has |
/// | 11 | `more than 20000 lines` | `chart` of more lines of a right report than it draws, or of a message that more lines touch |
/// | 11 | `text too long` and how long it may be | `scenario count` of more than 1,048,576 bytes |
/// | 12 | `no such lines` and which there are | `chart` and `state` of lines that a right report's journal doesn't have; `chart` of none |
/// | 12 | `no endpoint` and its number | `why` and `chart` of a message of an endpoint that a right report's scenario doesn't declare |
/// | 12 | `no round` and how many there are | `scenario count` of a text that has no round with this number |
/// | 12 | `no such seed` and the range | `find` where no seed's report is one that is looked for |
/// | 12 | `no such line` | `shrink` of a scenario whose report has no line that begins with the given words |
/// | 11 | `more than 4096 lines` | `shrink` of a text with more lines |
#[tactic(auto, unfolding(crate::specs::Answers::IsDue))]
pub fn answer<S: Source, K: Sink>(
    alloc: Global,
    asked: Asked,
    given: &[u8],
    source: &mut S,
    sink: &mut K,
) -> u8
    requires fresh { S.has_ended source.old ≡ false }
    requires in_range { IsInRange asked }
    // An answer that is due to what is asked for, and to what the source had left, was offered to the sink.
    ensures answered { IsAnswered asked given.now (S.left source.old) (S.count source.old) (S.count source.new) result (K.held sink.old) (K.held sink.new) }
    // A write failed where the status is 5, and nowhere else.
    ensures write_fault { result ≡ 5 → Rose (K.count sink.old) (K.count sink.new) }
    ensures no_write_fault { result ≢ 5 → Stands (K.count sink.old) (K.count sink.new) }
    // There was no memory where the status is 8: the line that says so was appended, or the sink met a shortage. Nowhere else did it meet one.
    ensures no_memory { result ≡ 8 → LacksMemory (K.held sink.old) (K.held sink.new) (K.shortages sink.old) (K.shortages sink.new) }
    ensures no_shortage { result ≢ 8 → Stands (K.shortages sink.old) (K.shortages sink.new) }
    // A text is read to its end where it is answered; `scenario make` leaves the source as it was.
    ensures ended { reads_text asked ≡ true → ¬ IsFault result → S.has_ended source.new ≡ true }
    ensures unread { reads_text asked ≡ false → source.new ≡ source.old }
    ensures took { TakesAtMost 16777217 (S.left source.old) (S.left source.new) }
{
    answers::answer_to(alloc, &Request { asked, given }, TOO_LONG, source, sink)
}

/// What the program answers where there is no memory for the words after its name: it offers the line that says so.
pub fn answer_no_memory<K: Sink>(sink: &mut K) -> u8
    ensures { IsOffered no_memory result (K.held sink.old) (K.held sink.new) }
{
    answers::answer_no_memory(sink)
}
