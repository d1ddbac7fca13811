//! The top call.

ghost use Rattle.std.specs.Prelude.{◌≡◌, ◌≢◌, IfSome, None, true, false};
ghost use Rattle.am_io.specs.Causes.{Rose, Stands};
ghost use Rattle.am_io.specs.Whole.{TakesAtMost};
ghost use Rattle.am_main.specs.Answers.{IsAnswered, IsOfCommand, LacksMemory};
ghost use Rattle.am_main.specs.Commands.{IsInRange, asked_by, reads_text};
ghost use Rattle.am_main_lines.specs.Offers.{IsOffered, no_memory};

use crate::commands::{Command, command_of};
use crate::jobs::Job;
use am_io::{Sink, Source};
use am_main_answer as answers;
use std::alloc::Global;
use std::thread::Threads;

/// How the program ends: the number that the process ends with. docs/MANUAL.md lists them.
#[derive(Clone, Copy, PartialEq, Eq)]
pub struct Status {
    pub number: u8,
}

const USAGE: &[u8] =
    b"usage: am2 step | am2 run | am2 make N | am2 segments | am2 session | am2 count W U | am2 check step | am2 check run\n";

const TOO_LONG: &[u8] = b"input too long\n";

// Tells that the words have no form.
#[tactic(auto, using(am_io::proofs::Parts::took_none))]
fn answer_wrong<S: Source, K: Sink>(source: &mut S, sink: &mut K) -> u8
    ensures answered { IsAnswered None (S.left source.old) (S.count source.old) (S.count source.new) result (K.held sink.old) (K.held sink.new) }
    ensures write_fault { result ≡ 5 → Rose (K.count sink.old) (K.count sink.new) }
    ensures no_write_fault { result ≢ 5 → Stands (K.count sink.old) (K.count sink.new) }
    ensures shortage { result ≡ 8 → Rose (K.shortages sink.old) (K.shortages sink.new) }
    ensures no_shortage { result ≢ 8 → Stands (K.shortages sink.old) (K.shortages sink.new) }
    ensures unread { source.new ≡ source.old }
    ensures took { TakesAtMost 16777217 (S.left source.old) (S.left source.new) }
{
    answers::offer_line(sink, 2, USAGE)
}

// Answers what was asked for, if it has a form.
#[tactic(auto, using(crate::proofs::Statuses::no_fault))]
fn answer_asked<R: Threads + Sync, S: Source, K: Sink>(
    rt: &R,
    alloc: Global,
    asked: Option<Command>,
    source: &mut S,
    sink: &mut K,
) -> u8
    requires fresh { S.has_ended source.old ≡ false }
    requires in_range { IfSome asked IsInRange }
    ensures answered { IsAnswered asked (S.left source.old) (S.count source.old) (S.count source.new) result (K.held sink.old) (K.held sink.new) }
    ensures write_fault { result ≡ 5 → Rose (K.count sink.old) (K.count sink.new) }
    ensures no_write_fault { result ≢ 5 → Stands (K.count sink.old) (K.count sink.new) }
    ensures no_memory { result ≡ 8 → LacksMemory (K.held sink.old) (K.held sink.new) (K.shortages sink.old) (K.shortages sink.new) }
    ensures no_shortage { result ≢ 8 → Stands (K.shortages sink.old) (K.shortages sink.new) }
    ensures ended { reads_text asked ≡ true → IsOfCommand result → S.has_ended source.new ≡ true }
    ensures unread { reads_text asked ≡ false → source.new ≡ source.old }
    ensures took { TakesAtMost 16777217 (S.left source.old) (S.left source.new) }
{
    match asked {
        Some(command) => answers::answer_to(alloc, &Job { rt, command }, TOO_LONG, source, sink),
        None => answer_wrong(source, sink),
    }
}

/// The program, over any source that hasn't ended and any sink. Its words are `step`, which reads a step script and prints the report
/// of the one history that follows its lines; `run`, which reads a scenario with the scripts of threads, runs them with the interfaces
/// and drivers at the same time for the scenario's number of turns, drains what is left, and prints the report of that run; `make N`,
/// which reads nothing and prints the summary of the run of a generated scenario without turns; `segments`, which reads a scenario with
/// segments, runs it so and prints also their bytes and what ran of each transfer; `session`, which reads the events of two
/// interfaces that restart and prints the report of the one history of its lines; `count W U`, which reads a text, has W nodes count
/// its words by messages in runs of U turns, and prints how often each stands in it; or `check step` and `check run`, which read a
/// scenario of that form and behind it a report, and say whether this is the report of a history that follows the scenario.
///
/// It offers one answer to the sink, and ends with its status, or with that of a fault of the sink:
///
/// | Status | The text | When |
/// |---|---|---|
/// | 0 | the report, the summary, the counts, or `check ok` | the bytes, or the number, have this answer |
/// | 2 | the usage line | the words have no form |
/// | 3 | the line that is refused, and why | the bytes spell no scenario, or have a step that can't happen |
/// | 4 | `read fault` | a read failed |
/// | 5 | a front of the text | a write failed |
/// | 6 | the log; behind it for `run`, `segments` and `count` the report of what the run made before | a log is full |
/// | 7 | `input too long` | the source had more than 16,777,216 bytes left |
/// | 8 | `no memory`, or a front of the text | there was no memory: for the answer, which may be at any time, or for the sink |
/// | 10 | the first line of a report that has a fault | `check` found it |
/// | 11 | `text too long` | `count` takes no more than 1,048,576 bytes |
///
/// It ends at the first read that fails and at the first write that is refused. What `answered` says of each status, as that the text of
/// a report was taken whole, the law `answers_say` draws from it.
pub fn am2<R: Threads + Sync, S: Source, K: Sink>(
    rt: &R,
    alloc: Global,
    words: &[String],
    source: &mut S,
    sink: &mut K,
) -> Status
    requires { S.has_ended source.old ≡ false }
    // An answer that is due to what the words ask for, and to what the source had left, was offered to the sink.
    ensures answered { IsAnswered (asked_by words.now) (S.left source.old) (S.count source.old) (S.count source.new) result.number (K.held sink.old) (K.held sink.new) }
    // A write failed where the status is 5, and nowhere else.
    ensures write_fault { result.number ≡ 5 → Rose (K.count sink.old) (K.count sink.new) }
    ensures no_write_fault { result.number ≢ 5 → Stands (K.count sink.old) (K.count sink.new) }
    // There was no memory where the status is 8: the line that says so was appended, or the sink met a shortage. Nowhere else did it meet one.
    ensures no_memory { result.number ≡ 8 → LacksMemory (K.held sink.old) (K.held sink.new) (K.shortages sink.old) (K.shortages sink.new) }
    ensures no_shortage { result.number ≢ 8 → Stands (K.shortages sink.old) (K.shortages sink.new) }
    // A text is read to its end where it is answered; words of no form and `make` leave the source as it was.
    ensures ended { reads_text (asked_by words.now) ≡ true → IsOfCommand result.number → S.has_ended source.new ≡ true }
    ensures unread { reads_text (asked_by words.now) ≡ false → source.new ≡ source.old }
    ensures took { TakesAtMost 16777217 (S.left source.old) (S.left source.new) }
{
    let number = answer_asked(rt, alloc, command_of(words), source, sink);
    Status { number }
}

/// What the program answers where there is no memory for the words after its name: it offers the line that says so.
pub fn answer_no_memory<K: Sink>(sink: &mut K) -> Status
    ensures { IsOffered no_memory result.number (K.held sink.old) (K.held sink.new) }
{
    Status {
        number: answers::answer_no_memory(sink),
    }
}
