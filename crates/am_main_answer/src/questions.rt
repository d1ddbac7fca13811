//! What a program is asked for.

ghost use Rattle.am_main_answer.specs.Answers.{IsFault};
ghost use Rattle.am_main_lines.specs.Lines.{Answer, answer_in};
ghost use Rattle.std.specs.Prelude.{◌≡◌, ℕ, ◌≤◌, Bool, IfOk, List, length};

use am_main_lines::Output;
use am_names::NoMemory;
use std::alloc::Global;

/// What a program is asked for, and what it answers.
pub trait Question {
    /// Whether its numbers are ones that may be asked for.
    ghost is_in_range: { Self → Type 0 };

    /// Whether it needs a text.
    ghost reads: { Self → Bool };

    /// What the answers to the bytes of a text are; to no bytes, where it needs none.
    ghost answers: { Self → List ℕ → Answer → Type 0 };

    /// Whether it needs a text.
    fn reads_text(&self) -> bool
        ensures { result ≡ reads self.now };

    /// An answer to the bytes of a text.
    fn answer(&self, alloc: Global, bytes: &[u8]) -> Result<Output, NoMemory>
        requires in_range { is_in_range self.now }
        requires few { length bytes.now ≤ 16777216 }
        ensures answers { IfOk result (λ output. answers self.now bytes.now (answer_in output)) }
        // No answer has a status that tells a fault of the source or the sink, too many bytes, or want of memory.
        ensures own { IfOk result (λ output. ¬ IsFault output.status) };
}
