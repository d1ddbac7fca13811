//! What the definitions of the answers say in other words.

ghost use Rattle.std.specs.Prelude.{◌≡◌, ◌≢◌, None, codes};
ghost use Rattle.std.specs.Io.KnownBytes.{Appends};
ghost use Rattle.am_io.specs.Causes.{Rose};
ghost use Rattle.am_io.specs.Whole.{IsLonger};
ghost use Rattle.am_main.specs.Answers.{IsOneOf, IsTaken, statuses, usage};
ghost use Rattle.am_main.specs.Laws.{AnswersSay, OfEachAnswered};

/// What follows where an answer that is due was offered, as `am2` promises in its clause `answered`: the sink took it whole, unless a
/// write failed or memory ran out; which statuses there are for what was asked; and the cause and the line of each status that is none
/// of a command's own answers, 5 and 8 apart, of which `am2` has clauses.
///
/// And where the sink took an answer whole, under a status of a command: the bytes that the source had left have this answer, or the
/// number of `make` has; and where no count of faults rose, that is so unless the bytes are too many or memory ran out. With status 0
/// each command has printed what it is for; and 11 is of `count` alone.
#[tactic(auto, using(crate::proofs::Statuses::taken_of, crate::proofs::Statuses::ends_of, crate::proofs::Statuses::usage_of, crate::proofs::Statuses::read_fault_of, crate::proofs::Statuses::too_long_of, crate::proofs::Saying::answers_say))]
pub fn answers_say()
    ensures taken { OfEachAnswered (λ asked left before now status old new. status ≢ 5 → status ≢ 8 → IsTaken asked left before now status old new) }
    ensures ends { OfEachAnswered (λ asked left before now status old new. IsOneOf (statuses asked) status) }
    ensures usage { OfEachAnswered (λ asked left before now status old new. status ≡ 2 → (asked ≡ None) × Appends old new usage.text) }
    ensures read_fault { OfEachAnswered (λ asked left before now status old new. status ≡ 4 → Rose before now × Appends old new (codes "read fault\n")) }
    ensures too_long { OfEachAnswered (λ asked left before now status old new. status ≡ 7 → IsLonger left 16777216 × Appends old new (codes "input too long\n")) }
    ensures says { AnswersSay }
{}
