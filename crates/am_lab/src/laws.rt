//! What the definitions of the answers say in other words.

ghost use Rattle.am_io.specs.Causes.{Rose};
ghost use Rattle.am_io.specs.Whole.{IsLonger};
ghost use Rattle.am_lab.specs.Answers.{IsTaken, statuses, too_long};
ghost use Rattle.am_lab.specs.Laws.{OfEachAnswered};
ghost use Rattle.am_main_answer.specs.Answers.{IsOneOf};
ghost use Rattle.std.specs.Io.KnownBytes.{Appends};
ghost use Rattle.std.specs.Prelude.{◌≡◌, ◌≢◌, codes};

/// What follows where an answer that is due was offered, as `answer` promises in its clause `answered`: the sink took it whole, unless a
/// write failed or memory ran out; which statuses there are for each command; and the cause and the line of a read that failed and of
/// too many bytes. Of 5 and 8 `answer` has clauses.
pub fn answers_say()
    ensures taken { OfEachAnswered (λ asked given left before now status old new. status ≢ 5 → status ≢ 8 → IsTaken asked given left before now status old new) }
    ensures ends { OfEachAnswered (λ asked given left before now status old new. IsOneOf (statuses asked) status) }
    ensures read_fault { OfEachAnswered (λ asked given left before now status old new. status ≡ 4 → Rose before now × Appends old new (codes "read fault\n")) }
    ensures too_long { OfEachAnswered (λ asked given left before now status old new. status ≡ 7 → IsLonger left 16777216 × Appends old new too_long) }
{}
