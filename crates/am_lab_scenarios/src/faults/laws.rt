//! What the definition of the drawn plan says in other words.

ghost use Rattle.am_lab_scenarios.specs.Faults.Laws.{AllHaveTheirLine, EachHasItsWord, MoreKeepWhatFewerSay, NoneHasNoLine, OthersPass};

/// Each of a link's first packets has a random word of its own, and the plan says of the packet what the word says; of later packets it
/// says nothing. With the same seed and more in a hundred it says all that it said before. Of none in a hundred it is empty, of a hundred it
/// has a line for each packet that is asked about.
#[tactic(auto, using(crate::proofs::Saying::each_has_its_word, crate::proofs::Saying::others_pass, crate::proofs::Saying::more_keep, crate::proofs::Saying::none_has_no_line, crate::proofs::Saying::all_have_their_line))]
pub fn drawn_plans_by_packets()
    ensures each { EachHasItsWord }
    ensures others { OthersPass }
    ensures more { MoreKeepWhatFewerSay }
    ensures none { NoneHasNoLine }
    ensures all { AllHaveTheirLine }
{}
