//! What is wrong with words that ask for nothing.

/// What is wrong with words that ask for nothing.
#[derive(Clone, Copy)]
pub enum Wrong {
    /// They have none of the forms.
    Form,
    /// `explain`: `--front` stands elsewhere than behind `explain step`.
    Front,
    /// `why`: the last word is no serial of a message.
    Serial,
    /// `chart`: one word stands there that is no message, and not two lines.
    HalfPart,
    /// `chart`: a word is no number of a line.
    Line,
    /// `scenario make`: the word is no number.
    Number,
    /// `scenario count`: a word is no number that the command takes there.
    Round,
    /// `schedule`: the word is neither a seed nor a range of seeds.
    Seed,
    /// `schedule`: a range with an equals sign, which would end with its second seed.
    ClosedRange,
    /// `schedule`: a range from or to what is no number.
    RangeOfWords,
    /// `schedule`: a range without its first seed.
    RangeWithoutStart,
    /// `schedule`: a range without its end.
    RangeWithoutEnd,
    /// `schedule`: a range with no seed in it.
    EmptyRange,
    /// `schedule`: a range of more than 100,000 seeds.
    LongRange,
    /// `state`: a word is no number of a line.
    StateLine,
    /// `find`: the word is no range of seeds.
    FindRange,
    /// `find`: there are no words of a line, or one is empty or begins with two dashes.
    FindLine,
    /// `find`, `schedule`: behind `--faults` stands no number from 0 to 100.
    Percent,
    /// `faults`: a word is no number that the command takes there.
    Faults,
    /// `shrink`: a seed for steps, or a word that is none.
    ShrinkSeed,
    /// `shrink`: there are no words of a line, or one is empty or begins with two dashes.
    ShrinkLine,
}

impl Wrong {
    /// The sentence that tells it.
    pub(crate) fn sentence(self) -> &'static str {
        match self {
            Wrong::Form => "the words have none of the forms that its usage shows",
            Wrong::Front => {
                "--front stands behind explain step: a run has no step that can't happen"
            }
            Wrong::Serial => {
                "a message is E.K as the report prints it: 0.1 is the first that endpoint 0 accepted"
            }
            Wrong::HalfPart => {
                "FROM and TO come together: chart takes two lines, a message as 0.1, --front or none of them"
            }
            Wrong::Line => {
                "FROM and TO are lines of the report: numbers up to 4294967295, with no zero in front"
            }
            Wrong::Number => {
                "N is a number from 0 to 18446744073709551615, with no zero in front"
            }
            Wrong::Round => {
                "W is 1 to 8, U 0 to 10000 and ROUND a number from 1, each with no zero in front"
            }
            Wrong::Seed => {
                "a seed is a number from 0 to 18446744073709551615, with no zero in front, and a range is SEED..SEED2"
            }
            Wrong::ClosedRange => {
                "a range ends before its second seed, and no = stands in it: 0..6 has the seeds 0 to 5"
            }
            Wrong::RangeOfWords => {
                "a range begins and ends with a number from 0 to 18446744073709551615, with no zero in front"
            }
            Wrong::RangeWithoutStart => "a range begins with a seed: 0..5 has the seeds 0 to 4",
            Wrong::RangeWithoutEnd => "a range has an end: 1..6 has the seeds 1 to 5",
            Wrong::EmptyRange => {
                "a range ends above the seed that it begins with: 1..5 has the seeds 1 to 4"
            }
            Wrong::LongRange => "a range has at most 100000 seeds",
            Wrong::StateLine => {
                "LINE and LINE2 are lines of the report: numbers up to 4294967295, with no zero in front"
            }
            Wrong::FindRange => {
                "A..B are 1 to 100000 seeds, from A up to B, which isn't among them: 0..100 has the seeds 0 to 99"
            }
            Wrong::FindLine => {
                "WORDS are those that a line of the report begins with, none of them empty or with -- in front; --not stands in front of A..B"
            }
            Wrong::Percent => {
                "PERCENT is a number from 0 to 100, with no zero in front; --faults PERCENT stands behind the seeds"
            }
            Wrong::Faults => {
                "SEED is a number from 0 to 18446744073709551615 and PERCENT one from 0 to 100, with no zero in front"
            }
            Wrong::ShrinkSeed => {
                "steps have no seed; that of a run is a number from 0 to 18446744073709551615, with no zero in front"
            }
            Wrong::ShrinkLine => {
                "WORDS are those that a line of the report begins with, none of them empty or with -- in front; --seed N stands in front of them"
            }
        }
    }
}
