//! The words of `schedule`.

ghost use Rattle.am_lab_words.specs.Words.{schedule_by, schedule_drawn, schedule_faulty, schedule_in, schedule_of};
ghost use Rattle.std.specs.Prelude.{◌≡◌};

use crate::faults::percent_of;
use crate::numbers::printed_number;
use crate::ranges::seeds_in;
use crate::{Asked, Seeds, Trials, Wrong};

fn schedule_in(faults: Option<u8>, seeds: Result<Seeds, Wrong>) -> Result<Asked, Wrong>
    ensures { result ≡ schedule_in faults seeds }
{
    match seeds {
        Ok(seeds) => Ok(Asked::Schedules(Trials { seeds, faults })),
        Err(wrong) => Err(wrong),
    }
}

// What a seed or a range of seeds asks for.
#[tactic(auto, unfolding(crate::specs::Words::schedule_by))]
fn schedule_by(faults: Option<u8>, word: &[u8]) -> Result<Asked, Wrong>
    ensures { result ≡ schedule_by faults word.now }
{
    match printed_number(word) {
        Some(seed) => Ok(Asked::Schedule { seed, faults }),
        None => schedule_in(faults, seeds_in(word)),
    }
}

/// What a word of `schedule` asks for: a seed, or a range of seeds.
#[tactic(auto, unfolding(crate::specs::Words::schedule_of))]
pub(crate) fn schedule_of(word: &[u8]) -> Result<Asked, Wrong>
    ensures { result ≡ schedule_of word.now }
{
    schedule_by(None, word)
}

fn schedule_drawn(faults: Option<u8>, word: &[u8]) -> Result<Asked, Wrong>
    ensures { result ≡ schedule_drawn faults word.now }
{
    match faults {
        Some(_) => schedule_by(faults, word),
        None => Err(Wrong::Percent),
    }
}

/// What a word of `schedule` with two more behind it asks for.
#[tactic(auto, unfolding(crate::specs::Words::schedule_faulty))]
pub(crate) fn schedule_faulty(word: &[u8], option: &str, percent: &str) -> Result<Asked, Wrong>
    ensures { result ≡ schedule_faulty word.now option.now percent.now }
{
    if option == "--faults" {
        schedule_drawn(percent_of(percent), word)
    } else {
        Err(Wrong::Form)
    }
}
