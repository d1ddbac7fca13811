//! The words of `faults`, and `--faults PERCENT` behind seeds.

ghost use Rattle.am_lab_words.specs.Words.{faults_in, faults_of, percent_by, percent_in, percent_of};
ghost use Rattle.std.specs.Prelude.{◌≡◌};

use crate::numbers::printed_number;
use crate::{Asked, Wrong};

#[tactic(auto, unfolding(crate::specs::Words::percent_by))]
fn percent_by(percent: u64) -> Option<u8>
    ensures { result ≡ percent_by percent }
{
    if percent <= 100 {
        Some(percent as u8)
    } else {
        None
    }
}

fn percent_in(percent: Option<u64>) -> Option<u8>
    ensures { result ≡ percent_in percent }
{
    match percent {
        Some(percent) => percent_by(percent),
        None => None,
    }
}

/// How many in a hundred a word has: 0 to 100.
pub(crate) fn percent_of(word: &str) -> Option<u8>
    ensures { result ≡ percent_of word.now }
{
    percent_in(printed_number(word.as_bytes()))
}

fn faults_in(seed: Option<u64>, percent: Option<u8>) -> Result<Asked, Wrong>
    ensures { result ≡ faults_in seed percent }
{
    match (seed, percent) {
        (Some(seed), Some(percent)) => Ok(Asked::Faults { seed, percent }),
        _ => Err(Wrong::Faults),
    }
}

/// What `faults` and two words ask for.
pub(crate) fn faults_of(seed: &str, percent: &str) -> Result<Asked, Wrong>
    ensures { result ≡ faults_of seed.now percent.now }
{
    faults_in(printed_number(seed.as_bytes()), percent_of(percent))
}
