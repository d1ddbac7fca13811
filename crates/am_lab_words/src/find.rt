//! The words of `find`.

ghost use Rattle.am_lab_words.specs.Words.{find_of, find_with, find_without, line_seeds, line_trials, trials_behind, trials_drawn, trials_plain, tried_with};
ghost use Rattle.std.specs.Prelude.{◌≡◌, map, string_bytes};

use crate::beginnings::are_line_words;
use crate::faults::percent_of;
use crate::ranges::seeds_in;
use crate::{Asked, Seeds, Trials, Wrong};

// The seeds that are looked through for a line.
#[tactic(auto, unfolding(crate::specs::Words::line_seeds))]
fn line_seeds(range: &str, line: &[String]) -> Result<Seeds, Wrong>
    ensures { result ≡ line_seeds range.now (map string_bytes line.now) }
{
    match seeds_in(range.as_bytes()) {
        Ok(seeds) if are_line_words(line) => Ok(seeds),
        Ok(_) => Err(Wrong::FindLine),
        Err(_) => Err(Wrong::FindRange),
    }
}

// Seeds, each with its plan.
fn tried_with(faults: Option<u8>, seeds: Result<Seeds, Wrong>) -> Result<Trials, Wrong>
    ensures { result ≡ tried_with faults seeds }
{
    match seeds {
        Ok(seeds) => Ok(Trials { seeds, faults }),
        Err(wrong) => Err(wrong),
    }
}

fn trials_plain(range: &str, line: &[String]) -> Result<Trials, Wrong>
    ensures { result ≡ trials_plain range.now (map string_bytes line.now) }
{
    tried_with(None, line_seeds(range, line))
}

fn trials_drawn(faults: Option<u8>, range: &str, line: &[String]) -> Result<Trials, Wrong>
    ensures { result ≡ trials_drawn faults range.now (map string_bytes line.now) }
{
    match faults {
        Some(_) => tried_with(faults, line_seeds(range, line)),
        None => Err(Wrong::Percent),
    }
}

fn trials_behind(range: &str, words: &[String]) -> Result<Trials, Wrong>
    ensures { result ≡ trials_behind range.now (map string_bytes words.now) }
{
    match words {
        [percent, line @ ..] => trials_drawn(percent_of(percent.as_str()), range, line),
        [] => Err(Wrong::Percent),
    }
}

// The seeds that are looked through, with what stands behind them.
#[tactic(auto, unfolding(crate::specs::Words::line_trials))]
fn line_trials(range: &str, words: &[String]) -> Result<Trials, Wrong>
    ensures { result ≡ line_trials range.now (map string_bytes words.now) }
{
    match words {
        [word, rest @ ..] if word.as_str() == "--faults" => trials_behind(range, rest),
        _ => trials_plain(range, words),
    }
}

fn find_with(range: &str, words: &[String]) -> Result<Asked, Wrong>
    ensures { result ≡ find_with range.now (map string_bytes words.now) }
{
    match line_trials(range, words) {
        Ok(trials) => Ok(Asked::Find(trials)),
        Err(wrong) => Err(wrong),
    }
}

fn find_without(words: &[String]) -> Result<Asked, Wrong>
    ensures { result ≡ find_without (map string_bytes words.now) }
{
    match words {
        [range, rest @ ..] => match line_trials(range.as_str(), rest) {
            Ok(trials) => Ok(Asked::FindWithout(trials)),
            Err(wrong) => Err(wrong),
        },
        [] => Err(Wrong::Form),
    }
}

/// What `find` and the words behind it ask for.
#[tactic(auto, unfolding(crate::specs::Words::find_of))]
pub(crate) fn find_of(words: &[String]) -> Result<Asked, Wrong>
    ensures { result ≡ find_of (map string_bytes words.now) }
{
    match words {
        [word, rest @ ..] => {
            if word.as_str() == "--not" {
                find_without(rest)
            } else {
                find_with(word.as_str(), rest)
            }
        }
        [] => Err(Wrong::Form),
    }
}
