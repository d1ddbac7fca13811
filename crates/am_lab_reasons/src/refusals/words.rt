//! Which words might stand at a place of a line.

ghost use Rattle.am_lab_reasons.specs.Refusals.Faults as rules;
ghost use Rattle.am_lab_reasons.specs.Refusals.Stands.{first_standing, heads, is_undeclared, limits, limits_down, number_words, plain_words, range_words, stands, values, verbs, word_if};
ghost use Rattle.am_lexer.specs.Text.{words_of};
ghost use Rattle.std.specs.List.{flat_map};
ghost use Rattle.std.specs.Prelude.{◌≡◌, ◌++◌, IfOk, OnOk, codes, option_map};

use crate::refusals::faults::{fault_behind, may_stand};
use am_lexer::next_word;
use am_names::NoMemory;
use am_office_text::LinePiece::Text;
use am_office_text::{put_end, put_word};
use am_scenario::{Form, What};
use std::alloc::{AllocError, Global};

const HEADS: &[u8] =
    b"am2 network nodes frames channels tries bounces pool keep log turns endpoint bundle thread plan swapfault x t0 t1 t2 t3 i0 i1 i2 i3 d0 d1 d2 d3";

const VERBS: &[u8] =
    b"request poll pollb event eventb tag map unmap handler giveup close carry want bind expire receive drain unload load pageout pagein";

const VALUES: &[u8] =
    b"packet direct disk notempty noevents lose repeat late note echo add none all 0.1";

const LIMITS: &[u8] =
    b"0 1 2 3 4 5 6 7 8 9 10 11 12 13 14 15 16 32 63 64 255 10000 65536 4294967295 18446744073709551615";

const LIMITS_DOWN: &[u8] =
    b"18446744073709551615 4294967295 65536 10000 255 64 63 32 16 15 14 13 12 11 10 9 8 7 6 5 4 3 2 1 0";

// Appends a word behind a space.
#[tactic(auto, using(std::proofs::Common::append_assoc))]
fn put_behind(out: &mut Vec<u8>, word: &[u8]) -> Result<(), AllocError>
    ensures { OnOk result (out.new.items ≡ out.old.items ++ codes " " ++ word.now) }
{
    put_word(out, Text(" "))?;
    out.extend_from_slice(word)
}

// Appends a word behind a space, if it may stand there.
fn put_if(
    out: &mut Vec<u8>,
    alloc: Global,
    form: Form,
    number: u32,
    front: &[u8],
    word: &[u8],
) -> Result<(), NoMemory>
    ensures { OnOk result (out.new.items ≡ out.old.items ++ word_if form number front.now word.now) }
{
    if may_stand(alloc, form, number, front, word)? {
        put_behind(out, word)?;
        Ok(())
    } else {
        Ok(())
    }
}

// Appends each of some words that may stand there.
#[tactic(auto, using(std::proofs::Common::append_assoc))]
fn put_words(
    out: &mut Vec<u8>,
    alloc: Global,
    form: Form,
    number: u32,
    front: &[u8],
    words: &[u8],
) -> Result<(), NoMemory>
    ensures { OnOk result (out.new.items ≡ out.old.items ++ flat_map (word_if form number front.now) (words_of words.now)) }
{
    let mut rest = words;
    while let Some((word, after)) = next_word(rest) {
        put_if(out, alloc, form, number, front, word)?;
        rest = after;
    }
    Ok(())
}

// The first of some words that may stand there.
#[tactic(auto, unfolding(crate::specs::Refusals::Stands::first_standing))]
fn first_standing<'a>(
    alloc: Global,
    form: Form,
    number: u32,
    front: &[u8],
    words: &'a [u8],
) -> Result<Option<&'a [u8]>, NoMemory>
    ensures { IfOk result (λ word. option_map (λ w. w.now) word ≡ first_standing form number front.now (words_of words.now)) }
{
    let mut rest = words;
    while let Some((word, after)) = next_word(rest) {
        if may_stand(alloc, form, number, front, word)? {
            return Ok(Some(word));
        }
        rest = after;
    }
    Ok(None)
}

fn is_undeclared(what: Option<What>) -> bool
    ensures { result ≡ is_undeclared what }
{
    match what {
        Some(What::Undeclared) => true,
        _ => false,
    }
}

#[tactic(auto, using(std::proofs::Common::append_assoc))]
fn put_both(out: &mut Vec<u8>, least: &[u8], greatest: &[u8]) -> Result<(), AllocError>
    ensures { OnOk result (out.new.items ≡ out.old.items ++ codes " numbers from " ++ least.now ++ codes " to " ++ greatest.now) }
{
    put_word(out, Text(" numbers from "))?;
    out.extend_from_slice(least)?;
    put_word(out, Text(" to "))?;
    out.extend_from_slice(greatest)
}

// Appends which numbers may stand there.
fn put_range(
    out: &mut Vec<u8>,
    least: Option<&[u8]>,
    greatest: Option<&[u8]>,
) -> Result<(), AllocError>
    ensures { OnOk result (out.new.items ≡ out.old.items ++ range_words (option_map (λ w. w.now) least.entry) (option_map (λ w. w.now) greatest.entry)) }
{
    match (least, greatest) {
        (Some(least), Some(greatest)) => put_both(out, least, greatest),
        _ => Ok(()),
    }
}

// Whether the numbers that may stand there are declared ones.
fn are_declared(alloc: Global, form: Form, number: u32, front: &[u8]) -> Result<bool, NoMemory>
    ensures { IfOk result (λ are. are ≡ is_undeclared (rules.fault_in form number (front.now ++ codes "256"))) }
{
    let what = fault_behind(alloc, form, number, front, b"256")?;
    Ok(is_undeclared(what))
}

// Appends which numbers may stand there, of which it is known whether they are declared ones.
fn put_numbers_of(
    out: &mut Vec<u8>,
    declared: bool,
    least: Option<&[u8]>,
    greatest: Option<&[u8]>,
) -> Result<(), AllocError>
    ensures { OnOk result (out.new.items ≡ out.old.items ++ number_words declared (option_map (λ w. w.now) least.entry) (option_map (λ w. w.now) greatest.entry)) }
{
    if declared {
        put_word(out, Text(" declared numbers"))
    } else {
        put_range(out, least, greatest)
    }
}

// The least number that may stand there, of the limits.
fn least_of<'a>(
    alloc: Global,
    form: Form,
    number: u32,
    front: &[u8],
) -> Result<Option<&'a [u8]>, NoMemory>
    ensures { IfOk result (λ word. option_map (λ w. w.now) word ≡ first_standing form number front.now limits) }
{
    first_standing(alloc, form, number, front, LIMITS)
}

// The greatest.
fn greatest_of<'a>(
    alloc: Global,
    form: Form,
    number: u32,
    front: &[u8],
) -> Result<Option<&'a [u8]>, NoMemory>
    ensures { IfOk result (λ word. option_map (λ w. w.now) word ≡ first_standing form number front.now limits_down) }
{
    first_standing(alloc, form, number, front, LIMITS_DOWN)
}

fn put_numbers(
    out: &mut Vec<u8>,
    alloc: Global,
    form: Form,
    number: u32,
    front: &[u8],
) -> Result<(), NoMemory>
    ensures { OnOk result (out.new.items ≡ out.old.items ++ number_words (is_undeclared (rules.fault_in form number (front.now ++ codes "256"))) (first_standing form number front.now limits) (first_standing form number front.now limits_down)) }
{
    let declared = are_declared(alloc, form, number, front)?;
    let least = least_of(alloc, form, number, front)?;
    let greatest = greatest_of(alloc, form, number, front)?;
    put_numbers_of(out, declared, least, greatest)?;
    Ok(())
}

fn put_heads(
    out: &mut Vec<u8>,
    alloc: Global,
    form: Form,
    number: u32,
    front: &[u8],
) -> Result<(), NoMemory>
    ensures { OnOk result (out.new.items ≡ out.old.items ++ flat_map (word_if form number front.now) heads) }
{
    put_words(out, alloc, form, number, front, HEADS)
}

fn put_verbs(
    out: &mut Vec<u8>,
    alloc: Global,
    form: Form,
    number: u32,
    front: &[u8],
) -> Result<(), NoMemory>
    ensures { OnOk result (out.new.items ≡ out.old.items ++ flat_map (word_if form number front.now) verbs) }
{
    put_words(out, alloc, form, number, front, VERBS)
}

fn put_values(
    out: &mut Vec<u8>,
    alloc: Global,
    form: Form,
    number: u32,
    front: &[u8],
) -> Result<(), NoMemory>
    ensures { OnOk result (out.new.items ≡ out.old.items ++ flat_map (word_if form number front.now) values) }
{
    put_words(out, alloc, form, number, front, VALUES)
}

// Appends which words that are no numbers may stand there.
#[tactic(auto, using(std::proofs::Common::append_assoc))]
fn put_plain(
    out: &mut Vec<u8>,
    alloc: Global,
    form: Form,
    number: u32,
    front: &[u8],
) -> Result<(), NoMemory>
    ensures { OnOk result (out.new.items ≡ out.old.items ++ plain_words form number front.now) }
{
    put_heads(out, alloc, form, number, front)?;
    put_verbs(out, alloc, form, number, front)?;
    put_values(out, alloc, form, number, front)
}

/// Appends which words might stand behind the text of a line.
#[tactic(auto, using(std::proofs::Common::append_assoc), unfolding(crate::specs::Refusals::Stands::stands))]
pub(crate) fn put_stands(
    out: &mut Vec<u8>,
    alloc: Global,
    form: Form,
    number: u32,
    front: &[u8],
) -> Result<(), NoMemory>
    ensures { OnOk result (out.new.items ≡ out.old.items ++ stands form number front.now) }
{
    put_word(out, Text("may stand there:"))?;
    put_plain(out, alloc, form, number, front)?;
    put_numbers(out, alloc, form, number, front)?;
    put_end(out)?;
    Ok(())
}
