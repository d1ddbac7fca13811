//! The words that a line is put together from.
//!
//! Most calls give a list whose texts are known there. So what stands between such a call and the bytes is inlined: then
//! no list, no loop over it and no copy of unknown length is left, and a text is a store or two. A number of two or more
//! digits is a call.

ghost use Rattle.std.specs.Prelude.{◌≡◌, ◌<◌, ◌≤◌, ◌+◌, ◌/◌, ◌%◌, [], ◌∷◌, ◌++◌, OnOk, codes, map, vec_capacity, vec_len};
ghost use Rattle.std.specs.Fmt.{decimal};
ghost use Rattle.am_office_text.specs.declared.pieces.LinePiece.TheVariants as Pieces;
ghost use Rattle.am_office_text.specs.Words as text;
ghost use Rattle.am_office_text.specs.Pieces.{Extends, word_of};

use am_names::{Serial, Tag};
use itoa::Buffer;
use std::alloc::AllocError;

/// A word of a line.
#[derive(Clone, Copy)]
pub enum LinePiece {
    Text(&'static str),
    Number(u64),
    Serial(Serial),
    Tag(Tag),
}

/// A small number as a word.
pub fn small(number: u8) -> LinePiece
    ensures { result ≡ Pieces.Number number }
{
    LinePiece::Number(u64::from(number))
}

/// A number of 32 bits as a word.
pub fn count(number: u32) -> LinePiece
    ensures { result ≡ Pieces.Number number }
{
    LinePiece::Number(u64::from(number))
}

/// Appends bytes as they are. Err where there is no memory.
#[tactic(auto, using(crate::proofs::Extended::extension))]
#[inline(always)]
pub fn put_bytes(out: &mut Vec<u8>, bytes: &[u8]) -> Result<(), AllocError>
    ensures ok { OnOk result (out.new.items ≡ out.old.items ++ bytes.now) }
    ensures kept { Extends out.old.items out.new.items }
{
    out.extend_from_slice(bytes)
}

// Appends a byte and a text.
#[tactic(auto, using(crate::proofs::Extended::extension))]
#[inline(always)]
fn put_text_after(out: &mut Vec<u8>, lead: u8, text: &str) -> Result<(), AllocError>
    ensures ok { OnOk result (out.new.items ≡ out.old.items ++ lead ∷ text.now) }
    ensures kept { Extends out.old.items out.new.items }
{
    out.reserve(text.len() + 1)?;
    out.push_reserved(lead);
    out.extend_from_slice(text.as_bytes())
}

// The digit of a number below 10.
#[inline(always)]
fn digit(number: u64) -> u8
    requires { number < 10 }
    ensures { result ≡ 48 + number }
{
    b'0' + number as u8
}

// Appends a byte and a number of any size.
#[inline(never)]
fn put_long_after(out: &mut Vec<u8>, lead: u8, number: u64) -> Result<(), AllocError>
    ensures ok { OnOk result (out.new.items ≡ out.old.items ++ lead ∷ decimal number) }
    ensures kept { Extends out.old.items out.new.items }
{
    let mut buffer = Buffer::new();
    put_text_after(out, lead, buffer.format(number))
}

// Appends the digit of a number below 10. There is room for it.
#[inline(always)]
fn put_digit(out: &mut Vec<u8>, number: u64)
    requires small { number < 10 }
    requires room { vec_len out.old < vec_capacity out.old }
    ensures items { out.new.items ≡ out.old.items ++ (48 + number) ∷ [] }
    ensures len { vec_len out.new ≡ vec_len out.old + 1 }
    ensures capacity { vec_capacity out.new ≡ vec_capacity out.old }
{
    out.push_reserved(digit(number));
}

// Appends both digits of a number below 100. There is room for them.
#[tactic(auto, using(std::proofs::Common::append_assoc))]
#[inline(always)]
fn put_pair(out: &mut Vec<u8>, number: u64)
    requires small { number < 100 }
    requires room { vec_len out.old + 2 ≤ vec_capacity out.old }
    ensures items { out.new.items ≡ out.old.items ++ (48 + number / 10) ∷ (48 + number % 10) ∷ [] }
    ensures len { vec_len out.new ≡ vec_len out.old + 2 }
    ensures capacity { vec_capacity out.new ≡ vec_capacity out.old }
{
    put_digit(out, number / 10);
    put_digit(out, number % 10);
}

// Appends the four digits of a number below 10,000. There is room for them.
#[tactic(auto, using(std::proofs::Common::append_assoc))]
#[inline(always)]
fn put_four(out: &mut Vec<u8>, number: u64)
    requires small { number < 10000 }
    requires room { vec_len out.old + 4 ≤ vec_capacity out.old }
    ensures items { out.new.items ≡ out.old.items ++ (48 + number / 100 / 10) ∷ (48 + number / 100 % 10) ∷ (48 + number % 100 / 10) ∷ (48 + number % 100 % 10) ∷ [] }
{
    put_pair(out, number / 100);
    put_pair(out, number % 100);
}

// Appends a number of one or two digits. There is room for them.
#[tactic(auto, using(crate::proofs::Digits::two_digits, std::proofs::lemmas::Fmt::decimal_digit))]
#[inline(always)]
fn put_short(out: &mut Vec<u8>, number: u64)
    requires small { number < 100 }
    requires room { vec_len out.old + 2 ≤ vec_capacity out.old }
    ensures items { out.new.items ≡ out.old.items ++ decimal number }
    ensures len { vec_len out.new ≤ vec_len out.old + 2 }
    ensures capacity { vec_capacity out.new ≡ vec_capacity out.old }
{
    if number < 10 {
        put_digit(out, number);
    } else {
        put_pair(out, number);
    }
}

// Appends a number of one to four digits. There is room for them.
#[tactic(auto, using(crate::proofs::Digits::last_two, std::proofs::Common::append_assoc))]
#[inline(always)]
fn put_few(out: &mut Vec<u8>, number: u64)
    requires small { number < 10000 }
    requires room { vec_len out.old + 4 ≤ vec_capacity out.old }
    ensures items { out.new.items ≡ out.old.items ++ decimal number }
    ensures len { vec_len out.new ≤ vec_len out.old + 4 }
    ensures capacity { vec_capacity out.new ≡ vec_capacity out.old }
{
    if number < 100 {
        put_short(out, number);
    } else {
        put_short(out, number / 100);
        put_pair(out, number % 100);
    }
}

// Appends a number of one to eight digits. There is room for them.
#[tactic(auto, using(crate::proofs::Digits::last_four, std::proofs::Common::append_assoc))]
#[inline(always)]
fn put_digits(out: &mut Vec<u8>, number: u64)
    requires small { number < 100000000 }
    requires room { vec_len out.old + 8 ≤ vec_capacity out.old }
    ensures items { out.new.items ≡ out.old.items ++ decimal number }
{
    if number < 10_000 {
        put_few(out, number);
    } else {
        put_few(out, number / 10_000);
        put_four(out, number % 10_000);
    }
}

// Appends a byte and a number of two or more digits. Where there is no room for nine bytes yet, the number is taken as a
// long one: so what is done often calls nothing.
#[tactic(auto, using(crate::proofs::Extended::extension))]
#[inline(never)]
fn put_digits_after(out: &mut Vec<u8>, lead: u8, number: u64) -> Result<(), AllocError>
    requires { 10 ≤ number }
    ensures ok { OnOk result (out.new.items ≡ out.old.items ++ lead ∷ decimal number) }
    ensures kept { Extends out.old.items out.new.items }
{
    if number >= 100_000_000 || out.capacity() - out.len() < 9 {
        return put_long_after(out, lead, number);
    }
    out.push_reserved(lead);
    put_digits(out, number);
    Ok(())
}

// Appends a byte and a number.
#[tactic(auto, using(std::proofs::lemmas::Fmt::decimal_digit))]
#[inline(always)]
fn put_number_after(out: &mut Vec<u8>, lead: u8, number: u64) -> Result<(), AllocError>
    ensures ok { OnOk result (out.new.items ≡ out.old.items ++ lead ∷ decimal number) }
    ensures kept { Extends out.old.items out.new.items }
{
    if number < 10 {
        return put_bytes(out, &[lead, digit(number)]);
    }
    put_digits_after(out, lead, number)
}

// Appends a space and a serial.
#[tactic(auto, using(crate::proofs::Extended::extension), unfolding(crate::specs::Words::serial))]
fn put_spaced_serial(out: &mut Vec<u8>, serial: Serial) -> Result<(), AllocError>
    ensures ok { OnOk result (out.new.items ≡ out.old.items ++ codes " " ++ text.serial serial) }
    ensures kept { Extends out.old.items out.new.items }
{
    put_number_after(out, b' ', u64::from(serial.source.0))?;
    put_number_after(out, b'.', u64::from(serial.count))
}

// Appends a space and a tag.
#[tactic(auto, unfolding(crate::specs::Words::tag))]
fn put_spaced_tag(out: &mut Vec<u8>, tag: Tag) -> Result<(), AllocError>
    ensures ok { OnOk result (out.new.items ≡ out.old.items ++ codes " " ++ text.tag tag) }
    ensures kept { Extends out.old.items out.new.items }
{
    match tag {
        Tag::NONE => put_bytes(out, b" none"),
        Tag::ALL => put_bytes(out, b" all"),
        Tag(number) => put_number_after(out, b' ', number),
    }
}

// Appends a space and a word.
#[inline(always)]
fn put_spaced_word(out: &mut Vec<u8>, word: LinePiece) -> Result<(), AllocError>
    ensures ok { OnOk result (out.new.items ≡ out.old.items ++ codes " " ++ word_of word) }
    ensures kept { Extends out.old.items out.new.items }
{
    match word {
        LinePiece::Text(text) => put_text_after(out, b' ', text),
        LinePiece::Number(number) => put_number_after(out, b' ', number),
        LinePiece::Serial(serial) => put_spaced_serial(out, serial),
        LinePiece::Tag(tag) => put_spaced_tag(out, tag),
    }
}

// Appends a number of any size.
#[inline(never)]
fn put_long(out: &mut Vec<u8>, number: u64) -> Result<(), AllocError>
    ensures ok { OnOk result (out.new.items ≡ out.old.items ++ decimal number) }
    ensures kept { Extends out.old.items out.new.items }
{
    let mut buffer = Buffer::new();
    put_bytes(out, buffer.format(number).as_bytes())
}

#[tactic(auto, using(std::proofs::lemmas::Fmt::decimal_digit))]
#[inline(always)]
fn put_number(out: &mut Vec<u8>, number: u64) -> Result<(), AllocError>
    ensures ok { OnOk result (out.new.items ≡ out.old.items ++ decimal number) }
    ensures kept { Extends out.old.items out.new.items }
{
    if number < 10 {
        return put_bytes(out, &[digit(number)]);
    }
    put_long(out, number)
}

#[tactic(auto, using(crate::proofs::Extended::extension), unfolding(crate::specs::Words::serial))]
fn put_serial(out: &mut Vec<u8>, serial: Serial) -> Result<(), AllocError>
    ensures ok { OnOk result (out.new.items ≡ out.old.items ++ text.serial serial) }
    ensures kept { Extends out.old.items out.new.items }
{
    put_number(out, u64::from(serial.source.0))?;
    put_number_after(out, b'.', u64::from(serial.count))
}

#[tactic(auto, unfolding(crate::specs::Words::tag))]
fn put_tag(out: &mut Vec<u8>, tag: Tag) -> Result<(), AllocError>
    ensures ok { OnOk result (out.new.items ≡ out.old.items ++ text.tag tag) }
    ensures kept { Extends out.old.items out.new.items }
{
    match tag {
        Tag::NONE => put_bytes(out, b"none"),
        Tag::ALL => put_bytes(out, b"all"),
        Tag(number) => put_number(out, number),
    }
}

/// Appends a word.
#[inline(always)]
pub fn put_word(out: &mut Vec<u8>, word: LinePiece) -> Result<(), AllocError>
    ensures ok { OnOk result (out.new.items ≡ out.old.items ++ word_of word) }
    ensures kept { Extends out.old.items out.new.items }
{
    match word {
        LinePiece::Text(text) => put_bytes(out, text.as_bytes()),
        LinePiece::Number(number) => put_number(out, number),
        LinePiece::Serial(serial) => put_serial(out, serial),
        LinePiece::Tag(tag) => put_tag(out, tag),
    }
}

/// Appends a letter and a number.
#[tactic(auto, using(crate::proofs::Extended::extension))]
#[inline(always)]
pub fn put_numbered(out: &mut Vec<u8>, letter: &str, number: u8) -> Result<(), AllocError>
    ensures ok { OnOk result (out.new.items ≡ out.old.items ++ letter.now ++ decimal number) }
    ensures kept { Extends out.old.items out.new.items }
{
    put_bytes(out, letter.as_bytes())?;
    put_number(out, u64::from(number))
}

/// Appends each of the words after a space. What was there stays, also after an error.
#[tactic(auto, using(crate::proofs::Extended::extension))]
#[inline(always)]
pub fn put_spaced(out: &mut Vec<u8>, words: &[LinePiece]) -> Result<(), AllocError>
    ensures ok { OnOk result (out.new.items ≡ out.old.items ++ text.spaced (map word_of words.now)) }
    ensures kept { Extends out.old.items out.new.items }
{
    for word in words {
        put_spaced_word(out, *word)?;
    }
    Ok(())
}

/// Appends each of the numbers after a space. What was there stays, also after an error.
#[tactic(auto, using(crate::proofs::Extended::extension))]
#[inline(always)]
pub fn put_numbers(out: &mut Vec<u8>, numbers: &[u64]) -> Result<(), AllocError>
    ensures ok { OnOk result (out.new.items ≡ out.old.items ++ text.spaced (map decimal numbers.now)) }
    ensures kept { Extends out.old.items out.new.items }
{
    for number in numbers {
        put_spaced_word(out, LinePiece::Number(*number))?;
    }
    Ok(())
}

/// Appends the end of a line.
#[inline(always)]
pub fn put_end(out: &mut Vec<u8>) -> Result<(), AllocError>
    ensures ok { OnOk result (out.new.items ≡ out.old.items ++ codes "\n") }
    ensures kept { Extends out.old.items out.new.items }
{
    put_bytes(out, b"\n")
}

/// Appends a line: its words with one space between them, and its end.
#[tactic(auto, using(crate::proofs::Extended::extension))]
#[inline(always)]
pub fn put_line(
    out: &mut Vec<u8>,
    first: &'static str,
    rest: &[LinePiece],
) -> Result<(), AllocError>
    ensures ok { OnOk result (out.new.items ≡ out.old.items ++ text.line first.now (map word_of rest.now)) }
    ensures kept { Extends out.old.items out.new.items }
{
    put_word(out, LinePiece::Text(first))?;
    put_spaced(out, rest)?;
    put_end(out)
}
