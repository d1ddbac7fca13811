//! Blocks in hexadecimal.

ghost use Rattle.std.specs.Prelude.{◌≡◌, ◌≤◌, ◌<◌, ◌++◌, IfOk, IfSome, OnOk, length, vec_len, ◌*◌};
ghost use Rattle.am_segment.specs.Hex.{block_of, bytes_of, digit_of, digit_value, digits_of, pair_value};
ghost use Rattle.am_segment.specs.Blocks.{IsSpelled};

use std::alloc::{AllocError, Global};

fn digit_value(byte: u8) -> Option<u8>
    ensures exact { result ≡ digit_value byte }
    ensures small { IfSome result (λ value. value < 16) }
{
    match byte {
        b'0'..=b'9' => Some(byte - b'0'),
        b'a'..=b'f' => Some(byte - b'a' + 10),
        _ => None,
    }
}

fn pair_value(high: u8, low: u8) -> Option<u8>
    ensures { result ≡ pair_value high low }
{
    let high = digit_value(high)?;
    let low = digit_value(low)?;
    Some(16 * high + low)
}

// The bytes that pairs of digits spell, or none where the digits are odd in number or one isn't a digit.
#[tactic(auto, using(crate::proofs::Spelled::pair_refused, crate::proofs::Spelled::pair_taken))]
fn bytes_of(alloc: Global, word: &[u8]) -> Result<Option<Vec<u8>>, AllocError>
    ensures spelled { IfOk result (IsSpelled (bytes_of word.now)) }
    ensures size { IfOk result (λ block. IfSome block (λ bytes. 2 * vec_len bytes ≡ length word.now)) }
{
    let mut bytes = Vec::new(alloc);
    let mut rest = word;
    while let Some((high, behind)) = rest.split_first() {
        let Some((low, after)) = behind.split_first() else {
            return Ok(None);
        };
        let Some(byte) = pair_value(*high, *low) else {
            return Ok(None);
        };
        bytes.push(byte)?;
        rest = after;
    }
    Ok(Some(bytes))
}

/// The block of 1 to 512 bytes that a word of digits spells, if it spells one.
#[tactic(auto, unfolding(crate::specs::Hex::block_of))]
pub(crate) fn block_of(alloc: Global, word: &[u8]) -> Result<Option<Vec<u8>>, AllocError>
    ensures spelled { IfOk result (IsSpelled (block_of word.now)) }
    ensures size { IfOk result (λ block. IfSome block (λ bytes. (1 ≤ vec_len bytes) × (vec_len bytes ≤ 512))) }
{
    if !word.is_empty() && word.len() <= 1024 {
        bytes_of(alloc, word)
    } else {
        Ok(None)
    }
}

fn digit_of(value: u8) -> u8
    requires { value < 16 }
    ensures { result ≡ digit_of value }
{
    if value < 10 {
        value + b'0'
    } else {
        value - 10 + b'a'
    }
}

/// Appends a byte as two digits.
pub(crate) fn put_byte(out: &mut Vec<u8>, byte: u8) -> Result<(), AllocError>
    ensures { OnOk result (out.new.items ≡ out.old.items ++ digits_of byte) }
{
    out.push(digit_of(byte / 16))?;
    out.push(digit_of(byte % 16))?;
    Ok(())
}
