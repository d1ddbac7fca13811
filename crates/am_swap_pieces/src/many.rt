// Lists of parts, written and read.
ghost use Rattle.am_swap_pieces.specs.Answers.{behind};
ghost use Rattle.am_swap_pieces.specs.Answers.{Finds, Gives};
ghost use Rattle.am_swap_image.specs.Image.{counted};
ghost use Rattle.am_swap_image.specs.Reading.{counted_at, many_at};
ghost use Rattle.std.specs.Prelude.{◌≡◌, ◌++◌, ◌<◌, OnOk, flat_map, length};

use crate::fault::ImageFault;
use crate::part::ImagePart;
use crate::reading::take_byte;
use crate::writing::put_byte;
use am_names::EndpointId;
use std::alloc::{AllocError, Global};

/// Each part, one after another.
pub fn put_each<P: ImagePart>(out: &mut Vec<u8>, parts: &[P]) -> Result<(), AllocError>
    ensures { OnOk result (out.new.items ≡ out.old.items ++ flat_map P.text parts.now) }
{
    for part in parts {
        part.put(out)?;
    }
    Ok(())
}

/// How many parts there are, and each.
pub fn put_counted<P: ImagePart>(out: &mut Vec<u8>, parts: &[P]) -> Result<(), AllocError>
    requires { length parts.now < 256 }
    ensures { OnOk result (out.new.items ≡ out.old.items ++ counted P.text parts.now) }
{
    put_byte(out, parts.len() as u8)?;
    put_each(out, parts)?;
    Ok(())
}

/// So many parts, each behind the one before it.
pub fn take_many<P: ImagePart>(
    alloc: Global,
    id: EndpointId,
    count: u8,
    bytes: &[u8],
) -> Result<(Vec<P>, &[u8]), ImageFault>
    ensures { Finds (λ x. (x.0.items, x.1.now)) result (many_at (P.at id) count bytes.now) }
{
    let mut parts = Vec::new(alloc);
    let mut rest = bytes;
    for number in 0..count {
        match P::take(id, rest) {
            None => return Err(ImageFault::NoBody),
            Some((part, after)) => {
                let Ok(()) = parts.push(part) else {
                    return Err(ImageFault::NoMemory);
                };
                rest = after;
            }
        }
    }
    Ok((parts, rest))
}

/// How many parts there are, and each.
#[tactic(auto, unfolding(am_swap_image::specs::Reading::counted_at))]
pub fn take_counted<P: ImagePart>(
    alloc: Global,
    id: EndpointId,
    bytes: &[u8],
) -> Result<(Vec<P>, &[u8]), ImageFault>
    ensures { Finds (λ x. (x.0.items, x.1.now)) result (counted_at (P.at id) bytes.now) }
{
    match take_byte(bytes) {
        None => Err(ImageFault::NoBody),
        Some((count, rest)) => take_many(alloc, id, count, rest),
    }
}

/// The bytes behind so many parts. It takes no memory.
pub fn pass_many<P: ImagePart>(id: EndpointId, count: u8, bytes: &[u8]) -> Option<&[u8]>
    ensures { Gives (λ x. x.now) result (behind (many_at (P.at id) count bytes.now)) }
{
    let mut rest = bytes;
    for number in 0..count {
        match P::take(id, rest) {
            None => return None,
            Some((_, after)) => rest = after,
        }
    }
    Some(rest)
}

/// The bytes behind a list of parts and its count. It takes no memory.
#[tactic(auto, unfolding(am_swap_image::specs::Reading::counted_at))]
pub fn pass_counted<P: ImagePart>(id: EndpointId, bytes: &[u8]) -> Option<&[u8]>
    ensures { Gives (λ x. x.now) result (behind (counted_at (P.at id) bytes.now)) }
{
    let (count, rest) = take_byte(bytes)?;
    pass_many::<P>(id, count, rest)
}
