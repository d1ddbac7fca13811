//! What a swap in memory keeps for each key.

ghost use Rattle.am_swap_device.specs.Memory.{HeldImage, held_for, held_instead, is_for};
ghost use Rattle.std.specs.Prelude.{◌≡◌, [], ◌∷◌, ◌++◌, find, if◌then◌else◌, is_ok, position};
ghost use Rattle.std.specs.Option.{option_copied};

use am_names::{EndpointId, NoMemory};
use std::alloc::Global;
use std::marker::Model;

/// The bytes that are held for a key.
#[derive(Drop)]
pub(crate) struct Kept {
    key: EndpointId,
    bytes: Vec<u8>,
}

impl Model for Kept {
    ghost use Rattle.am_swap_device.specs.Memory.{HeldImage};

    ghost Value = { HeldImage };

    ghost use Rattle.am_swap_device.specs.Inside.{held_in};

    ghost view = { held_in };
}

impl Kept {
    fn is_for(&self, key: EndpointId) -> bool
        ensures { result ≡ is_for key self.now }
    {
        key.0 == self.key.0
    }

    fn bytes(&self) -> &[u8]
        ensures { result.now ≡ self.now.bytes }
    {
        &self.bytes
    }
}

/// The bytes that are held for a key.
pub(crate) fn held_for(kept: &[Kept], key: EndpointId) -> Option<&[u8]>
    ensures { option_copied result ≡ held_for kept.now key }
{
    match first_for(kept, key) {
        Some(held) => Some(held.bytes()),
        None => None,
    }
}

fn first_for(kept: &[Kept], key: EndpointId) -> Option<&Kept>
    ensures { option_copied result ≡ find (is_for key) kept.now }
{
    kept.iter().find(|held| held.is_for(key))
}

fn place_of(kept: &[Kept], key: EndpointId) -> Option<usize>
    ensures { result ≡ position (is_for key) kept.now }
{
    kept.iter().position(|held| held.is_for(key))
}

/// Holds these bytes for the key.
pub(crate) fn hold(
    alloc: Global,
    kept: &mut Vec<Kept>,
    key: EndpointId,
    bytes: &[u8],
) -> Result<(), NoMemory>
    ensures { kept.new.items ≡ (if is_ok result then held_instead key bytes.now kept.old.items else kept.old.items) }
{
    let Ok(bytes) = Vec::from_slice(alloc, bytes) else {
        return Err(NoMemory);
    };
    let held = Kept { key, bytes };
    match place_of(kept.as_slice(), key) {
        Some(place) => {
            kept[place] = held;
            Ok(())
        }
        None => hold_more(kept, held),
    }
}

fn hold_more(kept: &mut Vec<Kept>, held: Kept) -> Result<(), NoMemory>
    ensures { kept.new.items ≡ (if is_ok result then kept.old.items ++ held ∷ [] else kept.old.items) }
{
    match kept.push(held) {
        Ok(()) => Ok(()),
        Err(_) => Err(NoMemory),
    }
}
