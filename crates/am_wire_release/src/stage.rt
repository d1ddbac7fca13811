//! The stage of a link: what an emission releases at once, what it releases of what was held back, and what it holds back.

ghost use Rattle.std.specs.Prelude.{◌≡◌, ◌+◌, ◌≤◌, ◌<◌, ◌^◌, ◌++◌, [], OnOk, length, vec_len, vec_capacity};
ghost use Rattle.std.specs.List.{filter, flat_map};
ghost use Rattle.am_wire_release.specs.Stages.{copies, falls_due, freed, held_back, held_then, is_later};

use am_names::NoMemory;
use am_scenario_plan::LinkFault;
use std::alloc::Global;
use std::marker::Model;

/// An item that is released later.
///
/// ```
/// let last = stage.held().iter().map(|held| held.due).max();
/// ```
#[derive(Clone, Copy)]
pub struct LateItem<T> {
    /// The place of the emission that releases it.
    pub due: u64,
    /// What is released then.
    pub item: T,
}

/// What a link has released that was not taken from it, and what it holds back, each in order. Of lines that are late by
/// at most 16 it holds back at most 16 items.
///
/// ```
/// let mut stage = Stage::new(alloc);
/// stage.room()?;
/// stage.emit(1, Some(LinkFault::Repeat), item);
/// let twice = stage.released();
/// ```
#[derive(Drop)]
pub struct Stage<T: Copy> {
    released: Vec<T>,
    held: Vec<LateItem<T>>,
}

impl<T: Copy> Model for Stage<T> {
    ghost use Rattle.std.specs.Prelude.{◌+◌, ◌-◌, min, vec_len, vec_capacity};
    ghost use Rattle.am_wire_release.specs.Staged.{Staged};

    ghost Value = { Staged T };

    ghost view = { λ s. record {
      released = s.released.items;
      held = s.held.items;
      store = vec_capacity s.released + vec_capacity s.held;
      spare = min (vec_capacity s.released - (vec_len s.released + 1 + vec_len s.held)) (vec_capacity s.held - vec_len s.held);
    } };
}

/// What an item's own emission releases of it.
fn release<T: Copy>(released: &mut Vec<T>, fault: Option<LinkFault>, item: T)
    requires { vec_len released.old + 2 ≤ vec_capacity released.old }
    ensures items { released.new.items ≡ released.old.items ++ copies fault item }
    ensures len { vec_len released.new ≤ vec_len released.old + 2 }
    ensures capacity { vec_capacity released.new ≡ vec_capacity released.old }
{
    match fault {
        None => released.push_reserved(item),
        Some(LinkFault::Repeat) => {
            released.push_reserved(item);
            released.push_reserved(item);
        }
        Some(LinkFault::Lose) | Some(LinkFault::Late(_)) => {}
    }
}

fn release_due<T: Copy>(released: &mut Vec<T>, held: LateItem<T>, place: u64)
    requires { vec_len released.old + 1 ≤ vec_capacity released.old }
    ensures items { released.new.items ≡ released.old.items ++ falls_due place held }
    ensures len { vec_len released.new ≤ vec_len released.old + 1 }
    ensures capacity { vec_capacity released.new ≡ vec_capacity released.old }
{
    if held.due == place {
        released.push_reserved(held.item);
    }
}

/// The items that were held back until this emission.
fn release_held<T: Copy>(released: &mut Vec<T>, held: &[LateItem<T>], place: u64)
    requires { vec_len released.old + length held.now ≤ vec_capacity released.old }
    ensures items { released.new.items ≡ released.old.items ++ flat_map (falls_due place) held.now }
    ensures len { vec_len released.new ≤ vec_len released.old + length held.now }
    ensures capacity { vec_capacity released.new ≡ vec_capacity released.old }
{
    for one in held {
        release_due(released, *one, place);
    }
}

/// Holds an item back, where the plan has it late.
fn hold<T: Copy>(held: &mut Vec<LateItem<T>>, fault: Option<LinkFault>, place: u64, item: T)
    requires room { vec_len held.old < vec_capacity held.old }
    requires place { place < 2 ^ 63 }
    ensures items { held.new.items ≡ held.old.items ++ held_back fault place item }
    ensures capacity { vec_capacity held.new ≡ vec_capacity held.old }
{
    if let Some(LinkFault::Late(by)) = fault {
        let due = place + u64::from(by);
        held.push_reserved(LateItem { due, item });
    }
}

/// Keeps the items that this emission was too early for.
fn keep_later<T: Copy>(held: &mut Vec<LateItem<T>>, place: u64)
    ensures items { held.new.items ≡ filter (is_later place) held.old.items }
    ensures capacity { vec_capacity held.new ≡ vec_capacity held.old }
{
    held.retain(|one| place < one.due);
}

impl<T: Copy> Stage<T> {
    ghost use Rattle.std.specs.Prelude.{◌≡◌, ◌+◌, ◌≤◌, ◌<◌, ◌^◌, ◌++◌, [], OnErr, OnOk, length};
    ghost use Rattle.am_wire_release.specs.Stages.{freed, held_then};

    /// A stage through which nothing went. It takes no memory.
    pub fn new(alloc: Global) -> Stage<T>
        ensures released { result.released ≡ [] }
        ensures held { result.held ≡ [] }
    {
        Stage {
            released: Vec::new(alloc),
            held: Vec::new(alloc),
        }
    }

    /// Makes room for one emission more. `NoMemory` comes where there is none for it; either way nothing else changes, and no
    /// room is lost.
    pub fn room(&mut self) -> Result<(), NoMemory>
        ensures released { self.new.released ≡ self.old.released }
        ensures held { self.new.held ≡ self.old.held }
        ensures spare { OnOk result (1 ≤ self.new.spare) }
        ensures err { OnErr result (self.new.spare ≡ self.old.spare) }
    {
        let more = self.held.len() + 2;
        if self.released.reserve(more).is_err() {
            return Err(NoMemory);
        }
        match self.held.reserve(1) {
            Ok(()) => Ok(()),
            Err(_) => Err(NoMemory),
        }
    }

    /// One emission more: that of the item at this place, of which the plan says `fault`. It takes no memory: the store stays
    /// as large as it was.
    ///
    /// ```
    /// stage.room()?;
    /// stage.emit(place, faults.fault(place), item);
    /// ```
    pub fn emit(&mut self, place: u64, fault: Option<LinkFault>, item: T)
        requires spare { 1 ≤ self.old.spare }
        requires place { place < 2 ^ 63 }
        ensures released { self.new.released ≡ self.old.released ++ freed place fault item self.old.held }
        ensures held { self.new.held ≡ held_then place fault item self.old.held }
        ensures store { self.new.store ≡ self.old.store }
        ensures few { length self.new.released ≤ length self.old.released + 2 + length self.old.held }
    {
        release(&mut self.released, fault, item);
        release_held(&mut self.released, &self.held, place);
        hold(&mut self.held, fault, place, item);
        keep_later(&mut self.held, place);
    }

    /// What was released and not taken, in order.
    ///
    /// ```
    /// for item in stage.released() {
    ///     send(*item);
    /// }
    /// ```
    pub fn released(&self) -> &[T]
        ensures { result.now ≡ self.now.released }
    {
        self.released.as_slice()
    }

    /// What later emissions release.
    pub fn held(&self) -> &[LateItem<T>]
        ensures { result.now ≡ self.now.held }
    {
        self.held.as_slice()
    }

    /// Takes away what was released.
    pub fn take_released(&mut self)
        ensures released { self.new.released ≡ [] }
        ensures held { self.new.held ≡ self.old.held }
        ensures store { self.new.store ≡ self.old.store }
    {
        self.released.clear();
    }
}
