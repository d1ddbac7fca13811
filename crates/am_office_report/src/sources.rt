//! The accepted messages of one source.

ghost use Rattle.std.specs.Prelude.{◌≡◌, true, false, if◌then◌else◌, is_ok, map};
ghost use Rattle.std.specs.BTreeMap.{insert_entry};
ghost use Rattle.std.specs.List.Sorted.{IsStrictlySortedBy};
ghost use Rattle.std.specs.Map.{keys_of};
ghost use Rattle.std.specs.Ordering.{nat_cmp};
ghost use Rattle.am_office_report.specs.Tables.{IsPlace, IsThere, IsMissing, heard};

use crate::known::{Known, News};
use am_names::MsgKind;
use std::alloc::{AllocError, Global};
use std::marker::Model;

/// An accepted message's kind, and what is known of its fate.
#[derive(Clone, Copy)]
pub(crate) struct MessageState {
    pub(crate) kind: MsgKind,
    pub(crate) known: Known,
}

// Whether the row in front of a place has a lower count and the one there has not.
fn fits(rows: &[(u32, MessageState)], place: usize, count: u32) -> bool
    requires { IsStrictlySortedBy nat_cmp (keys_of rows.now) }
    ensures { result ≡ true → IsPlace rows.now count place }
{
    if place > rows.len() {
        return false;
    }
    if place > 0 && rows[place - 1].0 >= count {
        return false;
    }
    place == rows.len() || count <= rows[place].0
}

// How many rows have lower counts. In a history the counts of a source are 1, 2, 3 and so on.
fn place_in(rows: &[(u32, MessageState)], count: u32) -> usize
    requires { IsStrictlySortedBy nat_cmp (keys_of rows.now) }
    ensures { IsPlace rows.now count result }
{
    let guess = count.saturating_sub(1) as usize;
    if fits(rows, guess, count) {
        return guess;
    }
    rows.partition_point(|row| row.0 < count)
}

// Whether the row at a place has this count.
fn has_count(rows: &[(u32, MessageState)], place: usize, count: u32) -> bool
    ensures there { result ≡ true → IsThere rows.now count place }
    ensures missing { result ≡ false → IsMissing rows.now count place }
{
    if place >= rows.len() {
        return false;
    }
    rows[place].0 == count
}

fn put(
    rows: &mut Vec<(u32, MessageState)>,
    place: usize,
    count: u32,
    state: MessageState,
) -> Result<(), AllocError>
    requires { IsPlace rows.old.items count place }
    ensures { rows.new.items ≡ (if is_ok result then insert_entry nat_cmp rows.old.items count state else rows.old.items) }
{
    if place == rows.len() {
        rows.push((count, state))?;
        return Ok(());
    }
    if has_count(rows, place, count) {
        rows[place].1 = state;
        return Ok(());
    }
    rows.insert(place, (count, state))?;
    Ok(())
}

fn hear(rows: &mut Vec<(u32, MessageState)>, place: usize, count: u32, news: News)
    requires { IsPlace rows.old.items count place }
    ensures { rows.new.items ≡ map (heard count news) rows.old.items }
{
    if has_count(rows, place, count) {
        let row = &mut rows[place];
        row.1.known = row.1.known.with(news);
    }
}

/// The accepted messages of one source, each count once, in ascending order. Contracts see the list of the counts with
/// what is known.
#[derive(Drop)]
pub(crate) struct SourceMessages {
    rows: Vec<(u32, MessageState)>,
}

impl Model for SourceMessages {
    ghost use Rattle.std.specs.Prelude.{List, ℕ};
    ghost use Rattle.std.specs.Map.{keys_of};
    ghost use Rattle.std.specs.List.Sorted.{IsStrictlySortedBy};
    ghost use Rattle.std.specs.Ordering.{nat_cmp};
    ghost use Rattle.am_office_report.specs.declared.sources.MessageState.{MessageState};

    ghost Value = { List (ℕ × MessageState) };

    ghost view = { λ messages. messages.rows.items };

    ghost invariant = { λ messages. IsStrictlySortedBy nat_cmp (keys_of messages.rows.items) };
}

impl SourceMessages {
    ghost use Rattle.std.specs.Prelude.{◌≡◌, [], map, OnOk};
    ghost use Rattle.std.specs.BTreeMap.{insert_entry};
    ghost use Rattle.std.specs.Ordering.{nat_cmp};
    ghost use Rattle.am_office_report.specs.Tables.{accepted_state, heard};

    pub(crate) fn new(alloc: Global) -> Self
        ensures { result ≡ [] }
    {
        SourceMessages {
            rows: Vec::new(alloc),
        }
    }

    /// Enters an accepted message. Where its count is there already, this kind replaces the other.
    pub(crate) fn accept(&mut self, count: u32, kind: MsgKind) -> Result<(), AllocError>
        ensures { OnOk result (self.new ≡ insert_entry nat_cmp self.old count (accepted_state kind)) }
    {
        let known = Known::nothing();
        let state = MessageState { kind, known };
        let place = place_in(self.rows.as_slice(), count);
        put(&mut self.rows, place, count, state)
    }

    /// Notes news of a message, if it is there.
    pub(crate) fn learn(&mut self, count: u32, news: News)
        ensures { self.new ≡ map (heard count news) self.old }
    {
        let place = place_in(self.rows.as_slice(), count);
        hear(&mut self.rows, place, count, news);
    }

    /// The messages in ascending order of count.
    pub(crate) fn rows(&self) -> &[(u32, MessageState)]
        ensures { result.now ≡ self.now }
    {
        self.rows.as_slice()
    }
}
