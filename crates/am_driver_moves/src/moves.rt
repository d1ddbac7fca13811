//! A move of a driver.
ghost use Rattle.am_endpoint.specs.View.{state_after};
ghost use Rattle.am_model_parts.specs.Granted.{MayMove};
ghost use Rattle.am_driver_moves.specs.Logs.{kept};
ghost use Rattle.am_driver_moves.specs.Devices.{IsMovedFor, MovesOn, TellsMove};
ghost use Rattle.am_driver_moves.specs.Moves.{CanMove, CanMoveBy, Moves};
ghost use Rattle.am_driver_moves.specs.Pages.{is_page};
ghost use Rattle.std.specs.Prelude.{◌≡◌, ◌<◌, ◌∷◌, ◌++◌, [], IfOk, OnErr, length, false, true};

use crate::pages::page;
use am_endpoint::Endpoint;
use am_office_entries::{Entry, Event, NoMemory, Outcome};
use am_swap::{Look, MemorySwap};
use std::alloc::Global;

/// Gives the entry of a drain, an unload or a load to the endpoint that it moves.
fn move_end(end: &mut Endpoint, entry: Entry)
    requires ready { end.old.ready ≡ true }
    requires room { length end.old.log < end.old.settings.log }
    requires allowed { MayMove end.old.settings.node end.old.settings.id (state_after end.old) entry entry.event }
    requires unpaged { is_page entry.event ≡ false }
    ensures settings { end.new.settings ≡ end.old.settings }
    ensures log { end.new.log ≡ end.old.log ++ entry ∷ [] }
{
    match entry.event {
        Event::Drain { .. } => end.begin_drain(entry),
        Event::Unload { .. } => end.unload(entry),
        Event::Load { .. } => end.load(entry),
        _ => unreachable!(),
    }
}

/// Makes a drain, an unload or a load: its entry is silent.
fn make_silent(end: &mut Endpoint, event: Event, stamp: u64) -> Result<Entry, NoMemory>
    requires room { length end.old.log < end.old.settings.log }
    requires unpaged { is_page event ≡ false }
    requires allowed { MayMove end.old.settings.node end.old.settings.id (state_after end.old) (record { stamp = stamp; event = event; outcome = Outcome.Silent }) event }
    ensures entry { IfOk result (λ x. x ≡ record { stamp = stamp; event = event; outcome = Outcome.Silent }) }
    ensures settings { end.new.settings ≡ end.old.settings }
    ensures log { IfOk result (λ x. end.new.log ≡ end.old.log ++ x ∷ []) }
    ensures err { OnErr result (end.new.log ≡ end.old.log) }
{
    if end.room().is_err() {
        return Err(NoMemory);
    }
    let entry = Entry {
        stamp,
        event,
        outcome: Outcome::Silent,
    };
    move_end(end, entry);
    Ok(entry)
}

/// Whether the event is a page call.
fn is_page(event: Event) -> bool
    ensures { result ≡ is_page event }
{
    match event {
        Event::PageOut { .. } | Event::PageIn { .. } => true,
        _ => false,
    }
}

/// Makes a move of an endpoint whose log has room for one more entry, where the disk of its node is any device: a page-out
/// and a page-in are one call of it each. Want of memory leaves the endpoint as it was, and the disk too, as far as it
/// shows. The outcome is failed only where the disk's count of faults rose.
pub fn make_move_on<S: Look>(
    alloc: Global,
    swap: &mut S,
    end: &mut Endpoint,
    event: Event,
    stamp: u64,
) -> Result<Entry, NoMemory>
    requires can { CanMoveBy (S.device swap.old).held (kept end.old) event }
    requires room { length end.old.log < end.old.settings.log }
    ensures moves { MovesOn (S.device swap.old) (S.device swap.new) (kept end.old) (kept end.new) event stamp result }
    ensures cause { IsMovedFor result (S.count swap.old) (S.count swap.new) }
    ensures tells { TellsMove (S.tells swap.old swap.new) (swap.new ≡ swap.old) (kept end.old) event result }
{
    if is_page(event) {
        page(alloc, swap, end, event, stamp)
    } else {
        make_silent(end, event, stamp)
    }
}

/// The same with a disk in memory, exactly. Want of memory leaves the disk and the endpoint as they were.
pub fn make_move(
    alloc: Global,
    swap: &mut MemorySwap,
    end: &mut Endpoint,
    event: Event,
    stamp: u64,
) -> Result<Entry, NoMemory>
    requires can { CanMove swap.old (kept end.old) event }
    requires room { length end.old.log < end.old.settings.log }
    ensures { Moves swap.old swap.new (kept end.old) (kept end.new) event stamp result }
{
    make_move_on(alloc, swap, end, event, stamp)
}
