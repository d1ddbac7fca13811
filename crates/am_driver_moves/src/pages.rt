//! A page call on its parts: the disk of the node, and the endpoint.
ghost use Rattle.am_swap_device.specs.Causes.{held_with};
ghost use Rattle.am_endpoint.specs.View.{state_after};
ghost use Rattle.am_swap_image.specs.Image.{image};
ghost use Rattle.am_swap_image.specs.Valid.{IsValid};
ghost use Rattle.am_driver_moves.specs.Logs.{kept};
ghost use Rattle.am_driver_moves.specs.Devices.{IsCalled, IsCalledFor, IsEnded, IsMovedFor, MovesOn, TellsMove, fault_in, is_failed};
ghost use Rattle.am_driver_moves.specs.Moves.{CanMoveBy};
ghost use Rattle.am_driver_moves.specs.Pages.{CanPageIn, CanPageOut, HoldsImage, is_page};
ghost use Rattle.am_model.specs.Tables.{page_ended};
ghost use Rattle.am_model.specs.Endpoint.{is_on_host};
ghost use Rattle.am_office_entries.specs.declared.Event.TheVariants as Events;
ghost use Rattle.std.specs.Prelude.{◌≡◌, ◌<◌, [], IfOk, IsSome, None, Some, length, true};

use am_endpoint::{Body, Endpoint};
use am_names::{EndpointId, NodeId};
use am_office_entries::{Entry, Event, NoMemory, Outcome};
use am_swap::{Look, Swap, SwapFault, decode, encode};
use std::alloc::Global;

/// Whether a call of the disk that was answered so failed.
fn ended<T>(answer: &Result<T, SwapFault>) -> Result<bool, NoMemory>
    ensures { IsEnded answer.now result }
{
    match answer {
        Ok(_) => Ok(false),
        Err(SwapFault::Failed) => Ok(true),
        Err(SwapFault::NoMemory) => Err(NoMemory),
    }
}

/// Writes an image to the disk: whether that failed.
fn write<S: Swap>(swap: &mut S, key: EndpointId, image: &[u8]) -> Result<bool, NoMemory>
    ensures called { IsCalled (S.device swap.old) (S.device swap.new) (held_with (S.device swap.old).held key image.now) result }
    ensures cause { IsCalledFor result (S.count swap.old) (S.count swap.new) }
    ensures tells { S.tells swap.old swap.new key (Some image.now) (fault_in result) }
{
    let answer = swap.write(key, image);
    ended(&answer)
}

/// Reads an image from the disk: whether that failed.
fn read<S: Swap>(alloc: Global, swap: &mut S, key: EndpointId) -> Result<bool, NoMemory>
    requires { IsSome ((S.device swap.old).held key) }
    ensures called { IsCalled (S.device swap.old) (S.device swap.new) (S.device swap.old).held result }
    ensures cause { IsCalledFor result (S.count swap.old) (S.count swap.new) }
    ensures tells { S.tells swap.old swap.new key None (fault_in result) }
{
    let answer = swap.read(alloc, key);
    ended(&answer)
}

/// What comes of a page call, by whether the disk's call failed.
fn page_ended(failed: bool) -> Outcome
    ensures outcome { result ≡ page_ended failed }
    ensures failed { is_failed result ≡ failed }
{
    if failed {
        Outcome::Failed
    } else {
        Outcome::Done
    }
}

/// The image of the body of an endpoint on the host.
fn image_of(alloc: Global, end: &Endpoint) -> Result<Vec<u8>, NoMemory>
    requires { is_on_host (state_after end.now).head.place ≡ true }
    ensures image { IfOk result (λ bytes. bytes.items ≡ image (state_after end.now).body) }
    ensures valid { IfOk result (λ bytes. IsValid end.now.settings.id end.now.settings.pool (state_after end.now).body) }
{
    let Some(body) = end.body() else {
        unreachable!()
    };
    encode(alloc, body)
}

/// The body whose image the disk holds for an endpoint, without a call of the disk.
fn body_of<S: Look>(alloc: Global, swap: &S, end: &Endpoint) -> Result<Body, NoMemory>
    requires { HoldsImage (S.device swap.now).held end.now.settings.pool end.now.settings.id (state_after end.now).body }
    ensures { IfOk result (λ body. body ≡ record { pool = end.now.settings.pool; body = (state_after end.now).body; flights = [] }) }
{
    let Some(image) = swap.look(end.id()) else {
        unreachable!()
    };
    let found = decode(alloc, end.id(), end.pool(), image)?;
    let Some(body) = found else { unreachable!() };
    Ok(body)
}

/// Pages an endpoint of the host out: its image is written, and unless that fails it goes to disk.
fn page_out<S: Swap>(
    alloc: Global,
    swap: &mut S,
    endpoint: &mut Endpoint,
    node: NodeId,
    end: EndpointId,
    stamp: u64,
) -> Result<Entry, NoMemory>
    requires can { CanPageOut node end (kept endpoint.old) }
    requires room { length endpoint.old.log < endpoint.old.settings.log }
    ensures moves { MovesOn (S.device swap.old) (S.device swap.new) (kept endpoint.old) (kept endpoint.new) (Events.PageOut node end) stamp result }
    ensures cause { IsMovedFor result (S.count swap.old) (S.count swap.new) }
    ensures tells { TellsMove (S.tells swap.old swap.new) (swap.new ≡ swap.old) (kept endpoint.old) (Events.PageOut node end) result }
{
    let image = image_of(alloc, endpoint)?;
    if endpoint.room().is_err() {
        return Err(NoMemory);
    }
    let failed = write(swap, endpoint.id(), image.as_slice())?;
    let entry = Entry {
        stamp,
        event: Event::PageOut { node, end },
        outcome: page_ended(failed),
    };
    endpoint.page_out(entry);
    Ok(entry)
}

/// Pages an endpoint in: its image is read, and unless that fails it comes to the host. The body is made first, of the
/// bytes that the disk shows, so that want of memory for it leaves no call of the disk.
fn page_in<S: Look>(
    alloc: Global,
    swap: &mut S,
    endpoint: &mut Endpoint,
    node: NodeId,
    end: EndpointId,
    stamp: u64,
) -> Result<Entry, NoMemory>
    requires can { CanPageIn (S.device swap.old).held node end (kept endpoint.old) }
    requires room { length endpoint.old.log < endpoint.old.settings.log }
    ensures moves { MovesOn (S.device swap.old) (S.device swap.new) (kept endpoint.old) (kept endpoint.new) (Events.PageIn node end) stamp result }
    ensures cause { IsMovedFor result (S.count swap.old) (S.count swap.new) }
    ensures tells { TellsMove (S.tells swap.old swap.new) (swap.new ≡ swap.old) (kept endpoint.old) (Events.PageIn node end) result }
{
    let body = body_of(alloc, swap, endpoint)?;
    if endpoint.room().is_err() {
        return Err(NoMemory);
    }
    let failed = read(alloc, swap, endpoint.id())?;
    let entry = Entry {
        stamp,
        event: Event::PageIn { node, end },
        outcome: page_ended(failed),
    };
    if failed {
        endpoint.page_failed(entry);
    } else {
        endpoint.page_in(entry, body);
    }
    Ok(entry)
}

/// Makes a page call: Ok is its entry, which is failed exactly where the disk's call failed. Want of memory leaves the
/// disk and the endpoint as they were.
pub(crate) fn page<S: Look>(
    alloc: Global,
    swap: &mut S,
    endpoint: &mut Endpoint,
    event: Event,
    stamp: u64,
) -> Result<Entry, NoMemory>
    requires can { CanMoveBy (S.device swap.old).held (kept endpoint.old) event }
    requires paged { is_page event ≡ true }
    requires room { length endpoint.old.log < endpoint.old.settings.log }
    ensures moves { MovesOn (S.device swap.old) (S.device swap.new) (kept endpoint.old) (kept endpoint.new) event stamp result }
    ensures cause { IsMovedFor result (S.count swap.old) (S.count swap.new) }
    ensures tells { TellsMove (S.tells swap.old swap.new) (swap.new ≡ swap.old) (kept endpoint.old) event result }
{
    match event {
        Event::PageOut { node, end } => page_out(alloc, swap, endpoint, node, end, stamp),
        Event::PageIn { node, end } => page_in(alloc, swap, endpoint, node, end, stamp),
        _ => unreachable!(),
    }
}
