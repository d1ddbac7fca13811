//! The shape of a link: what its emissions release, one after the other.

ghost use Rattle.std.specs.Prelude.{◌≡◌, ◌<◌, ◌^◌, ◌++◌, IfOk, find};
ghost use Rattle.std.specs.List.{flat_map};
ghost use Rattle.am_scenario_plan.specs.Shape.{is_line_of, fault_at, at_once, stamped, stamp_of, shape, OnePacketMore, BeginsAlike};
ghost use Rattle.am_scenario_plan.specs.Held.{held_back, falls_due};

use crate::plan::{LinkFault, PlanLine};
use am_names::{NoMemory, NodeId, Packet};
use std::alloc::Global;

/// A packet that is released later.
#[derive(Clone, Copy)]
struct LatePacket {
    /// The emission that releases it.
    due: u64,
    packet: Packet,
}

fn line_of(plan: &[PlanLine], from: NodeId, to: NodeId, place: u64) -> Option<PlanLine>
    ensures { result ≡ find (is_line_of from to place) plan.now }
{
    plan.iter().copied().find(|line| {
        from.0 == line.from.0 && to.0 == line.to.0 && place == u64::from(line.number)
    })
}

// What the plan says of a packet, by its place among those that were emitted on the link.
fn fault_of(plan: &[PlanLine], from: NodeId, to: NodeId, place: u64) -> Option<LinkFault>
    ensures { result ≡ fault_at plan.now from to place }
{
    match line_of(plan, from, to, place) {
        Some(line) => Some(line.fault),
        None => None,
    }
}

fn stamp_of(packet: Packet) -> u64
    ensures { result ≡ stamp_of packet }
{
    match packet {
        Packet::Parcel(parcel) => parcel.stamp,
        Packet::Answer(answer) => answer.stamp,
    }
}

fn stamped(stamp: u64, packet: Packet) -> Packet
    ensures { result ≡ stamped stamp packet }
{
    match packet {
        Packet::Parcel(mut parcel) => {
            parcel.stamp = stamp;
            Packet::Parcel(parcel)
        }
        Packet::Answer(mut answer) => {
            answer.stamp = stamp;
            Packet::Answer(answer)
        }
    }
}

// What a packet's own emission releases of it.
fn release(
    released: &mut Vec<Packet>,
    fault: Option<LinkFault>,
    packet: Packet,
) -> Result<(), NoMemory>
    ensures { IfOk result (λ _. released.new.items ≡ released.old.items ++ at_once fault packet) }
{
    match fault {
        None => released.push(packet)?,
        Some(LinkFault::Repeat) => {
            released.push(packet)?;
            released.push(packet)?;
        }
        Some(LinkFault::Lose) | Some(LinkFault::Late(_)) => {}
    }
    Ok(())
}

fn release_due(
    released: &mut Vec<Packet>,
    held: LatePacket,
    now: u64,
    stamp: u64,
) -> Result<(), NoMemory>
    ensures { IfOk result (λ _. released.new.items ≡ released.old.items ++ falls_due now stamp held) }
{
    if held.due == now {
        released.push(stamped(stamp, held.packet))?;
    }
    Ok(())
}

// The packets that were held back until this emission.
fn release_held(
    released: &mut Vec<Packet>,
    held: &[LatePacket],
    now: u64,
    stamp: u64,
) -> Result<(), NoMemory>
    ensures { IfOk result (λ _. released.new.items ≡ released.old.items ++ flat_map (falls_due now stamp) held.now) }
{
    for packet in held {
        release_due(released, *packet, now, stamp)?;
    }
    Ok(())
}

fn hold(
    held: &mut Vec<LatePacket>,
    fault: Option<LinkFault>,
    place: u64,
    packet: Packet,
) -> Result<(), NoMemory>
    requires { place < 2 ^ 63 }
    ensures { IfOk result (λ _. held.new.items ≡ held.old.items ++ held_back fault place packet) }
{
    if let Some(LinkFault::Late(by)) = fault {
        let due = place + u64::from(by);
        held.push(LatePacket { due, packet })?;
    }
    Ok(())
}

/// What the emissions on the link from a node to a node release, by the plan. `NoMemory` comes only for want of memory.
pub fn shape(
    alloc: Global,
    plan: &[PlanLine],
    from: NodeId,
    to: NodeId,
    emitted: &[Packet],
) -> Result<Vec<Packet>, NoMemory>
    ensures { IfOk result (λ released. released.items ≡ shape plan.now from to emitted.now) }
{
    let mut released = Vec::new(alloc);
    let mut held = Vec::new(alloc);
    let mut number: u64 = 1;
    for packet in emitted {
        let fault = fault_of(plan, from, to, number);
        release(&mut released, fault, *packet)?;
        release_held(&mut released, &held, number, stamp_of(*packet))?;
        hold(&mut held, fault, number, *packet)?;
        number += 1;
    }
    Ok(released)
}

/// One emission more releases its part after all that was released before, and the shape of a beginning is a
/// beginning of the shape.
pub fn one_packet_more()
    ensures one { OnePacketMore }
    ensures more { BeginsAlike }
{}
