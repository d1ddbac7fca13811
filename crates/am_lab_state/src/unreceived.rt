//! The packets of a link that were released and not received.

ghost use Rattle.am_lab_state.specs.Links.{without_received};
ghost use Rattle.am_model.specs.Choice.{without_first};
ghost use Rattle.am_model_scripts.specs.Links as links;
ghost use Rattle.am_scenario_plan.specs.Shape as shapes;
ghost use Rattle.std.specs.List.{position};
ghost use Rattle.std.specs.Prelude.{◌≡◌, ◌==◌, IfOk, map, option_to_list, ℕ};

use am_names::{NoMemory, NodeId, Packet};
use am_office_entries::{Entry, Event};
use am_scenario_plan::{PlanLine, shape};
use std::alloc::{AllocError, Global};

// The numbers of packets.
fn numbers_of(alloc: Global, packets: &[Packet]) -> Result<Vec<u64>, AllocError>
    ensures { IfOk result (λ numbers. numbers.items ≡ map shapes.number_of packets.now) }
{
    packets
        .iter()
        .map(|packet| u64::from(packet.way().number))
        .collect(alloc)
}

// What the emissions on a link released.
fn released(
    alloc: Global,
    plan: &[PlanLine],
    emitted: &[Packet],
    from: NodeId,
    to: NodeId,
) -> Result<Vec<u64>, NoMemory>
    ensures { IfOk result (λ numbers. numbers.items ≡ map shapes.number_of (shapes.shape plan.now from to emitted.now)) }
{
    let packets = shape(alloc, plan, from, to, emitted)?;
    Ok(numbers_of(alloc, &packets)?)
}

fn place_of(left: &[u64], number: u64) -> Option<usize>
    ensures { result ≡ position (λ (other : ℕ). number == other) left.now }
{
    left.iter().position(|other| number == *other)
}

// Takes the first packet with this number away, if there is one.
#[tactic(auto, using(crate::proofs::Taking::one_to_take, crate::proofs::Taking::none_to_take))]
fn take_packet(left: &mut Vec<u64>, number: u64)
    ensures { left.new.items ≡ without_first (λ (other : ℕ). number == other) left.old.items }
{
    match place_of(left.as_slice(), number) {
        Some(place) => {
            left.remove(place);
        }
        None => {}
    }
}

// The number of the packet that an entry receives on a link, if it does.
fn number_received(entry: &Entry, from: NodeId, to: NodeId) -> Option<u64>
    ensures { result ≡ links.number_received from to entry.now.event }
{
    match entry.event {
        Event::Receive { node, peer, number } if from.0 == peer.0 && to.0 == node.0 => {
            Some(u64::from(number))
        }
        _ => None,
    }
}

// Takes away what an entry receives.
fn take_one(left: &mut Vec<u64>, number: Option<u64>)
    ensures { left.new.items ≡ without_received (option_to_list number) left.old.items }
{
    match number {
        Some(number) => take_packet(left, number),
        None => {}
    }
}

// Takes away what these entries receive on a link.
fn take_received(left: &mut Vec<u64>, entries: &[Entry], from: NodeId, to: NodeId)
    ensures { left.new.items ≡ without_received (links.received from to entries.now) left.old.items }
{
    for entry in entries {
        take_one(left, number_received(entry, from, to));
    }
}

/// The numbers of the packets that a link released by its plan and that no entry received, where these packets were emitted on it.
/// `NoMemory` comes where there is none for what the link released.
pub(crate) fn unreceived(
    alloc: Global,
    plan: &[PlanLine],
    emitted: &[Packet],
    entries: &[Entry],
    from: NodeId,
    to: NodeId,
) -> Result<Vec<u64>, NoMemory>
    ensures { IfOk result (λ left. left.items ≡ without_received (links.received from to entries.now) (map shapes.number_of (shapes.shape plan.now from to emitted.now))) }
{
    let mut left = released(alloc, plan, emitted, from, to)?;
    take_received(&mut left, entries, from, to);
    Ok(left)
}
