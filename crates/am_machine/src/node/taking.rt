//! The parts of nodes are taken apart into their endpoints, interfaces and disks.

ghost use Rattle.am_machine.specs.Node.Taken.{HasRoomFor, IsEmpty, IsTaken, IsTakenFrom};
ghost use Rattle.std.specs.Prelude.{◌+◌, ℕ, IfOk, length};

use crate::node::NodePart;
use am_endpoint::Endpoint;
use am_iface::Interface;
use am_office_entries::NoMemory;
use am_swap_device::MemorySwap;
use std::alloc::Global;

/// The endpoints of several nodes, those of each from the last to the first, and their interfaces and disks.
#[derive(Drop)]
pub struct TakenParts {
    pub ends: Vec<Vec<Endpoint>>,
    pub interfaces: Vec<Interface>,
    pub swaps: Vec<MemorySwap>,
}

/// Room for what so many nodes have.
pub fn room_for(alloc: Global, nodes: usize) -> Result<TakenParts, NoMemory>
    ensures none { IfOk result IsEmpty }
    ensures room { IfOk result (HasRoomFor nodes) }
{
    Ok(TakenParts {
        ends: Vec::with_capacity(alloc, nodes)?,
        interfaces: Vec::with_capacity(alloc, nodes)?,
        swaps: Vec::with_capacity(alloc, nodes)?,
    })
}

/// Takes a node's endpoints, interface and disk.
fn take(taken: &mut TakenParts, part: NodePart)
    requires { HasRoomFor 1 taken.old }
    ensures taken { IsTaken taken.old part taken.new }
    ensures room { (n : ℕ) → HasRoomFor (n + 1) taken.old → HasRoomFor n taken.new }
{
    let NodePart {
        mut ends,
        iface,
        swap,
        ..
    } = part;
    ends.reverse();
    taken.ends.push(ends).unwrap();
    taken.interfaces.push(iface).unwrap();
    taken.swaps.push(swap).unwrap();
}

/// Takes the nodes' endpoints, interfaces and disks, in their order, into lists that have room for them.
pub fn take_apart(mut parts: Vec<NodePart>, mut taken: TakenParts) -> TakenParts
    requires none { IsEmpty taken }
    requires room { HasRoomFor (length parts.items) taken }
    ensures { IsTakenFrom parts.items result }
{
    parts.reverse();
    while let Some(part) = parts.pop() {
        take(&mut taken, part);
    }
    taken
}
