//! The parts of nodes are made of their shells, interfaces and disks.

ghost use Rattle.am_machine.specs.Node.Parts.{part_of, parts_of};
ghost use Rattle.am_machine.specs.Swaps.{IsTallied};
ghost use Rattle.std.specs.Prelude.{◌≡◌, ◌≤◌, [], All, length, vec_capacity};

use crate::node::NodePart;
use crate::node::shells::Shell;
use am_iface::Interface;
use am_swap_device::MemorySwap;

/// The part of a node.
fn part_of(shell: Shell, iface: Interface, swap: MemorySwap) -> NodePart
    ensures { result ≡ part_of shell iface swap }
{
    let Shell {
        node,
        ends,
        emitted,
        received,
    } = shell;
    NodePart {
        node,
        ends,
        iface,
        swap,
        emitted,
        received,
    }
}

/// Of the calls of each node's disk those failed that were to fail. It looks once at each.
fn are_tallied(parts: &[NodePart])
    ensures { All (λ part. IsTallied part.swap) parts.now }
{
    for part in parts {
        part.swap.tallied();
    }
}

/// The parts of nodes, each of a shell, an interface and a disk, in their order, in a list that has room for them.
pub fn assemble(
    mut shells: Vec<Shell>,
    mut interfaces: Vec<Interface>,
    mut swaps: Vec<MemorySwap>,
    mut parts: Vec<NodePart>,
) -> Vec<NodePart>
    requires interfaces { length interfaces.items ≡ length shells.items }
    requires swaps { length swaps.items ≡ length shells.items }
    requires none { parts.items ≡ [] }
    requires room { length shells.items ≤ vec_capacity parts }
    ensures parts { result.items ≡ parts_of shells.items interfaces.items swaps.items }
    ensures tallied { All (λ part. IsTallied part.swap) result.items }
{
    while let Some(shell) = shells.pop() {
        let iface = interfaces.pop().unwrap();
        let swap = swaps.pop().unwrap();
        parts.push(part_of(shell, iface, swap)).unwrap();
    }
    parts.reverse();
    are_tallied(parts.as_slice());
    parts
}
