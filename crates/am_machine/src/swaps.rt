//! The disks of a cluster, as they begin.

ghost use Rattle.am_swap_device.specs.Memory.{with_held};
ghost use Rattle.am_swap_image.specs.Image.{image};
ghost use Rattle.am_machine.specs.Presets.{AreOpened, begins_on, fails_of, is_of_node, opened_swap, opening_body, preset_if};
ghost use Rattle.std.specs.Prelude.{◌≡◌, IfOk, OnOk};

use crate::interfaces::interfaces_of;
use crate::opening::settings_of;
use crate::settings::Settings;
use am_endpoint::Body;
use am_names::NodeId;
use am_office_entries::NoMemory;
use am_scenario_types::{EndLine, FaultLine};
use am_swap::{MemorySwap, encode};
use std::alloc::Global;

/// Whether it is a fault of the node.
fn is_of_node(fault: &FaultLine, node: NodeId) -> bool
    ensures { result ≡ is_of_node node fault.now }
{
    node.0 == fault.node.0
}

/// The numbers of a node's page calls that fail.
fn fails_of(alloc: Global, faults: &[FaultLine], node: NodeId) -> Result<Vec<u32>, NoMemory>
    ensures { IfOk result (λ fails. fails.items ≡ fails_of node faults.now) }
{
    let mut fails = Vec::new(alloc);
    for fault in faults {
        if is_of_node(fault, node) {
            fails.push(fault.number)?;
        }
    }
    Ok(fails)
}

/// Whether the endpoint is declared on the disk of the node.
fn begins_on(line: &EndLine, node: NodeId) -> bool
    ensures { result ≡ begins_on node line.now }
{
    line.disk && node.0 == line.node.0
}

/// Presets the opening image of an endpoint.
fn preset(
    alloc: Global,
    swap: &mut MemorySwap,
    settings: &Settings,
    line: &EndLine,
) -> Result<(), NoMemory>
    ensures { OnOk result (swap.new ≡ with_held swap.old line.now.id (image (opening_body line.now))) }
{
    let body = Body::opening(alloc, &settings_of(settings, line))?;
    let image = encode(alloc, &body)?;
    swap.preset(line.id, image.as_slice())
}

/// Presets the opening image of an endpoint where it is declared on the disk of the node.
fn preset_if(
    alloc: Global,
    swap: &mut MemorySwap,
    settings: &Settings,
    line: &EndLine,
    node: NodeId,
) -> Result<(), NoMemory>
    ensures { OnOk result (swap.new ≡ preset_if (begins_on node line.now) line.now swap.old) }
{
    if begins_on(line, node) {
        preset(alloc, swap, settings, line)
    } else {
        Ok(())
    }
}

/// The disk of a node, with the opening images of the endpoints that are declared there.
fn open_swap(
    alloc: Global,
    settings: &Settings,
    faults: &[FaultLine],
    lines: &[EndLine],
    node: NodeId,
) -> Result<MemorySwap, NoMemory>
    ensures { IfOk result (λ swap. swap ≡ opened_swap faults.now lines.now node) }
{
    let mut swap = MemorySwap::new(alloc, fails_of(alloc, faults, node)?);
    for line in lines {
        preset_if(alloc, &mut swap, settings, line, node)?;
    }
    Ok(swap)
}

/// The disks of a cluster: one for each node of the packet network.
pub(crate) fn open_swaps(
    alloc: Global,
    settings: &Settings,
    faults: &[FaultLine],
    lines: &[EndLine],
) -> Result<Vec<MemorySwap>, NoMemory>
    ensures { IfOk result (λ swaps. AreOpened settings.now faults.now lines.now swaps.items) }
{
    let mut all = Vec::new(alloc);
    let count = interfaces_of(settings);
    for node in 0..count {
        let swap = open_swap(alloc, settings, faults, lines, NodeId(node))?;
        let Ok(()) = all.push(swap) else {
            return Err(NoMemory);
        };
    }
    Ok(all)
}
