//! Taking endpoints off the disk.

ghost use Rattle.am_model_drain.specs.Made.{after_event_if};
ghost use Rattle.am_model_drain.specs.Ready as plan;
ghost use Rattle.am_cluster_drainer.specs.Reads.{is_seat};
ghost use Rattle.am_cluster_drainer.specs.Stops.{Acts};
ghost use Rattle.am_model_scripts.specs.Layout.{layout_of};
ghost use Rattle.am_model.specs.History.{is_in_range};
ghost use Rattle.am_model.specs.Layout as layouts;
ghost use Rattle.std.specs.Prelude.{◌≡◌, true};

use crate::Drainable;
use am_model::{EntryFault, is_on_disk};
use am_names::{EndpointId, NodeId};
use am_office_entries::Event;

/// Makes the entry of an event under a condition.
pub(crate) fn apply_if<M: Drainable>(
    machine: &mut M,
    condition: bool,
    event: Event,
) -> Result<(), EntryFault>
    requires { is_in_range (layout_of (M.scenario machine.old)) event ≡ true }
    ensures scenario { M.scenario machine.new ≡ M.scenario machine.old }
    ensures acts { Acts (M.scenario machine.old) result (M.journal machine.old) (after_event_if condition (layout_of (M.scenario machine.old)) event (M.journal machine.old)) (M.journal machine.new) }
{
    if condition {
        machine.apply(event)
    } else {
        Ok(())
    }
}

/// Takes an endpoint of a node off the disk.
pub(crate) fn off_disk<M: Drainable>(
    machine: &mut M,
    node: NodeId,
    end: EndpointId,
) -> Result<(), EntryFault>
    requires { is_seat (layout_of (M.scenario machine.old)) node end ≡ true }
    ensures scenario { M.scenario machine.new ≡ M.scenario machine.old }
    ensures acts { Acts (M.scenario machine.old) result (M.journal machine.old) (plan.off_disk (layout_of (M.scenario machine.old)) node end (M.journal machine.old)) (M.journal machine.new) }
{
    let most = machine.faults() + 1;
    'page_ins: for _ in 0..most {
        let on_disk = is_on_disk(machine.head_by(end).place);
        match apply_if(machine, on_disk, Event::PageIn { node, end }) {
            Ok(()) => {}
            Err(fault) => return Err(fault),
        }
    }
    Ok(())
}

/// Takes an endpoint off the disk of its node.
pub(crate) fn off_disk_at_home<M: Drainable>(
    machine: &mut M,
    end: EndpointId,
) -> Result<(), EntryFault>
    ensures scenario { M.scenario machine.new ≡ M.scenario machine.old }
    ensures acts { let layout = layout_of (M.scenario machine.old) in Acts (M.scenario machine.old) result (M.journal machine.old) (plan.off_disk_at (layouts.home layout end) layout end (M.journal machine.old)) (M.journal machine.new) }
{
    match machine.home(end) {
        Some(node) => off_disk(machine, node, end),
        None => Ok(()),
    }
}
