//! A disk of another make than the cluster's own, in a turn of a driver.

ghost use Rattle.am_cluster_opening.specs.Crews.{IsCrew};
ghost use Rattle.am_scenario_types.specs.Lawful.{IsLawful};
ghost use Rattle.am_scenario_types.specs.declared.parts.Network.TheVariants.{Packet};
ghost use Rattle.std.specs.Prelude.{◌≡◌, ◌∷◌, [], IfSome};

use crate::far_disk::FarDisk;
use crate::workloads::scenario_of;
use am_cluster_opening::{NodeCrew, open_crews};
use am_driver::{DriverTurn, EndView, View, driver_turn};
use am_names::{EndpointId, NodeId};
use am_office_entries::{Entry, Event, Outcome};
use am_scenario::Scenario;
use am_swap_device::{Look, MemorySwap, Swap};
use std::alloc::Global;

/// Nothing is to stay on the host.
const CROWDED: &str = "am2 1\nnetwork packet\nnodes 1\nkeep 0\nturns 1\nendpoint 0 0 5\n";

const FIRST: EndpointId = EndpointId(0);

/// The line of a view that has but one.
fn only_line(view: &View) -> Option<EndView>
    ensures { IfSome result (λ line. view.now.ends ≡ line ∷ []) }
{
    match view.ends.as_slice() {
        [line] => Some(*line),
        _ => None,
    }
}

/// A turn of the driver of a crew that has one endpoint, of which its own disk holds nothing, with this disk in the place of its own.
fn turn_with(
    alloc: Global,
    scenario: &Scenario,
    node: NodeId,
    crew: &mut NodeCrew,
    disk: &mut FarDisk,
) -> Option<DriverTurn>
    requires crew { IsCrew scenario.now node 0 crew.old }
{
    let driver = &mut crew.driver;
    let Some(line) = only_line(&driver.view) else {
        return None;
    };
    let None = driver.swap.held(line.id) else {
        return None;
    };
    driver_turn(
        alloc,
        node,
        &crew.places,
        &mut driver.seat,
        disk,
        &mut driver.view,
        &mut driver.clock,
    )
    .ok()
}

/// What the first turn of the driver of node 0 makes, with this disk.
fn first_move(alloc: Global, scenario: &Scenario, disk: &mut FarDisk) -> Option<Entry>
    requires lawful { IsLawful scenario.now }
    requires packet { scenario.now.network ≡ Packet }
{
    let Ok(mut crews) = open_crews(alloc, scenario) else {
        return None;
    };
    let Some(crew) = crews.get_mut(0) else {
        return None;
    };
    match turn_with(alloc, scenario, NodeId(0), crew, disk) {
        Some(DriverTurn::Did(entry)) => Some(entry),
        _ => None,
    }
}

/// A driver pages out to it: the page is written, or the write fails, which is the disk's first or second call.
#[test]
fn a_driver_pages_out_to_a_far_disk(rt: HostRuntime) {
    let scenario = scenario_of(&rt, rt.alloc(), CROWDED);
    for (failing, outcome, faults) in [(2, Outcome::Done, 0), (1, Outcome::Failed, 1)] {
        let fails = Vec::from_slice(rt.alloc(), &[failing]).expect(&rt, "a list");
        let mut disk = FarDisk {
            disk: MemorySwap::new(rt.alloc(), fails),
        };
        let entry = first_move(rt.alloc(), &scenario, &mut disk).expect(&rt, "a move");
        assert!(rt; matches!(entry.event, Event::PageOut { .. }));
        assert!(rt; entry.outcome == outcome);
        assert!(rt; disk.look(FIRST).is_some() == (faults == 0));
        assert!(rt; disk.faults() == faults);
    }
}
