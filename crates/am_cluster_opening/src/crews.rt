//! The crew of a node is made of what its workers begin with and of its links.

ghost use Rattle.am_cluster_opening.specs.Crews.{AreCrews, AreLinked, AreNumbered, IsCrew, IsUnused};
ghost use Rattle.am_cluster_opening.specs.Making.{AreNodeLinks};
ghost use Rattle.am_wire.specs.AllLinks.Links.{AreLinks};
ghost use Rattle.am_model.specs.Layout.{AllAre};
ghost use Rattle.am_cluster_opening.specs.Node.Openings.{AreOpenings, IsOpening};
ghost use Rattle.am_scenario_types.specs.Lawful.{IsLawful};
ghost use Rattle.am_scenario_types.specs.declared.parts.Network.TheVariants as Networks;
ghost use Rattle.std.specs.Prelude.{◌≡◌, ◌<◌, IfOk};

use crate::crew::NodeCrew;
use crate::making::{Seated, seat_all};
use crate::node::Opening;
use am_names::NoMemory;
use am_scenario_types::Scenario;
use am_wire::all_links::Links;
use am_wire::{LinkIn, LinkOut};
use am_workers::turns::Waits;
use am_workers::{DriverWorker, InterfaceWorker, new_workers_are_at_work};
use std::alloc::Global;

/// The crew of a node, whose first worker has this number, with its ends of its links.
fn open_crew(
    alloc: Global,
    scenario: &Scenario,
    first: u32,
    mut opening: Opening,
    outs: Vec<LinkOut>,
    ins: Vec<LinkIn>,
) -> Result<NodeCrew, NoMemory>
    requires lawful { IsLawful scenario.now }
    requires packet { scenario.now.network ≡ Networks.Packet }
    requires opening { IsOpening scenario.now opening.node opening }
    requires declared { opening.node.0 < scenario.now.nodes }
    requires links { AreNodeLinks scenario.now opening.node outs.items ins.items }
    ensures crew { IfOk result (IsCrew scenario.now opening.node 0) }
    ensures first { IfOk result (λ crew. crew.first ≡ first) }
    ensures outs { IfOk result (λ crew. crew.interface.outs ≡ outs) }
    ensures ins { IfOk result (λ crew. crew.interface.ins ≡ ins) }
    ensures unused { IfOk result IsUnused }
{
    new_workers_are_at_work();
    let waits = Waits::new(alloc)?;
    let seated = seat_all(alloc, scenario, &opening.threads, &mut opening.seats)?;
    let Seated {
        threads,
        interface: interface_seat,
        driver: driver_seat,
    } = seated;
    let Opening {
        node,
        places,
        interface,
        set,
        swap,
        view,
        ..
    } = opening;
    let interface = InterfaceWorker {
        seat: interface_seat,
        interface,
        set,
        waits,
        hand: None,
        ins,
        outs,
        last: 0,
        from: 0,
        end: 0,
        stop: None,
    };
    let driver = DriverWorker {
        seat: driver_seat,
        node,
        swap,
        view,
        clock: 0,
        stop: None,
    };
    Ok(NodeCrew {
        node,
        first,
        places,
        threads,
        interface,
        driver,
    })
}

/// The crews of the nodes, each with its ends of the links.
pub(crate) fn assemble(
    alloc: Global,
    scenario: &Scenario,
    mut openings: Vec<Opening>,
    links: Links,
) -> Result<Vec<NodeCrew>, NoMemory>
    requires lawful { IsLawful scenario.now }
    requires packet { scenario.now.network ≡ Networks.Packet }
    requires openings { AreOpenings scenario.now openings.items }
    requires links { AreLinks scenario.now.plan scenario.now.nodes links }
    ensures crews { IfOk result (λ crews. AreCrews scenario.now 0 crews.items) }
    ensures links { IfOk result (λ crews. AreLinked crews.items) }
    ensures numbers { IfOk result (λ crews. AreNumbered 0 crews.items) }
    ensures unused { IfOk result (λ crews. AllAre IsUnused crews.items) }
{
    let Links { mut outs, mut ins } = links;
    let mut crews = Vec::new(alloc);
    let mut first = 0;
    openings.reverse();
    outs.reverse();
    ins.reverse();
    while let Some(opening) = openings.pop() {
        let node_outs = outs.pop().unwrap();
        let node_ins = ins.pop().unwrap();
        let crew = open_crew(alloc, scenario, first, opening, node_outs, node_ins)?;
        first += crew.threads.len() as u32 + 2;
        crews.push(crew)?;
    }
    Ok(crews)
}
