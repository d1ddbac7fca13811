//! How the workers of all nodes make their turns at the same time.

ghost use Rattle.am_cluster_running.specs.Running.{AreBothAt, ArePlacesFor, AreThreadsAt, HaveRun, IsDriverAt, IsInterfaceAt, IsThreadAt, SameBoth, SameCrew, SameDriver, SameInterface, SameThread, is_starved, is_want};
ghost use Rattle.am_cluster_opening.specs.Crews.{AreCrews, AreLinked, AreNumbered, IsCrew};
ghost use Rattle.am_scenario_types.specs.Lawful.{IsLawful};
ghost use Rattle.am_scenario_types.specs.declared.parts.Network.TheVariants as Networks;
ghost use Rattle.am_workers.specs.declared.workers.ThreadWorker.{ThreadWorker};
ghost use Rattle.am_cluster_opening.specs.declared.crew.NodeCrew.{NodeCrew};
ghost use Rattle.std.specs.Prelude.{◌≡◌, ◌<◌, ◌≤◌, length};
ghost use Rattle.std.specs.List.{list_any};
ghost use Rattle.std.specs.Thread.{IsSync};

use am_cluster_opening::NodeCrew;
use am_names::NodeId;
use am_places::Places;
use am_scenario_types::Scenario;
use am_workers::{
    DriverWorker, Gate, InterfaceWorker, Stop, ThreadWorker, work_as_driver, work_as_interface,
    work_as_thread,
};
use am_workers_laws::books::EndBook;
use std::alloc::Global;
use std::thread;
use std::thread::{Threads, join_mut};

/// Each thread of a node makes its turns, all at the same time.
fn run_threads<R: Threads + Sync, G: Gate + Sync>(
    rt: &R,
    scenario: &Scenario,
    gate: &G,
    places: &Places<EndBook>,
    first: u32,
    threads: &mut [ThreadWorker],
)
    requires lawful { IsLawful scenario.now }
    requires few { length threads.old ≤ 4 }
    requires first { first ≤ 4096 }
    requires at_work { AreThreadsAt scenario.now places.now 0 threads.old }
    ensures ran { HaveRun scenario.now places.now threads.old threads.new }
{
    let count = threads.len().max(1);
    thread::for_each_mut(
        rt,
        threads,
        count,
        &|k, worker|
            requires { IsLawful scenario.now × (k < 4) × (first ≤ 4096) × IsThreadAt scenario.now places.now 0 worker.now }
            ensures { IsThreadAt scenario.entry.now places.entry.now scenario.entry.now.turns worker.exit.now × SameThread worker.entry.now worker.exit.now }
        { work_as_thread(worker, places, scenario, first + k as u32, gate) },
    );
}

/// The interface and the driver of a node make their turns at the same time.
fn run_both<R: Threads + Sync, G: Gate + Sync>(
    rt: &R,
    alloc: Global,
    scenario: &Scenario,
    gate: &G,
    places: &Places<EndBook>,
    node: NodeId,
    first: u32,
    interface: &mut InterfaceWorker,
    driver: &mut DriverWorker,
)
    requires places { ArePlacesFor scenario.now node places.now }
    requires first { first ≤ 8192 }
    requires of_node { driver.old.node ≡ node }
    requires at_work { AreBothAt scenario.now node places.now 0 interface.old driver.old }
    ensures at_work { AreBothAt scenario.now node places.now scenario.now.turns interface.new driver.new }
    ensures same { SameBoth interface.old driver.old interface.new driver.new }
{
    join_mut(
        rt,
        &mut ||
            requires { ArePlacesFor scenario.now node places.now × IsInterfaceAt scenario.now node places.now 0 interface.now }
            ensures { IsInterfaceAt scenario.exit.now node places.exit.now scenario.exit.now.turns interface.exit.now × SameInterface interface.entry.now interface.exit.now }
        { work_as_interface(interface, places, scenario, node, first, gate) },
        &mut ||
            requires { ArePlacesFor scenario.now node places.now × (first ≤ 8192) × (driver.now.node ≡ node) × IsDriverAt scenario.now node places.now 0 driver.now }
            ensures { IsDriverAt scenario.exit.now node places.exit.now scenario.exit.now.turns driver.exit.now × SameDriver driver.entry.now driver.exit.now }
        {
            let _node = node;
            work_as_driver(alloc, driver, places, scenario, first + 1, gate)
        },
    );
}

/// The workers of a node make their turns, all at the same time.
fn run_workers<R: Threads + Sync, G: Gate + Sync>(
    rt: &R,
    alloc: Global,
    scenario: &Scenario,
    gate: &G,
    places: &Places<EndBook>,
    node: NodeId,
    first: u32,
    threads: &mut [ThreadWorker],
    interface: &mut InterfaceWorker,
    driver: &mut DriverWorker,
)
    requires places { ArePlacesFor scenario.now node places.now }
    requires few { length threads.old ≤ 4 }
    requires first { first ≤ 4096 }
    requires of_node { driver.old.node ≡ node }
    requires threads { AreThreadsAt scenario.now places.now 0 threads.old }
    requires at_work { AreBothAt scenario.now node places.now 0 interface.old driver.old }
    ensures threads { HaveRun scenario.now places.now threads.old threads.new }
    ensures at_work { AreBothAt scenario.now node places.now scenario.now.turns interface.new driver.new }
    ensures same { SameBoth interface.old driver.old interface.new driver.new }
{
    let next = first + threads.len() as u32;
    join_mut(
        rt,
        &mut ||
            requires { IsSync R.row × IsSync G.row × IsLawful scenario.now × (length threads.now ≤ 4) × (first ≤ 4096) × AreThreadsAt scenario.now places.now 0 threads.now }
            ensures { HaveRun scenario.exit.now places.exit.now threads.entry.now threads.exit.now }
        { run_threads(rt, scenario, gate, places, first, threads) },
        &mut ||
            requires { IsSync R.row × IsSync G.row × ArePlacesFor scenario.now node places.now × (next ≤ 8192) × (driver.now.node ≡ node) × AreBothAt scenario.now node places.now 0 interface.now driver.now }
            ensures { AreBothAt scenario.exit.now node places.exit.now scenario.exit.now.turns interface.exit.now driver.exit.now × SameBoth interface.entry.now driver.entry.now interface.exit.now driver.exit.now }
        {
            run_both(
                rt, alloc, scenario, gate, places, node, next, interface, driver,
            )
        },
    );
}

/// The workers of a node's crew make their turns.
fn run_crew<R: Threads + Sync, G: Gate + Sync>(
    rt: &R,
    alloc: Global,
    scenario: &Scenario,
    gate: &G,
    crew: &mut NodeCrew,
)
    requires lawful { IsLawful scenario.now }
    requires packet { scenario.now.network ≡ Networks.Packet }
    requires declared { crew.old.node.0 < scenario.now.nodes }
    requires first { crew.old.first ≤ 4096 }
    requires crew { IsCrew scenario.now crew.old.node 0 crew.old }
    ensures crew { IsCrew scenario.now crew.old.node scenario.now.turns crew.new }
    ensures same { SameCrew crew.old crew.new }
{
    run_workers(
        rt,
        alloc,
        scenario,
        gate,
        &crew.places,
        crew.node,
        crew.first,
        &mut crew.threads,
        &mut crew.interface,
        &mut crew.driver,
    );
}

/// All workers make their turns, those of all nodes at the same time. One whose thread can't be started makes them in its caller's.
pub fn run_crews<R: Threads + Sync, G: Gate + Sync>(
    rt: &R,
    alloc: Global,
    scenario: &Scenario,
    gate: &G,
    crews: &mut [NodeCrew],
)
    requires lawful { IsLawful scenario.now }
    requires packet { scenario.now.network ≡ Networks.Packet }
    requires crews { AreCrews scenario.now 0 crews.old }
    requires numbered { AreNumbered 0 crews.old }
    requires linked { AreLinked crews.old }
    ensures crews { AreCrews scenario.now scenario.now.turns crews.new }
    ensures linked { AreLinked crews.new }
{
    let count = crews.len().max(1);
    thread::for_each_mut(
        rt,
        crews,
        count,
        &|_number, crew|
            requires { IsSync R.row × IsSync G.row × IsLawful scenario.now × (scenario.now.network ≡ Networks.Packet) × (crew.now.node.0 < scenario.now.nodes) × (crew.now.first ≤ 4096) × IsCrew scenario.now crew.now.node 0 crew.now }
            ensures { IsCrew scenario.entry.now crew.entry.now.node scenario.entry.now.turns crew.exit.now × SameCrew crew.entry.now crew.exit.now }
        { run_crew(rt, alloc, scenario, gate, crew) },
    );
}

/// Whether this is want of memory.
fn is_want(stop: Option<Stop>) -> bool
    ensures { result ≡ is_want stop }
{
    match stop {
        Some(Stop::NoMemory) => true,
        Some(Stop::LogFull) | None => false,
    }
}

/// Whether one of these threads found no memory.
fn some_is_starved(threads: &[ThreadWorker]) -> bool
    ensures { result ≡ list_any (λ (w : ThreadWorker). is_want w.stop) threads.now }
{
    threads.iter().any(|worker| is_want(worker.stop))
}

/// Whether a worker of the node found no memory.
fn is_starved(crew: &NodeCrew) -> bool
    ensures { result ≡ is_starved crew.now }
{
    is_want(crew.interface.stop) || is_want(crew.driver.stop) || some_is_starved(&crew.threads)
}

/// Whether a worker of any node found no memory.
pub fn found_no_memory(crews: &[NodeCrew]) -> bool
    ensures { result ≡ list_any is_starved crews.now }
{
    crews.iter().any(|crew| is_starved(crew))
}
