//! How a node's phase ends: its driver gathers the other seats, and takes the endpoints out.

ghost use Rattle.am_cluster_running.specs.Ending.{AreEnded, AreTakenOut, HasRoom, IsEndedOf};
ghost use Rattle.am_cluster_running.specs.Ends.Ends.{gathered_all, thread_pass};
ghost use Rattle.am_workers_laws.specs.Ended.{ComesTo};
ghost use Rattle.am_cluster_opening.specs.Crews.{AreCrews, IsCrew};
ghost use Rattle.am_office_entries.specs.declared.Entry.{Entry};
ghost use Rattle.am_places.specs.Rule.{HasGathered, IsOutside, inside_with, known_at, with_known};
ghost use Rattle.am_places.specs.declared.board.Tenure.{Tenure};
ghost use Rattle.am_places.specs.Seats.{SitsAt, hand_of, me_of, pass_of, table_in};
ghost use Rattle.am_workers_laws.specs.Books.Books.{stands_at};
ghost use Rattle.am_workers.specs.declared.workers.ThreadWorker.{ThreadWorker};
ghost use Rattle.am_workers_laws.specs.Invariants.Seats.{IsIdle};
ghost use Rattle.std.specs.Prelude.{◌≡◌, ◌+◌, ◌<◌, ◌≤◌, ℕ, List, [], ◌∷◌, ◌++◌, false, IfOk, All, None, length, map, vec_capacity};

use crate::ended::{AllEnded, Ended, NodeEnded};
use crate::ends::a_crew_is_gathered;
use am_cluster_opening::NodeCrew;
use am_office_entries::NoMemory;
use am_places::{Places, Seat};
use am_scenario_types::Scenario;
use am_workers::{DriverWorker, InterfaceWorker, ThreadWorker};
use am_workers_laws::books::EndBook;
use std::alloc::Global;

/// The driver's seat gathers the seats of the threads.
fn gather_threads(places: &Places<EndBook>, keeper: &mut Seat<EndBook>, threads: Vec<ThreadWorker>)
    requires keeper { SitsAt places.now keeper.old }
    requires ended { All (λ w. IsIdle (table_in places.now) w.seat.token) threads.items }
    ensures keeper { keeper.new.token.table_id ≡ keeper.old.token.table_id }
    ensures gathered { me_of keeper.new ≡ (gathered_all (pass_of keeper.old) (map thread_pass threads.items), hand_of keeper.old) }
{
    for worker in threads {
        let ThreadWorker { seat, .. } = worker;
        places.gather(keeper, seat);
    }
}

/// Takes out the endpoint at this place, which was not taken out before.
fn take_out(places: &Places<EndBook>, keeper: &mut Seat<EndBook>, at: usize) -> EndBook
    requires keeper { SitsAt places.now keeper.old }
    requires at { at < places.now.count }
    requires gathered { HasGathered (pass_of keeper.old) }
    requires outside { (known_at at (pass_of keeper.old)).inside ≡ false }
    ensures keeper { keeper.new.token.table_id ≡ keeper.old.token.table_id }
    ensures book { (log : List (Tenure Entry)) × ComesTo at (me_of keeper.old) log result × (me_of keeper.new ≡ (with_known at (inside_with (stands_at result.end.value) log (known_at at (pass_of keeper.old))) (pass_of keeper.old), (at, None) ∷ hand_of keeper.old)) }
{
    match places.take_out_at(keeper, at) {
        Some(book) => book,
        None => unreachable!(),
    }
}

/// Takes out all endpoints, in order, into a list that has room for them.
fn take_out_all(
    places: &Places<EndBook>,
    keeper: &mut Seat<EndBook>,
    mut books: Vec<EndBook>,
) -> Vec<EndBook>
    requires keeper { SitsAt places.now keeper.old }
    requires gathered { HasGathered (pass_of keeper.old) }
    requires outside { IsOutside (pass_of keeper.old) }
    requires wide { length (pass_of keeper.old).known ≡ places.now.count }
    requires none { books.items ≡ [] }
    requires room { places.now.count ≤ vec_capacity books }
    ensures taken { AreTakenOut places.now.count (pass_of keeper.old) result.items }
{
    for at in 0..places.count {
        let book = take_out(places, keeper, at);
        books.push(book).unwrap();
    }
    books
}

/// Ends a node's phase: all its seats are gathered, and its endpoints are taken out.
fn end_crew(alloc: Global, scenario: &Scenario, crew: NodeCrew) -> Result<Ended, NoMemory>
    requires crew { IsCrew scenario.now crew.node scenario.now.turns crew }
    ensures { IfOk result (IsEndedOf crew) }
{
    a_crew_is_gathered();
    let _scenario = scenario;
    let books = Vec::with_capacity(alloc, crew.places.count)?;
    let NodeCrew {
        node,
        first: _,
        places,
        threads,
        interface,
        driver,
    } = crew;
    let InterfaceWorker {
        seat,
        interface,
        hand,
        ins,
        outs,
        ..
    } = interface;
    let DriverWorker {
        seat: mut keeper,
        swap,
        ..
    } = driver;
    gather_threads(&places, &mut keeper, threads);
    places.gather(&mut keeper, seat);
    let books = take_out_all(&places, &mut keeper, books);
    Ok(Ended {
        node: NodeEnded {
            node,
            books,
            interface,
            swap,
            hand,
        },
        outs,
        ins,
    })
}

/// Room for so many nodes whose phase is over.
fn room_for(alloc: Global, count: usize) -> Result<AllEnded, NoMemory>
    ensures none { IfOk result (λ all. (all.nodes.items ≡ []) × (all.outs.items ≡ []) × (all.ins.items ≡ [])) }
    ensures room { IfOk result (HasRoom count) }
{
    Ok(AllEnded {
        nodes: Vec::with_capacity(alloc, count)?,
        outs: Vec::with_capacity(alloc, count)?,
        ins: Vec::with_capacity(alloc, count)?,
    })
}

/// Adds a node whose phase is over, for which there is room.
fn add(all: &mut AllEnded, ended: Ended)
    requires room { HasRoom 1 all.old }
    ensures nodes { all.new.nodes.items ≡ all.old.nodes.items ++ ended.node ∷ [] }
    ensures outs { all.new.outs.items ≡ all.old.outs.items ++ ended.outs ∷ [] }
    ensures ins { all.new.ins.items ≡ all.old.ins.items ++ ended.ins ∷ [] }
    ensures room { (n : ℕ) → HasRoom (n + 1) all.old → HasRoom n all.new }
{
    let Ended { node, outs, ins } = ended;
    all.nodes.push(node).unwrap();
    all.outs.push(outs).unwrap();
    all.ins.push(ins).unwrap();
}

/// Ends the phase of each node, in order.
pub(crate) fn end_crews(
    alloc: Global,
    scenario: &Scenario,
    crews: Vec<NodeCrew>,
) -> Result<AllEnded, NoMemory>
    requires crews { AreCrews scenario.now scenario.now.turns crews.items }
    ensures { IfOk result (AreEnded crews.items) }
{
    let mut all = room_for(alloc, crews.len())?;
    for crew in crews {
        let ended = end_crew(alloc, scenario, crew)?;
        add(&mut all, ended);
    }
    Ok(all)
}
