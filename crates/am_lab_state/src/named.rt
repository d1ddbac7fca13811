//! The messages that the lines of the endpoints name.

ghost use Rattle.am_endpoint.specs.View.{state_after};
ghost use Rattle.am_lab_state.specs.Messages.{all_named, arrivals_named, body_named, flights_named, named_at, named_by, notices_named, queue_named, records_named};
ghost use Rattle.am_model_scripts.specs.Layout.{layout_of};
ghost use Rattle.std.specs.List.{flat_map};
ghost use Rattle.std.specs.Prelude.{◌≡◌, ◌++◌, IfOk, OnOk};

use crate::flights::flights;
use am_block::List;
use am_endpoint::{Body, Endpoint};
use am_machine::Cluster;
use am_model::{Awaited, Flying, Notice, Queued};
use am_names::{Message, NoMemory, Serial};
use am_scenario::{EndLine, Scenario};
use std::alloc::{AllocError, Global};

fn name_records(named: &mut Vec<Serial>, records: &[Awaited]) -> Result<(), AllocError>
    ensures { OnOk result (named.new.items ≡ named.old.items ++ records_named records.now) }
{
    for record in records {
        named.push(record.serial)?;
    }
    Ok(())
}

fn name_queue(named: &mut Vec<Serial>, queue: &[Queued]) -> Result<(), AllocError>
    ensures { OnOk result (named.new.items ≡ named.old.items ++ queue_named queue.now) }
{
    for queued in queue {
        named.push(queued.message.serial)?;
    }
    Ok(())
}

fn name_flights(named: &mut Vec<Serial>, flights: &[Flying]) -> Result<(), AllocError>
    ensures { OnOk result (named.new.items ≡ named.old.items ++ flights_named flights.now) }
{
    for flying in flights {
        named.push(flying.message.serial)?;
    }
    Ok(())
}

fn name_notices(named: &mut Vec<Serial>, notices: &[Notice]) -> Result<(), AllocError>
    ensures { OnOk result (named.new.items ≡ named.old.items ++ notices_named notices.now) }
{
    for notice in notices {
        named.push(notice.message.serial)?;
    }
    Ok(())
}

fn name_arrivals(named: &mut Vec<Serial>, received: &[Message]) -> Result<(), AllocError>
    ensures { OnOk result (named.new.items ≡ named.old.items ++ arrivals_named received.now) }
{
    for message in received {
        named.push(message.serial)?;
    }
    Ok(())
}

// The messages of the records, and those that are to be sent.
#[tactic(auto, using(std::proofs::Common::append_assoc))]
fn name_waiting(named: &mut Vec<Serial>, alloc: Global, body: &Body) -> Result<(), NoMemory>
    ensures { OnOk result (named.new.items ≡ named.old.items ++ records_named body.now.body.awaited ++ queue_named body.now.body.replies ++ queue_named body.now.body.requests) }
{
    name_records(named, body.translate.records())?;
    name_queue(named, &body.replies(alloc)?)?;
    name_queue(named, &body.requests(alloc)?)?;
    Ok(())
}

// The messages in flight, those that came back, and those that were received.
#[tactic(auto, using(std::proofs::Common::append_assoc))]
fn name_moving(named: &mut Vec<Serial>, alloc: Global, body: &Body) -> Result<(), NoMemory>
    ensures { OnOk result (named.new.items ≡ named.old.items ++ flights_named body.now.body.in_flight ++ notices_named body.now.body.notices ++ arrivals_named body.now.body.received) }
{
    name_flights(named, &flights(alloc, &body.block, List::InFlight)?)?;
    name_notices(named, &body.notices(alloc)?)?;
    name_arrivals(named, &body.received(alloc)?)?;
    Ok(())
}

// The messages of an endpoint in memory.
#[tactic(auto, using(std::proofs::Common::append_assoc))]
fn name_body(named: &mut Vec<Serial>, alloc: Global, body: &Body) -> Result<(), NoMemory>
    ensures { OnOk result (named.new.items ≡ named.old.items ++ body_named body.now.body) }
{
    name_waiting(named, alloc, body)?;
    name_moving(named, alloc, body)
}

// The messages of an endpoint, if it lies in memory.
fn name_end(named: &mut Vec<Serial>, alloc: Global, end: &Endpoint) -> Result<(), NoMemory>
    ensures { OnOk result (named.new.items ≡ named.old.items ++ named_by (state_after end.now)) }
{
    match end.body() {
        Some(body) => name_body(named, alloc, body),
        None => Ok(()),
    }
}

// The messages of a declared endpoint.
fn name_declared(
    named: &mut Vec<Serial>,
    alloc: Global,
    cluster: &Cluster,
    scenario: &Scenario,
    line: &EndLine,
) -> Result<(), NoMemory>
    requires { cluster.now.layout ≡ layout_of scenario.now }
    ensures { OnOk result (named.new.items ≡ named.old.items ++ named_at scenario.now cluster.now.journal line.now) }
{
    match cluster.end(line.id) {
        Some(end) => name_end(named, alloc, end),
        None => Err(NoMemory),
    }
}

// The messages of these endpoints.
fn name_ends(
    named: &mut Vec<Serial>,
    alloc: Global,
    cluster: &Cluster,
    scenario: &Scenario,
    ends: &[EndLine],
) -> Result<(), NoMemory>
    requires { cluster.now.layout ≡ layout_of scenario.now }
    ensures { OnOk result (named.new.items ≡ named.old.items ++ flat_map (named_at scenario.now cluster.now.journal) ends.now) }
{
    for line in ends {
        name_declared(named, alloc, cluster, scenario, line)?;
    }
    Ok(())
}

/// The messages that the lines of the endpoints name, each as often as a line does. `NoMemory` comes where there is none for them, or for
/// copies of the endpoints' lists.
pub(crate) fn all_named(
    alloc: Global,
    cluster: &Cluster,
    scenario: &Scenario,
) -> Result<Vec<Serial>, NoMemory>
    requires { cluster.now.layout ≡ layout_of scenario.now }
    ensures { IfOk result (λ named. named.items ≡ all_named scenario.now cluster.now.journal) }
{
    let mut named = Vec::new(alloc);
    name_ends(&mut named, alloc, cluster, scenario, &scenario.ends)?;
    Ok(named)
}
