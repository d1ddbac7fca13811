//! A journal as a step script, whose lines are the journal's events.

ghost use Rattle.std.specs.Prelude.{◌≡◌, ◌++◌, IfOk, OnOk};
ghost use Rattle.std.specs.List.{flat_map};
ghost use Rattle.am_scenario_types.specs.declared.parts.Form.TheVariants.{Step};
ghost use Rattle.am_scenario_types.specs.Lawful.{IsLawful};
ghost use Rattle.am_scenario.specs.Laws.{Spells};
ghost use Rattle.am_lab_scenarios.specs.Spelling.Texts as text;
ghost use Rattle.am_lab_scenarios.specs.Spelling.Replays as replay;
ghost use Rattle.am_lab_scenarios.specs.Spelling.Replays.{HistoriesAreReplayable, IsReplayable, ReplaysAreRead, StepsAreEvents, replayed, step_script};

use crate::spelling::lines::put_event_line;
use crate::spelling::texts::{put_bundles, put_ends, put_faults, put_settings, put_threads};
use am_names::NoMemory;
use am_office_entries::{Actor, Entry, Event};
use am_scenario_types::Scenario;
use std::alloc::{AllocError, Global};

// The same event, whoever made the call.
#[tactic(auto, unfolding(crate::specs::Spelling::Replays::by_anyone))]
fn by_anyone(event: Event) -> Event
    ensures { result ≡ replay.by_anyone event }
{
    let actor = Actor::Outside;
    match event {
        Event::Call { end, call, .. } => Event::Call { actor, end, call },
        Event::Want { end, .. } => Event::Want { actor, end },
        Event::Carry { end } => Event::Carry { end },
        Event::Bind { node, end } => Event::Bind { node, end },
        Event::Expire {
            node,
            peer,
            channel,
        } => Event::Expire {
            node,
            peer,
            channel,
        },
        Event::Receive { node, peer, number } => Event::Receive { node, peer, number },
        Event::Drain { node, end } => Event::Drain { node, end },
        Event::Unload { node, end } => Event::Unload { node, end },
        Event::Load { node, end, frame } => Event::Load { node, end, frame },
        Event::PageOut { node, end } => Event::PageOut { node, end },
        Event::PageIn { node, end } => Event::PageIn { node, end },
    }
}

// What is declared but the plan, which a step script has none of.
#[tactic(auto, using(std::proofs::Common::append_assoc))]
fn put_unplanned(out: &mut Vec<u8>, scenario: &Scenario) -> Result<(), AllocError>
    ensures { OnOk result (out.new.items ≡ out.old.items ++ (flat_map text.end_line scenario.now.ends ++ flat_map text.bundle_line scenario.now.bundles ++ flat_map text.thread_line scenario.now.threads ++ flat_map text.swap_fault_line scenario.now.faults)) }
{
    put_ends(out, &scenario.ends)?;
    put_bundles(out, &scenario.bundles)?;
    put_threads(out, &scenario.threads)?;
    put_faults(out, &scenario.faults)
}

fn put_journal(out: &mut Vec<u8>, journal: &[Entry]) -> Result<(), NoMemory>
    ensures { OnOk result (out.new.items ≡ out.old.items ++ flat_map replay.replay_line journal.now) }
{
    for entry in journal {
        put_event_line(out, by_anyone(entry.event))?;
    }
    Ok(())
}

/// The text of a step script whose steps are the events of a journal in their order, each call and each want by anyone outside
/// (`step_script` of `specs/Replays.antt`). Its settings and what it declares are the scenario's, but it has no plan and no calls of
/// threads. Where the scenario is lawful and each event may stand in a step script of it, at most 65,536 of them (`IsReplayable`), the
/// text spells the script, its steps with the lines that they have there. Where there is no memory the answer is `NoMemory`, and
/// nothing is left of the text.
pub fn replay_text(
    alloc: Global,
    scenario: &Scenario,
    journal: &[Entry],
) -> Result<Vec<u8>, NoMemory>
    ensures exact { IfOk result (λ bytes. bytes.items ≡ text.scenario_text (step_script scenario.now journal.now)) }
    ensures spells { IfOk result (λ bytes. IsLawful scenario.now → IsReplayable scenario.now journal.now → Spells Step bytes.items (replayed scenario.now journal.now)) }
{
    let mut out = Vec::new(alloc);
    put_settings(&mut out, scenario)?;
    put_unplanned(&mut out, scenario)?;
    put_journal(&mut out, journal)?;
    Ok(out)
}

/// The text of a replayed journal spells its step script, and the steps of that are the journal's events, callers aside.
/// Each event of a history of the scenario's cluster may stand there, so a history of at most 65,536 entries is replayable.
pub fn replays_are_read()
    ensures read { ReplaysAreRead }
    ensures steps { StepsAreEvents }
    ensures histories { HistoriesAreReplayable }
{}
