//! What all lines together have said.

ghost use Rattle.std.specs.Prelude.{◌≡◌, IfOk};
ghost use Rattle.am_scenario.specs.Drafts.Drafts.{said};
ghost use Rattle.am_scenario.specs.Grammar.{ends_below, threads_below, tries_of, bounces_of, pool_of, whole};
ghost use Rattle.am_scenario.specs.Answers.{Finishes};

use crate::drafts::{Draft, LineFault, Settings, Version};
use am_lexer::What;
use am_scenario_types::{EndLine, Scenario, ThreadLine};
use std::alloc::{AllocError, Global};

#[tactic(auto, using(crate::proofs::Declared::ends_more, crate::proofs::Declared::ends_none))]
fn ends_below(alloc: Global, draft: &Draft, limit: u16) -> Result<Vec<EndLine>, AllocError>
    ensures { IfOk result (λ v. v.items ≡ ends_below (said draft.now) limit) }
{
    let mut ends = Vec::new(alloc);
    for id in 0..limit {
        if let Some(end) = draft.end_of(u64::from(id)) {
            ends.push(end)?;
        }
    }
    Ok(ends)
}

#[tactic(auto, using(crate::proofs::Declared::threads_more, crate::proofs::Declared::threads_none))]
fn threads_below(alloc: Global, draft: &Draft, limit: u16) -> Result<Vec<ThreadLine>, AllocError>
    ensures { IfOk result (λ v. v.items ≡ threads_below (said draft.now) limit) }
{
    let mut threads = Vec::new(alloc);
    for id in 0..limit {
        if let Some(thread) = draft.thread_of(u64::from(id)) {
            threads.push(thread)?;
        }
    }
    Ok(threads)
}

fn tries_of(settings: &Settings) -> u8
    ensures { result ≡ tries_of settings.now }
{
    settings.tries.unwrap_or(4)
}

fn bounces_of(settings: &Settings) -> u8
    ensures { result ≡ bounces_of settings.now }
{
    match settings.bounces {
        Some(bounces) => bounces,
        None => tries_of(settings).saturating_sub(1),
    }
}

fn pool_of(version: Option<Version>, settings: &Settings) -> Option<u8>
    ensures { result ≡ pool_of version settings.now }
{
    match version {
        Some(Version::Two) => Some(settings.pool.unwrap_or(0)),
        _ => None,
    }
}

/// The scenario, where the version, the network and the nodes stood.
#[tactic(auto, unfolding(crate::specs::Grammar::whole))]
pub fn finish(alloc: Global, draft: Draft) -> Result<Scenario, LineFault>
    ensures { Finishes result (whole (said draft)) }
{
    if draft.section == 0 {
        return Err(LineFault::What(What::Missing));
    }
    let (Some(network), Some(nodes)) = (draft.settings.network, draft.settings.nodes) else {
        return Err(LineFault::What(What::Missing));
    };
    let ends = ends_below(alloc, &draft, 256)?;
    let threads = threads_below(alloc, &draft, 64)?;
    Ok(Scenario {
        network,
        nodes,
        frames: draft.settings.frame_count(),
        channels: draft.settings.channel_count(),
        tries: tries_of(&draft.settings),
        bounces: bounces_of(&draft.settings),
        pool: pool_of(draft.version, &draft.settings),
        keep: draft.settings.keep.unwrap_or(64),
        log: draft.settings.log.unwrap_or(65_536),
        turns: draft.settings.turns.unwrap_or(0),
        ends,
        bundles: draft.bundles,
        threads,
        plan: draft.plan.into_lines(),
        faults: draft.faults,
        script: draft.script,
        steps: draft.steps,
    })
}
