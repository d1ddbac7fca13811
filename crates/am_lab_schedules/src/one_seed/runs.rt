//! The run of a scenario by a seed.

ghost use Rattle.am_lab_schedules.specs.SeedRuns.{IsSeedAnswer};
ghost use Rattle.am_lab_schedules.specs.Trials.{ScheduleAnswers, StandsFor, tried};
ghost use Rattle.am_main_lines.specs.Lines.{answer_in};
ghost use Rattle.am_scenario.specs.Grammar.{grammar};
ghost use Rattle.am_scenario_types.specs.Lawful.{IsLawful, IsOfForm};
ghost use Rattle.am_scenario_types.specs.declared.parts.Form.TheVariants as Forms;
ghost use Rattle.am_scenario_types.specs.declared.parts.Network.TheVariants as Networks;
ghost use Rattle.std.specs.Prelude.{◌≡◌, ◌≤◌, IfOk, IfSome, None, OnOk};

use crate::trials::prepare;
use am_cluster_schedule::run_scheduled;
use am_main_lines::{Output, fault_output};
use am_main_run::ended_output;
use am_scenario::{Form, ReadFault, Scenario, read};
use std::alloc::{AllocError, Global};

// What is printed of a scenario's run by this seed.
fn scenario_output(alloc: Global, scenario: &Scenario, seed: u64) -> Result<Output, AllocError>
    requires lawful { IsLawful scenario.now }
    requires packet { scenario.now.network ≡ Networks.Packet }
    ensures { IfOk result (λ output. IsSeedAnswer scenario.now seed (answer_in output)) }
{
    let ended = run_scheduled(alloc, scenario, seed);
    ended_output(alloc, scenario, ended)
}

/// What `schedule` prints of a text and a seed, an answer that `run` may give to that text too: the report of a run of the scenario that the
/// text spells, whose workers took their turns one after the other in the order of the seed (`am_cluster_schedule`); the full log that this
/// run met, and the report of what it made before; or the first fault of the text. `AllocError` comes only for want of memory.
pub fn schedule_output(alloc: Global, bytes: &[u8], seed: u64) -> Result<Output, AllocError>
    ensures { IfOk result (λ output. ScheduleAnswers None seed (grammar Forms.Run bytes.now) (answer_in output)) }
{
    match read(alloc, Form::Run, bytes) {
        Ok(scenario) => scenario_output(alloc, &scenario, seed),
        Err(ReadFault::Refused(fault)) => fault_output(alloc, fault),
        Err(ReadFault::NoMemory) => Err(AllocError),
    }
}

/// What is printed of the run by this seed of the scenario that the seed is tried with, which takes the scenario's place.
pub(crate) fn trial_output(
    alloc: Global,
    scenario: &mut Scenario,
    seed: u64,
    faults: Option<u8>,
) -> Result<Output, AllocError>
    requires percent { IfSome faults (λ percent. percent ≤ 100) }
    requires lawful { IsLawful scenario.old }
    requires of_form { IsOfForm Forms.Run scenario.old }
    ensures exact { OnOk result (scenario.new ≡ tried faults seed scenario.old) }
    ensures stands { OnOk result (StandsFor faults scenario.old scenario.new) }
    ensures run { IfOk result (λ output. IsSeedAnswer (tried faults seed scenario.old) seed (answer_in output)) }
{
    prepare(alloc, scenario, seed, faults)?;
    scenario_output(alloc, scenario, seed)
}

// The same of a scenario that is of no use behind it.
fn tried_output(
    alloc: Global,
    scenario: Scenario,
    seed: u64,
    faults: Option<u8>,
) -> Result<Output, AllocError>
    requires percent { IfSome faults (λ percent. percent ≤ 100) }
    requires lawful { IsLawful scenario }
    requires of_form { IsOfForm Forms.Run scenario }
    ensures { IfOk result (λ output. IsSeedAnswer (tried faults seed scenario) seed (answer_in output)) }
{
    let mut drawn = scenario;
    trial_output(alloc, &mut drawn, seed, faults)
}

/// What `schedule` prints of a text and a seed, which draws a plan too where `faults` says of how many packets in a hundred, 0 to 100: what
/// [`schedule_output`] prints of the scenario with that plan. `AllocError` comes only for want of memory.
pub fn seed_output(
    alloc: Global,
    bytes: &[u8],
    seed: u64,
    faults: Option<u8>,
) -> Result<Output, AllocError>
    requires { IfSome faults (λ percent. percent ≤ 100) }
    ensures { IfOk result (λ output. ScheduleAnswers faults seed (grammar Forms.Run bytes.now) (answer_in output)) }
{
    match read(alloc, Form::Run, bytes) {
        Ok(scenario) => tried_output(alloc, scenario, seed, faults),
        Err(ReadFault::Refused(fault)) => fault_output(alloc, fault),
        Err(ReadFault::NoMemory) => Err(AllocError),
    }
}
