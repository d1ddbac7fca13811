//! A checker of printed journals: whether a report is that of a journal which is a history of its scenario and follows it,
//! whoever printed it.
#![tactic(auto)]

ghost use Rattle.am_check.specs.Exact.{IsExact, IsOnly};
ghost use Rattle.am_check.specs.Follows.{IsBegun, ids_of};
ghost use Rattle.am_check.specs.Verdict.{AnswersParts, AnswersReport, AnswersScenario, Checks, HasJournal, number_of};
ghost use Rattle.am_office_report.specs.Report as texts;
ghost use Rattle.am_scenario_types.specs.Lawful.{IsLawful, IsOfForm};
ghost use Rattle.am_scenario_types.specs.declared.parts.Form.TheVariants as Forms;
ghost use Rattle.am_scenario_types.specs.declared.parts.Network.TheVariants.{Packet};
ghost use Rattle.std.specs.Prelude.{◌≡◌, [], IfOk, length};

mod cut;
mod events;
mod exact;
mod faults;
mod follower;
mod head;
pub mod laws;
mod lines;
mod runs;
mod same;
mod step_cluster;
mod tail;

pub use crate::cut::place_of;
pub use crate::exact::answers_are_exact;
pub use crate::faults::{CheckStop, CheckWhat};
use crate::follower::Follower;
pub use crate::head::split_head;
use crate::lines::{check_lines, line_number};
use crate::step_cluster::StepCluster;
pub use crate::step_cluster::step_event;
use crate::tail::{difference, number_of};
// A line of a printed journal, read back as the event that it tells.
pub use am_check_lines::{PrintedEntry, parse_line};
use am_cluster_scripted::ScriptedCluster;
use am_names::{EndpointId, NoMemory};
use am_office_report::report;
use am_scenario::{Form, ReadFault, Scenario, read};
use std::alloc::{AllocError, Global};

/// The endpoints of a scenario, in their order.
fn ids_of(alloc: Global, scenario: &Scenario) -> Result<Vec<EndpointId>, AllocError>
    ensures { IfOk result (λ ids. ids.items ≡ ids_of scenario.now) }
{
    let mut ids = Vec::new(alloc);
    for end in &scenario.ends {
        ids.push(end.id)?;
    }
    Ok(ids)
}

/// The report of a journal of a scenario.
fn text_of<F: Follower>(
    alloc: Global,
    follower: &F,
    scenario: &Scenario,
) -> Result<Vec<u8>, NoMemory>
    ensures { IfOk result (λ text. text.items ≡ texts.report (ids_of scenario.now) (F.journal follower.now)) }
{
    let ids = ids_of(alloc, scenario)?;
    let journal = follower.entries(alloc)?;
    report(alloc, &ids, &journal)
}

/// Whether the journal whose lines passed ends where it may, and the text behind it is the rest of its report.
fn check_end<F: Follower>(
    alloc: Global,
    follower: &F,
    scenario: &Scenario,
    count: u64,
    bytes: &[u8],
) -> Result<(), CheckStop>
    requires scenario { F.scenario follower.now ≡ scenario.now }
    requires count { length (F.journal follower.now) ≡ count }
    requires has { HasJournal F.form scenario.now bytes.now (F.journal follower.now) }
    requires begun { IsBegun F.form scenario.now (F.journal follower.now) }
    ensures { AnswersReport F.form scenario.now bytes.now result }
{
    if !follower.is_ended() {
        return Err(CheckStop::Fault {
            line: line_number(count),
            what: CheckWhat::Follows,
        });
    }
    let Ok(text) = text_of(alloc, follower, scenario) else {
        return Err(CheckStop::NoMemory);
    };
    if bytes == text.as_slice() {
        return Ok(());
    }
    Err(CheckStop::Fault {
        line: number_of(difference(bytes, &text)),
        what: CheckWhat::Tail,
    })
}

/// The answer for a report, by what makes the entries of its scenario, from none.
fn check_journal<F: Follower>(
    alloc: Global,
    follower: &mut F,
    scenario: &Scenario,
    bytes: &[u8],
) -> Result<(), CheckStop>
    requires scenario { F.scenario follower.old ≡ scenario.now }
    requires fresh { F.journal follower.old ≡ [] }
    ensures { AnswersReport F.form scenario.now bytes.now result }
{
    let Some((count, lines)) = split_head(bytes) else {
        return Err(CheckStop::Fault {
            line: 2,
            what: CheckWhat::Form,
        });
    };
    match check_lines(alloc, follower, count, lines) {
        Ok(()) => check_end(alloc, follower, scenario, count, bytes),
        Err(stop) => Err(stop),
    }
}

/// The answer for the report of a step script.
fn check_step_report(alloc: Global, scenario: &Scenario, bytes: &[u8]) -> Result<(), CheckStop>
    requires { IsLawful scenario.now }
    ensures { AnswersReport Forms.Step scenario.now bytes.now result }
{
    match StepCluster::new(alloc, scenario) {
        Ok(mut cluster) => check_journal(alloc, &mut cluster, scenario, bytes),
        Err(_) => Err(CheckStop::NoMemory),
    }
}

/// The answer for the report of a run.
fn check_run_report(alloc: Global, scenario: &Scenario, bytes: &[u8]) -> Result<(), CheckStop>
    requires lawful { IsLawful scenario.now }
    requires packet { scenario.now.network ≡ Packet }
    ensures { AnswersReport Forms.Run scenario.now bytes.now result }
{
    match ScriptedCluster::new(alloc, scenario) {
        Ok(mut cluster) => check_journal(alloc, &mut cluster, scenario, bytes),
        Err(_) => Err(CheckStop::NoMemory),
    }
}

/// The answer for the report of a scenario.
fn check_report(
    alloc: Global,
    form: Form,
    scenario: &Scenario,
    bytes: &[u8],
) -> Result<(), CheckStop>
    requires lawful { IsLawful scenario.now }
    requires of_form { IsOfForm form scenario.now }
    ensures { AnswersReport form scenario.now bytes.now result }
{
    match form {
        Form::Step => check_step_report(alloc, scenario, bytes),
        Form::Run => check_run_report(alloc, scenario, bytes),
    }
}

/// The answer for the text in front of a report, and the report.
fn check_parts(alloc: Global, form: Form, front: &[u8], bytes: &[u8]) -> Result<(), CheckStop>
    ensures { AnswersParts form front.now bytes.now result }
{
    match read(alloc, form, front) {
        Ok(scenario) => check_report(alloc, form, &scenario, bytes),
        Err(ReadFault::Refused(fault)) => Err(CheckStop::Scenario(fault)),
        Err(ReadFault::NoMemory) => Err(CheckStop::NoMemory),
    }
}

/// The answer for a text that has no report.
fn check_scenario(alloc: Global, form: Form, text: &[u8]) -> Result<(), CheckStop>
    ensures { AnswersScenario form text.now result }
{
    match read(alloc, form, text) {
        Ok(_) => Err(CheckStop::Fault {
            line: 1,
            what: CheckWhat::Form,
        }),
        Err(ReadFault::Refused(fault)) => Err(CheckStop::Scenario(fault)),
        Err(ReadFault::NoMemory) => Err(CheckStop::NoMemory),
    }
}

/// The answer for a text.
fn checked(alloc: Global, form: Form, text: &[u8]) -> Result<(), CheckStop>
    ensures { Checks form text.now result }
{
    match place_of(text) {
        Some(place) => check_parts(alloc, form, &text[..place], &text[place..]),
        None => check_scenario(alloc, form, text),
    }
}

/// Whether a text is a scenario of a form and the report of a journal that is a history of the scenario and follows it: the lines
/// of a step script, or the scripts of a run. The report begins at the first line that is `am2 report 1`; without such a line the
/// text is read as a scenario.
///
/// It is stopped with the first fault of the scenario; with the first line of the report that has a fault, the lines of the
/// journal before those behind it; with the log that is full where the next entry is due; and for want of memory. Apart from want
/// of memory the answer is yes exactly where the text is so, and no other answer is right.
pub fn check(alloc: Global, form: Form, text: &[u8]) -> Result<(), CheckStop>
    ensures answer { Checks form text.now result }
    ensures exact { IsExact form text.now result }
    ensures only { IsOnly form text.now result }
{
    answers_are_exact();
    checked(alloc, form, text)
}

/// Whether a text is a step script and the report of the journal that follows its lines, as `check` tells.
pub fn check_steps(alloc: Global, text: &[u8]) -> Result<(), CheckStop>
    ensures { Checks Forms.Step text.now result }
{
    check(alloc, Form::Step, text)
}

/// Whether a text is a scenario of a run and the report of a journal that follows its scripts, whoever made its entries and in
/// whichever order, as `check` tells. Each call is the next one of its thread's script, each receipt takes the next packet that its
/// link released, the last tries come only where all that was released was received, and at the end all calls were made, all that
/// was released was received, and all is at rest.
pub fn check_runs(alloc: Global, text: &[u8]) -> Result<(), CheckStop>
    ensures { Checks Forms.Run text.now result }
{
    check(alloc, Form::Run, text)
}
