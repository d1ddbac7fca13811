//! The least seed by which a scenario's report has a line that begins with some words, or has none.

ghost use Rattle.am_lab_schedules.specs.Finds.{FindAnswers, FindsNone, FindsSeed, IsPassed, IsRunThat, NoneIsWanted, found_seed, is_wanted, no_such_line, no_such_seed, range_text, scenario_before};
ghost use Rattle.am_lab_schedules.specs.Trials.{StandsFor, tried};
ghost use Rattle.am_main_lines.specs.Lines.{answer_in};
ghost use Rattle.am_scenario.specs.Grammar.{grammar};
ghost use Rattle.am_scenario_types.specs.Lawful.{IsLawful, IsOfForm};
ghost use Rattle.am_scenario_types.specs.declared.parts.Form.TheVariants as Forms;
ghost use Rattle.am_office_text.specs.Words.{line};
ghost use Rattle.std.specs.Fmt.{decimal};
ghost use Rattle.std.specs.Prelude.{◌≡◌, ◌<◌, ◌≤◌, ◌⊎◌, ◌∷◌, ◌++◌, [], IfNone, IfOk, IfSome, OnOk, codes, true};

use crate::beginnings::has_line_with;
use crate::one_seed::trial_output;
use am_lab_scenarios::spelling::scenario_text;
use am_main_lines::{Output, fault_output};
use am_names::NoMemory;
use am_office_text::LinePiece::{Number, Text};
use am_office_text::{put_end, put_line, put_word};
use am_scenario::{Form, ReadFault, Scenario, read};
use std::alloc::{AllocError, Global};

/// Which reports are looked for.
#[derive(Clone, Copy, PartialEq, Eq)]
pub enum Wanted {
    /// Those with a line that begins with the words.
    WithLine,
    /// Those without.
    WithoutLine,
}

// Whether a report is looked for.
fn is_wanted(wanted: Wanted, given: &[u8], text: &[u8]) -> bool
    ensures { result ≡ is_wanted wanted given.now text.now }
{
    match wanted {
        Wanted::WithLine => has_line_with(given, text),
        Wanted::WithoutLine => !has_line_with(given, text),
    }
}

// A seed, and what is answered of its run.
#[derive(Drop)]
struct Found {
    seed: u64,
    of_run: Output,
}

// What is answered of this seed's run, where it is looked for. The scenario that the seed is tried with takes the scenario's place.
fn wanted_run(
    alloc: Global,
    scenario: &mut Scenario,
    faults: Option<u8>,
    seed: u64,
    wanted: Wanted,
    given: &[u8],
) -> Result<Option<Output>, AllocError>
    requires percent { IfSome faults (λ percent. percent ≤ 100) }
    requires lawful { IsLawful scenario.old }
    requires of_form { IsOfForm Forms.Run scenario.old }
    ensures exact { OnOk result (scenario.new ≡ tried faults seed scenario.old) }
    ensures stands { OnOk result (StandsFor faults scenario.old scenario.new) }
    ensures found { IfOk result (λ found. IfSome found (λ output. IsRunThat (tried faults seed scenario.old) seed wanted given.now true (answer_in output))) }
    ensures passed { IfOk result (λ found. IfNone found (IsPassed faults scenario.old wanted given.now seed)) }
{
    let of_run = trial_output(alloc, scenario, seed, faults)?;
    if is_wanted(wanted, given, &of_run.text) {
        Ok(Some(of_run))
    } else {
        Ok(None)
    }
}

// The least seed of the range whose report is looked for. The scenario that it is tried with takes the scenario's place.
fn find_seed(
    alloc: Global,
    scenario: &mut Scenario,
    faults: Option<u8>,
    wanted: Wanted,
    given: &[u8],
    from: u64,
    to: u64,
) -> Result<Option<Found>, AllocError>
    requires percent { IfSome faults (λ percent. percent ≤ 100) }
    requires lawful { IsLawful scenario.old }
    requires of_form { IsOfForm Forms.Run scenario.old }
    requires order { from ≤ to }
    ensures low { IfOk result (λ found. IfSome found (λ f. from ≤ f.seed)) }
    ensures high { IfOk result (λ found. IfSome found (λ f. f.seed < to)) }
    ensures before { IfOk result (λ found. IfSome found (λ f. NoneIsWanted faults scenario.old wanted given.now from f.seed)) }
    ensures found { IfOk result (λ found. IfSome found (λ f. IsRunThat (tried faults f.seed scenario.old) f.seed wanted given.now true (answer_in f.of_run))) }
    ensures scenario { IfOk result (λ found. IfSome found (λ f. scenario.new ≡ tried faults f.seed scenario.old)) }
    ensures stands { OnOk result (StandsFor faults scenario.old scenario.new) }
    ensures none { IfOk result (λ found. IfNone found (NoneIsWanted faults scenario.old wanted given.now from to)) }
{
    for seed in from..to {
        if let Some(of_run) = wanted_run(alloc, scenario, faults, seed, wanted, given)? {
            return Ok(Some(Found { seed, of_run }));
        }
    }
    Ok(None)
}

// The text of a scenario whose plan was drawn, which stands in front of its report.
fn scenario_before(
    alloc: Global,
    faults: Option<u8>,
    scenario: &Scenario,
) -> Result<Vec<u8>, NoMemory>
    ensures { IfOk result (λ text. text.items ≡ scenario_before faults scenario.now) }
{
    match faults {
        Some(_) => scenario_text(alloc, scenario),
        None => Ok(Vec::new(alloc)),
    }
}

// Appends a seed, and behind it a scenario and what is answered.
fn put_found(text: &mut Vec<u8>, seed: u64, scenario: &[u8], told: &[u8]) -> Result<(), AllocError>
    ensures { OnOk result (text.new.items ≡ text.old.items ++ line (codes "seed") (decimal seed ∷ []) ++ scenario.now ++ told.now) }
{
    put_line(text, "seed", &[Number(seed)])?;
    text.extend_from_slice(scenario)?;
    text.extend_from_slice(told)
}

// What is printed of the seed that was found, behind which this text stands.
fn found_output(alloc: Global, found: Found, scenario: &[u8]) -> Result<Output, AllocError>
    ensures { IfOk result (λ output. answer_in output ≡ found_seed found.seed scenario.now (answer_in found.of_run)) }
{
    let mut text = Vec::new(alloc);
    put_found(&mut text, found.seed, scenario, &found.of_run.text)?;
    Ok(Output {
        status: found.of_run.status,
        text,
    })
}

// The same with the scenario that the seed was tried with.
fn found_with_scenario(
    alloc: Global,
    faults: Option<u8>,
    scenario: &Scenario,
    found: Found,
) -> Result<Output, NoMemory>
    ensures { IfOk result (λ output. answer_in output ≡ found_seed found.seed (scenario_before faults scenario.now) (answer_in found.of_run)) }
{
    let before = scenario_before(alloc, faults, scenario)?;
    Ok(found_output(alloc, found, &before)?)
}

// Appends a range of seeds.
#[tactic(auto, using(std::proofs::Common::append_assoc), unfolding(crate::specs::Finds::range_text))]
fn put_range(text: &mut Vec<u8>, from: u64, to: u64) -> Result<(), AllocError>
    ensures { OnOk result (text.new.items ≡ text.old.items ++ range_text from to) }
{
    put_word(text, Number(from))?;
    put_word(text, Text(".."))?;
    put_word(text, Number(to))
}

// That there is no such seed.
#[tactic(auto, using(std::proofs::Common::append_assoc), unfolding(crate::specs::Finds::no_such_line))]
fn no_such_line(alloc: Global, from: u64, to: u64) -> Result<Vec<u8>, AllocError>
    ensures { IfOk result (λ text. text.items ≡ no_such_line from to) }
{
    let mut text = Vec::from_slice(alloc, b"no such seed in ")?;
    put_range(&mut text, from, to)?;
    put_end(&mut text)?;
    Ok(text)
}

// What is printed where there is no such seed.
fn none_output(alloc: Global, from: u64, to: u64) -> Result<Output, AllocError>
    ensures { IfOk result (λ output. answer_in output ≡ no_such_seed from to) }
{
    let text = no_such_line(alloc, from, to)?;
    Ok(Output { status: 12, text })
}

// What is printed of a scenario.
fn search_output(
    alloc: Global,
    scenario: &mut Scenario,
    faults: Option<u8>,
    wanted: Wanted,
    given: &[u8],
    from: u64,
    to: u64,
) -> Result<Output, NoMemory>
    requires percent { IfSome faults (λ percent. percent ≤ 100) }
    requires lawful { IsLawful scenario.old }
    requires of_form { IsOfForm Forms.Run scenario.old }
    requires order { from ≤ to }
    ensures { IfOk result (λ output. FindsSeed faults scenario.old wanted given.now from to (answer_in output) ⊎ FindsNone faults scenario.old wanted given.now from to (answer_in output)) }
{
    match find_seed(alloc, scenario, faults, wanted, given, from, to)? {
        Some(found) => found_with_scenario(alloc, faults, scenario, found),
        None => Ok(none_output(alloc, from, to)?),
    }
}

// The same of a scenario that is of no use behind it.
fn searched_output(
    alloc: Global,
    scenario: Scenario,
    faults: Option<u8>,
    wanted: Wanted,
    given: &[u8],
    from: u64,
    to: u64,
) -> Result<Output, NoMemory>
    requires percent { IfSome faults (λ percent. percent ≤ 100) }
    requires lawful { IsLawful scenario }
    requires of_form { IsOfForm Forms.Run scenario }
    requires order { from ≤ to }
    ensures { IfOk result (λ output. FindsSeed faults scenario wanted given.now from to (answer_in output) ⊎ FindsNone faults scenario wanted given.now from to (answer_in output)) }
{
    let mut drawn = scenario;
    search_output(alloc, &mut drawn, faults, wanted, given, from, to)
}

/// What `find` prints of a text, some words and the seeds from one up to another, which isn't among them: `seed N` and behind it what
/// `schedule N` prints, with its status, where N is the least seed whose report has a line that begins with these words, or, as `wanted`
/// says, has none; `no such seed in A..B` with status 12; or the first fault of the text. Where `faults` says of how many packets in a
/// hundred, 0 to 100, each seed draws the plan too, and the scenario with that plan stands between `seed N` and the report. A report
/// behind the line of a full log is one too, and that line is among its lines; the scenario's lines aren't. Words are whole words, as in
/// `begins_with_words`. There is a run for each seed up to the one that is found. One report is kept at a time, and `NoMemory` comes only
/// for want of memory.
pub fn find_output(
    alloc: Global,
    bytes: &[u8],
    faults: Option<u8>,
    from: u64,
    to: u64,
    given: &[u8],
    wanted: Wanted,
) -> Result<Output, NoMemory>
    requires percent { IfSome faults (λ percent. percent ≤ 100) }
    requires order { from ≤ to }
    ensures { IfOk result (λ output. FindAnswers faults (grammar Forms.Run bytes.now) wanted given.now from to (answer_in output)) }
{
    match read(alloc, Form::Run, bytes) {
        Ok(scenario) => searched_output(alloc, scenario, faults, wanted, given, from, to),
        Err(ReadFault::Refused(fault)) => Ok(fault_output(alloc, fault)?),
        Err(ReadFault::NoMemory) => Err(NoMemory),
    }
}
