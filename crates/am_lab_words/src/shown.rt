//! What clap shows of the commands. Their words are read elsewhere, so each takes any words here.

use clap::{Arg, Command};
use std::alloc::{AllocError, Global};

/// What the help of a command shows.
#[derive(Clone, Copy)]
pub(crate) struct Shown {
    name: &'static str,
    about: &'static str,
    usage: &'static str,
    /// What its words mean and what it reads.
    more: &'static str,
    /// A line that asks for something.
    example: &'static str,
}

const EXPLAIN: Shown = Shown {
    name: "explain",
    about: "Tells what is wrong with a scenario or with its report, and what was due there",
    usage: "am2_lab explain step [--front]\n       am2_lab explain run",
    more: "step is a list of steps, run the scripts of threads; --front tells also the lines of the journal before a step that can't be made. \
Standard input is a scenario of this form and, behind it, its report; or a scenario alone, of which am2 refuses a line:\n\n  \
cat examples/first.am2 examples/first.out | bin/am2_lab explain step\n  \
bin/am2_lab explain step --front < examples/first.am2",
    example: "bin/am2_lab explain step --front < examples/first.am2",
};

const WHY_EXAMPLE: &str = "cat examples/first.am2 examples/first.out | bin/am2_lab why step 0.1";

const WHY: Shown = Shown {
    name: "why",
    about: "Tells what became of a message, and why",
    usage: "am2_lab why <step|run> [--front] <E.K>",
    more: "E.K is the K-th message that endpoint E accepted, as the report prints it. With --front a report may have a fault or end in a \
full log: what stands before that is told. \
Standard input is a scenario of this form and, behind it, its report:\n\n  \
cat examples/first.am2 examples/first.out | bin/am2_lab why step 0.1",
    example: WHY_EXAMPLE,
};

const CHART: Shown = Shown {
    name: "chart",
    about: "Draws a report as a space-time picture, in SVG: its whole journal, the lines from FROM to TO, or those of a message",
    usage: "am2_lab chart <step|run> [FROM TO]\n       am2_lab chart <step|run> <E.K>\n       am2_lab chart <step|run> --front",
    more: "FROM and TO are lines of the report, whose journal begins in line 3; E.K is the K-th message that endpoint E accepted. \
With --front a report may have a fault or end in a full log: what stands before that is drawn, with the fault as a last row. \
Standard input is a scenario of this form and, behind it, its report:\n\n  \
cat examples/first.am2 examples/first.out | bin/am2_lab chart step > first.svg\n  \
cat examples/run-withheld.am2 examples/run-withheld.out | bin/am2_lab chart run 8 16 > tries.svg",
    example: "cat examples/run-withheld.am2 examples/run-withheld.out | bin/am2_lab chart run 8 16 > tries.svg",
};

const SCENARIO: Shown = Shown {
    name: "scenario",
    about: "Prints a scenario in one form, without comments",
    usage: "am2_lab scenario <step|run|segments>\n       am2_lab scenario make <N>\n       am2_lab scenario count <W> <U> <ROUND>",
    more: "step, run: the scenario that is read; segments: the one that am2 segments runs of the text; make: the one that am2 make N runs; \
count: that of a round of am2 count W U, with 1 to 8 nodes, 0 to 10000 turns and rounds from 1. \
Standard input is the scenario or the text alone, with no report behind it; make reads nothing:\n\n  \
bin/am2_lab scenario run < examples/run-withheld.am2\n  \
bin/am2_lab scenario make 7\n  \
bin/am2_lab scenario count 4 0 1 < README.md",
    example: "bin/am2_lab scenario make 7",
};

const REPLAY: Shown = Shown {
    name: "replay",
    about: "Prints the journal of a run's report as a step script",
    usage: "am2_lab replay run",
    more: "Standard input is the scenario of a run and, behind it, its report:\n\n  \
cat examples/run-withheld.am2 examples/run-withheld.out | bin/am2_lab replay run",
    example: "cat examples/run-withheld.am2 examples/run-withheld.out | bin/am2_lab replay run",
};

const SCHEDULE: Shown = Shown {
    name: "schedule",
    about: "Prints the report of a run whose turns come in an order that a seed draws; of many seeds a line each",
    usage: "am2_lab schedule <SEED|SEED..SEED2> [--faults <PERCENT>]",
    more: "SEED is a number from 0 to 18446744073709551615; SEED..SEED2 are the seeds from SEED up to SEED2, which isn't among them, at most \
100000. With --faults each seed draws the plan too, as faults does. \
Standard input is the scenario of a run, with no report behind it:\n\n  \
bin/am2_lab schedule 7 < examples/turns-clients.am2\n  \
bin/am2_lab schedule 0..100 --faults 20 < examples/turns-clients.am2",
    example: "bin/am2_lab schedule 0..100 < examples/turns-clients.am2",
};

const JSON: Shown = Shown {
    name: "json",
    about: "Prints the journal of a report as lines of JSON, an object for each entry, or as ShiViz reads it",
    usage: "am2_lab json <step|run> [--shiviz]",
    more: "With --shiviz two lines for each entry: its node with a clock, and the entry's text. \
Standard input is a scenario of this form and, behind it, its report:\n\n  \
cat examples/first.am2 examples/first.out | bin/am2_lab json step > first.jsonl",
    example: "cat examples/first.am2 examples/first.out | bin/am2_lab json step > first.jsonl",
};

const PAGE: Shown = Shown {
    name: "page",
    about: "Prints a report as one page for a browser: its journal and its picture, to look around in",
    usage: "am2_lab page <step|run>",
    more: "Standard input is a scenario of this form and, behind it, its report:\n\n  \
cat examples/first.am2 examples/first.out | bin/am2_lab page step > first.html",
    example: "cat examples/first.am2 examples/first.out | bin/am2_lab page step > first.html",
};

const STATE: Shown = Shown {
    name: "state",
    about: "Tells the state behind an entry of a report, or at its end, or what changed from one entry to another",
    usage: "am2_lab state <step|run> [LINE [LINE2]]",
    more: "LINE and LINE2 are lines of the report, whose journal begins in line 3; without them the state is that at the end. \
Standard input is a scenario of this form and, behind it, its report:\n\n  \
cat examples/first.am2 examples/first.out | bin/am2_lab state step 9\n  \
cat examples/first.am2 examples/first.out | bin/am2_lab state step 9 12",
    example: "cat examples/first.am2 examples/first.out | bin/am2_lab state step 9",
};

const FIND: Shown = Shown {
    name: "find",
    about: "Prints the report of the least seed that has a line which begins with the words",
    usage: "am2_lab find [--not] <A..B> [--faults <PERCENT>] <WORDS>...",
    more: "A..B are the seeds that are tried, from A up to B, which isn't among them: 1 to 100000. WORDS are those that the line begins with; \
0.* is like 0.1, 0.2 and so on. With --not the report is to have no such line. With --faults each seed draws the plan too, as faults does, and \
the scenario with that plan is printed in front of its report. \
Standard input is the scenario of a run, with no report behind it:\n\n  \
bin/am2_lab find 0..100 fate 1.* request unknown < examples/turns-clients.am2\n  \
bin/am2_lab find --not 0..100 totals < examples/turns-clients.am2\n  \
bin/am2_lab find 0..1000 --faults 50 fate 0.* request unknown-but-ran < examples/turns-clients.am2",
    example: "bin/am2_lab find 0..100 fate 1.* request unknown < examples/turns-clients.am2",
};

const FAULTS: Shown = Shown {
    name: "faults",
    about: "Prints the scenario of a run with a plan of losses, repeats and delays that a seed draws",
    usage: "am2_lab faults <SEED> <PERCENT>",
    more: "SEED is a number from 0 to 18446744073709551615. Of the first packets of each link about PERCENT in a hundred, 0 to 100, are lost, \
repeated or late. \
Standard input is the scenario of a run, with no report behind it:\n\n  \
bin/am2_lab faults 7 20 < examples/turns-clients.am2",
    example: "bin/am2_lab faults 7 20 < examples/turns-clients.am2",
};

const SHRINK: Shown = Shown {
    name: "shrink",
    about: "Leaves out what it can of a scenario whose report has a line that begins with the words, as long as one has",
    usage: "am2_lab shrink <step|run> <WORDS>...\n       am2_lab shrink run --seed <N> <WORDS>...",
    more: "WORDS are those that the line begins with; 0.* is like 0.1, 0.2 and so on. With --seed the report is that of a run whose turns this \
seed draws, 0 to 18446744073709551615; without it no thread has a turn. \
Standard input is a scenario of this form, with no report behind it:\n\n  \
bin/am2_lab shrink step fate 0.* request ran < examples/first.am2\n  \
bin/am2_lab shrink run --seed 7 fate 0.* < examples/turns-clients.am2",
    example: "bin/am2_lab shrink step fate 0.* request ran < examples/first.am2",
};

const COMMANDS: &[Shown] = &[
    EXPLAIN, WHY, CHART, SCENARIO, REPLAY, SCHEDULE, JSON, PAGE, STATE, FIND, FAULTS, SHRINK,
];

const INPUT: &str =
    "explain, why, chart, page, replay, json and state read a scenario and, behind it, its report from standard input; \
    scenario, schedule, find, faults and shrink read a scenario alone:\n\n  \
    cat examples/first.am2 examples/first.out | bin/am2_lab why step 0.1\n  \
    bin/am2_lab scenario run < examples/run-withheld.am2";

// The commands. Only the proof of this function reads their texts, which are long.
fn commands() -> &'static [Shown] {
    COMMANDS
}

fn is_named(shown: &Shown, name: &str) -> bool {
    shown.name == name
}

// The command of this name.
fn named(name: &str) -> Option<Shown> {
    for shown in commands() {
        if is_named(shown, name) {
            return Some(*shown);
        }
    }
    None
}

/// The command that words name, of which the first is the program's name.
pub(crate) fn shown_of(words: &[String]) -> Option<Shown> {
    match words {
        [_, name, ..] => named(name.as_str()),
        _ => None,
    }
}

/// A line that asks for something of a command, or of some command.
pub(crate) fn example_of(shown: Option<Shown>) -> &'static str {
    match shown {
        Some(shown) => shown.example,
        None => WHY_EXAMPLE,
    }
}

// Any words.
fn any_words<'a>(alloc: Global) -> Arg<'a> {
    let words = Arg::new(alloc, "WORDS").num_args(0..);
    words.allow_hyphen_values(true).hide(true)
}

// What the help of a command shows.
fn told_command<'a>(alloc: Global, shown: Shown) -> Command<'a> {
    let command = Command::new(alloc, shown.name).about(shown.about);
    command.override_usage(shown.usage).after_help(shown.more)
}

// A command that takes any words.
fn command_words<'a>(alloc: Global, shown: Shown) -> Result<Command<'a>, AllocError> {
    told_command(alloc, shown).arg(any_words(alloc))
}

// The same, behind others.
fn put_command<'a>(
    alloc: Global,
    made: &mut Vec<Command<'a>>,
    shown: Shown,
) -> Result<(), AllocError> {
    let command = command_words(alloc, shown)?;
    made.push(command)?;
    Ok(())
}

// The program, as yet without commands.
fn program<'a>(alloc: Global) -> Command<'a> {
    let command = Command::new(alloc, "am2_lab").about(
        "Reads a scenario, alone or with its report behind it, and shows what is in it",
    );
    command
        .after_help(INPUT)
        .version("1")
        .subcommand_required(true)
}

// These commands.
fn made_of<'a>(alloc: Global, commands: &[Shown]) -> Result<Vec<Command<'a>>, AllocError> {
    let mut made = Vec::new(alloc);
    for shown in commands {
        put_command(alloc, &mut made, *shown)?;
    }
    Ok(made)
}

/// All commands.
pub(crate) fn all_words<'a>(alloc: Global) -> Result<Command<'a>, AllocError> {
    let made = made_of(alloc, commands())?;
    program(alloc).subcommands(made)
}

/// A command, or all of them.
pub(crate) fn words_of<'a>(alloc: Global, shown: Option<Shown>) -> Result<Command<'a>, AllocError> {
    match shown {
        Some(shown) => command_words(alloc, shown),
        None => all_words(alloc),
    }
}
