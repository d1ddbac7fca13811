//! Each command over texts.

use crate::commands::answers::{ends_so, prints_between, try_parts, try_texts};
use crate::commands::direct::{DIRECT, QUEUES};
use crate::commands::packet::PACKET;
use crate::commands::scripts::{ASKING, CLIENTS, ONE_LOST, POLLS, RUNS, VERSION};
use crate::commands::tables::{PATH, SLOW, SOUND, sound};
use crate::commands::texts::{CHECKS, CONDITIONS, COUNTS, FAULTS, FRAMED, NO_FORMS, TWO_NODES};
use crate::texts::{joined, numbered};
use am_main::step_text;
use std::alloc::{AllocError, Global};
use std::thread::Threads;

#[test]
fn steps_on_the_direct_network_are_answered(rt: HostRuntime) {
    try_parts(&rt, rt.alloc(), "step", DIRECT.as_slice());
}

#[test]
fn full_queues_are_answered(rt: HostRuntime) {
    try_parts(&rt, rt.alloc(), "step", QUEUES.as_slice());
}

#[test]
fn steps_on_the_packet_network_are_answered(rt: HostRuntime) {
    try_parts(&rt, rt.alloc(), "step", PACKET.as_slice());
}

#[test]
fn runs_are_answered(rt: HostRuntime) {
    try_parts(&rt, rt.alloc(), "run", RUNS.as_slice());
}

#[test]
fn checks_are_answered(rt: HostRuntime) {
    try_parts(&rt, rt.alloc(), "check step", CHECKS.as_slice());
}

#[test]
fn steps_that_are_refused_are_told(rt: HostRuntime) {
    try_texts(&rt, rt.alloc(), "step", "", FAULTS.as_slice());
    try_texts(&rt, rt.alloc(), "step", TWO_NODES, CONDITIONS.as_slice());
}

#[test]
fn words_are_counted(rt: HostRuntime) {
    for (line, text, status, printed) in COUNTS.iter() {
        let ending = sound(*status, printed);
        let counted = ends_so(&rt, rt.alloc(), line, text, (SLOW, SLOW), ending);
        assert!(rt; matches!(counted, Ok(true)));
    }
}

/// One byte more than a command takes.
#[test]
fn long_texts_are_not_read_to_their_end(rt: HostRuntime) {
    for (line, length, status, printed) in [
        ("step", 16_777_217, 7, "input too long\n"),
        ("count 1 0", 1_048_577, 11, "text too long\n"),
    ] {
        let text = vec![in rt.alloc(); b' '; length].expect(&rt, "ample memory");
        let ending = sound(status, printed.as_bytes());
        let ended = ends_so(&rt, rt.alloc(), line, &text, (SOUND, SOUND), ending);
        assert!(rt; matches!(ended, Ok(true)));
    }
}

#[test]
fn a_text_without_a_sink(rt: HostRuntime) {
    assert!(rt; step_text(rt.alloc(), PATH.as_bytes()).is_ok());
}

#[test]
fn reports_begin_and_end_so(rt: HostRuntime) {
    for (line, text, front, back) in FRAMED.iter() {
        let printed = prints_between(&rt, rt.alloc(), line, text, (*front, *back));
        assert!(rt; matches!(printed, Ok(true)));
    }
}

// The scenario of two clients and a server, with these lines in front and this plan.
fn clients_text(alloc: Global, settings: &str, plan: &str) -> Result<String, AllocError> {
    joined(alloc, &[VERSION, settings, CLIENTS, plan, ASKING, POLLS])
}

// Whether it is unknown what became of both requests where each of 4096 packets is late by 16 emissions.
fn is_unknown<R: Threads + Sync>(rt: &R, alloc: Global) -> Result<bool, AllocError> {
    let plan = numbered(alloc, "", ("plan 0 1 ", " late 16"), 4_096)?;
    let text = clients_text(alloc, "", plan.as_str())?;
    let totals = "\ntotals ran 0 returned 0 unknown 2 unknown-but-ran 0 pending 0\n";
    prints_between(rt, alloc, "run", text.as_str(), ("am2 report 1\n", totals))
}

// Whether it comes to its end with so many turns.
fn comes_to_its_end<R: Threads + Sync>(
    rt: &R,
    alloc: Global,
    turns: u32,
) -> Result<bool, AllocError> {
    let turns = turns.to_string(alloc)?;
    let setting = joined(alloc, &["turns ", turns.as_str(), "\n"])?;
    let text = clients_text(alloc, setting.as_str(), ONE_LOST)?;
    prints_between(
        rt,
        alloc,
        "run",
        text.as_str(),
        ("am2 report 1\n", " pending 0\n"),
    )
}

#[test]
fn is_unknown_where_each_packet_is_late(rt: HostRuntime) {
    assert!(rt; matches!(is_unknown(&rt, rt.alloc()), Ok(true)));
}

#[test]
fn comes_to_its_end_with_turns(rt: HostRuntime) {
    for count in 0..34u32 {
        let turns = if count == 33 { 1000 } else { count };
        assert!(rt; matches!(comes_to_its_end(&rt, rt.alloc(), turns), Ok(true)));
    }
}

#[test]
fn other_words_are_usage(rt: HostRuntime) {
    let usage =
        "usage: am2 step | am2 run | am2 make N | am2 segments | am2 session | am2 count W U | am2 check step | am2 check run\n";
    for line in NO_FORMS.iter() {
        let ending = sound(2, usage.as_bytes());
        let ended = ends_so(&rt, rt.alloc(), line, b"", (SLOW, SLOW), ending);
        assert!(rt; matches!(ended, Ok(true)));
    }
}
