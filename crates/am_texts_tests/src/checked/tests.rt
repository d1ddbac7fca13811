//! Reports of step scripts and of runs, checked.

use crate::checked::run_tables as runs;
use crate::checked::tables::{REPORTS, Row, SCENARIO, TEXTS};
use crate::texts::joined;
use am_check::{CheckStop, check_runs, check_steps};
use am_scenario::Form;
use std::alloc::{AllocError, Global};
use std::process::Abort;

// What the check of a text is stopped for.
fn stop_of(alloc: Global, form: Form, text: &str) -> Option<CheckStop> {
    let checked = match form {
        Form::Step => check_steps(alloc, text.as_bytes()),
        Form::Run => check_runs(alloc, text.as_bytes()),
    };
    checked.err()
}

// Five parts behind a text, with one more in front of the last two.
fn text_of(
    alloc: Global,
    front: &str,
    between: &str,
    parts: &[&str],
) -> Result<String, AllocError> {
    let mut text = joined(alloc, &[front])?;
    for (place, part) in parts.iter().enumerate() {
        if place == 3 {
            text.push_str(between)?;
        }
        text.push_str(part)?;
    }
    Ok(text)
}

// Stops at the first row that is answered otherwise, with these texts in front of its parts and of the last two.
fn try_reports<R: Abort>(rt: &R, alloc: Global, form: Form, put: (&str, &str), rows: &[Row]) {
    for (parts, stop) in rows {
        let text = text_of(alloc, put.0, put.1, parts).expect(rt, "ample memory");
        if stop_of(alloc, form, text.as_str()) != *stop {
            rt.panic(text.as_str())
        }
    }
}

#[test]
fn reports_of_steps_are_checked(rt: HostRuntime) {
    try_reports(
        &rt,
        rt.alloc(),
        Form::Step,
        (SCENARIO, ""),
        REPORTS.as_slice(),
    );
    try_reports(&rt, rt.alloc(), Form::Step, ("", ""), TEXTS.as_slice());
}

#[test]
fn reports_of_runs_are_checked(rt: HostRuntime) {
    let put = (runs::CLIENTS, runs::REST);
    try_reports(&rt, rt.alloc(), Form::Run, put, runs::REPORTS.as_slice());
    try_reports(&rt, rt.alloc(), Form::Run, ("", ""), runs::TEXTS.as_slice());
}
