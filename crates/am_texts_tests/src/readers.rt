//! What reads a text, and the first fault that it finds.

use crate::texts::{joined, numbered};
use am_lexer::What;
use am_scenario::{Form, ReadFault, read};
use am_segment::read_segments;
use am_session::{SessionReadFault, read_session};
use std::alloc::{AllocError, Global};
use std::process::Abort;

/// What reads a text.
#[derive(Clone, Copy)]
pub enum Reader {
    Scenario(Form),
    Segments,
    Session,
}

/// A text, with the line and the cause of its first fault.
pub type Row = (&'static str, u32, What);

/// Lines of which there may be so many: what reads them, what stands in front of them, what stands before and behind the number
/// of each, how many there may be, and one more with its place in the text.
pub type Limit = (
    Reader,
    &'static str,
    (&'static str, &'static str),
    u32,
    &'static str,
    u32,
);

fn scenario_fault(alloc: Global, form: Form, text: &[u8]) -> Option<(u32, What)> {
    match read(alloc, form, text) {
        Err(ReadFault::Refused(fault)) => Some((fault.line, fault.what)),
        _ => None,
    }
}

fn segments_fault(alloc: Global, text: &[u8]) -> Option<(u32, What)> {
    match read_segments(alloc, text) {
        Err(ReadFault::Refused(fault)) => Some((fault.line, fault.what)),
        _ => None,
    }
}

fn session_fault(alloc: Global, text: &[u8]) -> Option<(u32, What)> {
    match read_session(alloc, text) {
        Err(SessionReadFault::Refused(fault)) => Some((fault.line, fault.what)),
        _ => None,
    }
}

// The first fault that is found, if there is one.
fn fault_of(alloc: Global, reader: Reader, text: &str) -> Option<(u32, What)> {
    match reader {
        Reader::Scenario(form) => scenario_fault(alloc, form, text.as_bytes()),
        Reader::Segments => segments_fault(alloc, text.as_bytes()),
        Reader::Session => session_fault(alloc, text.as_bytes()),
    }
}

// Whether a text has this fault behind this head.
fn is_refused(alloc: Global, reader: Reader, head: &str, text: &str, fault: (u32, What)) -> bool {
    match joined(alloc, &[head, text]) {
        Ok(whole) => fault_of(alloc, reader, whole.as_str()) == Some(fault),
        Err(_) => false,
    }
}

/// Stops at the first row that is read otherwise behind this head.
pub fn try_rows<R: Abort>(rt: &R, alloc: Global, reader: Reader, head: &str, rows: &[Row]) {
    for (text, line, what) in rows {
        if !is_refused(alloc, reader, head, text, (*line, *what)) {
            rt.panic(*text)
        }
    }
}

/// Whether so many lines are read, and one more is a line too many.
pub fn is_kept(alloc: Global, limit: Limit) -> Result<bool, AllocError> {
    let (reader, front, line, most, more, place) = limit;
    let mut text = numbered(alloc, front, line, most)?;
    let full = fault_of(alloc, reader, text.as_str());
    text.push_str(more)?;
    let over = fault_of(alloc, reader, text.as_str());
    Ok(full.is_none() && over == Some((place, What::TooMany)))
}
