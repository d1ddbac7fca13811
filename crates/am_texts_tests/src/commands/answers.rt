//! What a command answers over a source and a sink, and whether that is as it should be.

use crate::commands::tables::{Device, Ending, Row, SLOW, SOUND, Told, sound};
use crate::texts::joined;
use am_io::{MemorySink, MemorySource, Sink, Source};
use am_main::am2;
use std::alloc::{AllocError, Global};
use std::process::Abort;
use std::thread::Threads;

/// What a command answered: its status, how many reads and writes failed, and the sink that took its text.
#[derive(Drop)]
struct Answer {
    status: u8,
    read_faults: u64,
    write_faults: u64,
    sink: MemorySink,
}

// The words of a line, by its spaces.
fn words_of(alloc: Global, line: &str) -> Result<Vec<String>, AllocError> {
    let mut words = Vec::new(alloc);
    for word in line.split(' ') {
        words.push(String::from_str(alloc, word)?)?;
    }
    Ok(words)
}

// The failing calls of a device: its own and the next one, so that a second try would be counted.
fn fails_of(alloc: Global, device: Device) -> Result<Vec<u32>, AllocError> {
    Vec::from_slice(alloc, &[device.fails, device.fails.saturating_add(1)])
}

// What the program answers to these words and this text, over a source and a sink that may fail.
fn answer_of<R: Threads + Sync>(
    rt: &R,
    alloc: Global,
    line: &str,
    text: &[u8],
    devices: (Device, Device),
) -> Result<Answer, AllocError> {
    let (source, sink) = devices;
    let words = words_of(alloc, line)?;
    let bytes = Vec::from_slice(alloc, text)?;
    let mut from = MemorySource::new(bytes, source.most.max(1), fails_of(alloc, source)?);
    let mut to = MemorySink::new(alloc, sink.most.max(1), fails_of(alloc, sink)?);
    let status = am2(rt, alloc, &words, &mut from, &mut to);
    Ok(Answer {
        status: status.number,
        read_faults: from.faults(),
        write_faults: to.faults(),
        sink: to,
    })
}

/// Whether a command ends so over this source and this sink.
pub fn ends_so<R: Threads + Sync>(
    rt: &R,
    alloc: Global,
    line: &str,
    text: &[u8],
    devices: (Device, Device),
    wanted: Ending,
) -> Result<bool, AllocError> {
    let answer = answer_of(rt, alloc, line, text, devices)?;
    Ok(
        answer.status == wanted.status
            && answer.sink.bytes() == wanted.printed
            && answer.read_faults == wanted.read_faults
            && answer.write_faults == wanted.write_faults,
    )
}

/// Whether a command ends well where no call fails, and prints a text that begins and ends so.
pub fn prints_between<R: Threads + Sync>(
    rt: &R,
    alloc: Global,
    line: &str,
    text: &str,
    around: (&str, &str),
) -> Result<bool, AllocError> {
    let answer = answer_of(rt, alloc, line, text.as_bytes(), (SOUND, SOUND))?;
    let printed = answer.sink.bytes();
    Ok(
        answer.status == 0
            && printed.starts_with(around.0.as_bytes())
            && printed.ends_with(around.1.as_bytes()),
    )
}

// Whether a text is answered so under a command. It is put together of these parts, and so is what is printed.
fn is_answered<R: Threads + Sync>(
    rt: &R,
    alloc: Global,
    line: &str,
    text: &[&str],
    status: u8,
    printed: &[&str],
) -> Result<bool, AllocError> {
    let text = joined(alloc, text)?;
    let printed = joined(alloc, printed)?;
    let wanted = sound(status, printed.as_bytes());
    ends_so(rt, alloc, line, text.as_bytes(), (SLOW, SLOW), wanted)
}

/// Stops at the first row that is answered otherwise under this command.
pub fn try_parts<R: Threads + Sync + Abort>(rt: &R, alloc: Global, line: &str, rows: &[Row]) {
    for (text, status, printed) in rows {
        let answered = is_answered(rt, alloc, line, text, *status, printed);
        if !matches!(answered, Ok(true)) {
            rt.panic(line)
        }
    }
}

// Whether a text is answered so under a command, behind this head.
fn is_told<R: Threads + Sync>(
    rt: &R,
    alloc: Global,
    line: &str,
    head: &str,
    text: &str,
    status: u8,
    printed: &str,
) -> Result<bool, AllocError> {
    let whole = joined(alloc, &[head, text])?;
    let wanted = sound(status, printed.as_bytes());
    ends_so(rt, alloc, line, whole.as_bytes(), (SLOW, SLOW), wanted)
}

/// Stops at the first row whose text, behind this head, is answered otherwise under this command.
pub fn try_texts<R: Threads + Sync + Abort>(
    rt: &R,
    alloc: Global,
    line: &str,
    head: &str,
    rows: &[Told],
) {
    for (text, status, printed) in rows {
        let told = is_told(rt, alloc, line, head, text, *status, printed);
        if !matches!(told, Ok(true)) {
            rt.panic(*text)
        }
    }
}
