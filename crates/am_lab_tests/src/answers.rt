//! What the program answers to words and a text.

use am_io::{MemorySink, MemorySource};
use am_lab::answer;
use am_lab_words::read_words;
use std::alloc::{AllocError, Global};

/// What the program answered: its status, and the sink that took its text.
#[derive(Drop)]
struct Answer {
    status: u8,
    sink: MemorySink,
}

// The words of a line, by its spaces.
fn words_of(alloc: Global, line: &str) -> Result<Vec<String>, AllocError> {
    let mut words = Vec::new(alloc);
    for word in line.split(' ') {
        words.push(String::from_str(alloc, word)?)?;
    }
    Ok(words)
}

// A text with another one behind it.
fn joined(alloc: Global, front: &str, rest: &str) -> Result<Vec<u8>, AllocError> {
    let mut text = Vec::from_slice(alloc, front.as_bytes())?;
    text.extend_from_slice(rest.as_bytes())?;
    Ok(text)
}

// What the program answers to the words of a line, none of which asks for a line that begins with given words, and to a text; status
// 2 where the words ask for nothing.
fn answer_to(alloc: Global, line: &str, text: Vec<u8>) -> Result<Answer, AllocError> {
    let words = words_of(alloc, line)?;
    let mut from = MemorySource::new(text, 4096, Vec::new(alloc));
    let mut to = MemorySink::new(alloc, 4096, Vec::new(alloc));
    let status = match read_words(alloc, &words) {
        Ok(asked) => answer(alloc, asked, b"", &mut from, &mut to),
        Err(_) => 2,
    };
    Ok(Answer { status, sink: to })
}

/// Whether this is told of a scenario and its report, or of another text.
pub fn is_told(
    alloc: Global,
    line: &str,
    text: (&str, &str),
    status: u8,
    printed: &str,
) -> Result<bool, AllocError> {
    let text = joined(alloc, text.0, text.1)?;
    let answer = answer_to(alloc, line, text)?;
    Ok(answer.status == status && answer.sink.bytes() == printed.as_bytes())
}

/// Whether a report is answered well, by a text that begins and ends so.
pub fn is_between(
    alloc: Global,
    line: &str,
    text: (&str, &str),
    around: (&str, &str),
) -> Result<bool, AllocError> {
    let text = joined(alloc, text.0, text.1)?;
    let answer = answer_to(alloc, line, text)?;
    let printed = answer.sink.bytes();
    Ok(
        answer.status == 0
            && printed.starts_with(around.0.as_bytes())
            && printed.ends_with(around.1.as_bytes()),
    )
}
