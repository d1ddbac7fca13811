//! Texts put together.

use std::alloc::{AllocError, Global};

/// Texts, one behind another.
pub fn joined(alloc: Global, parts: &[&str]) -> Result<String, AllocError> {
    let mut text = String::new(alloc);
    for part in parts {
        text.push_str(part)?;
    }
    Ok(text)
}

/// A text, and behind it so many lines with the numbers from 1 on, each with this before its number and that behind it.
pub fn numbered(
    alloc: Global,
    front: &str,
    line: (&str, &str),
    count: u32,
) -> Result<String, AllocError> {
    let mut text = joined(alloc, &[front])?;
    for place in 0..count {
        let number = place.saturating_add(1).to_string(alloc)?;
        let line = joined(alloc, &[line.0, number.as_str(), line.1, "\n"])?;
        text.push_str(line.as_str())?;
    }
    Ok(text)
}
