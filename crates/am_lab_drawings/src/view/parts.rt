//! Which lines are shown.

ghost use Rattle.am_lab_drawings.specs.View.Parts as parts;
ghost use Rattle.std.specs.Prelude.{◌≡◌, ◌+◌, ◌<◌, ◌^◌};

use am_lab_picture::Lines;
use thiserror::Error;

/// A part of a report's journal: the lines from one to another, both shown.
#[derive(Clone, Copy, PartialEq, Eq)]
pub struct LineRange {
    pub from: u32,
    pub to: u32,
}

/// Why there is no picture.
#[derive(Clone, Copy, PartialEq, Eq, Debug, Error)]
pub enum PictureFault {
    /// The part has no line, or one that isn't a line of the journal.
    #[error("the journal has no such lines")]
    NoSuchLines,
    /// There are more than 20,000 lines.
    #[error("the lines are too many for a picture")]
    TooManyRows,
    /// There was no memory.
    #[error("there is no memory for the picture")]
    NoMemory,
}

/// How many rows a picture has at most.
pub const MOST_ROWS: u32 = 20_000;

fn is_within(part: LineRange, count: u32) -> bool
    requires { count + 3 < 2 ^ 32 }
    ensures { result ≡ parts.is_within count part }
{
    3 <= part.from && part.from <= part.to && part.to < count + 3
}

fn few(lines: Lines) -> Result<Lines, PictureFault>
    ensures { result ≡ parts.few lines }
{
    if lines.count <= MOST_ROWS {
        Ok(lines)
    } else {
        Err(PictureFault::TooManyRows)
    }
}

/// The lines that a part names of a journal with so many entries, or all of its lines.
pub(crate) fn lines_of(part: Option<LineRange>, count: u32) -> Result<Lines, PictureFault>
    requires { count + 3 < 2 ^ 32 }
    ensures { result ≡ parts.lines_of count part }
{
    match part {
        None => few(Lines { first: 3, count }),
        Some(part) if is_within(part, count) => few(Lines {
            first: part.from,
            count: part.to + 1 - part.from,
        }),
        Some(_) => Err(PictureFault::NoSuchLines),
    }
}
