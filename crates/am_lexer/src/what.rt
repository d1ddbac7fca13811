//! The faults of a line.

/// What is wrong with a line of a text.
#[derive(Clone, Copy, Debug, PartialEq, Eq)]
pub enum What {
    /// A word that isn't known there, or a word too many.
    UnknownWord,
    /// A word that should be a number, a tag or a serial and isn't.
    BadNumber,
    /// A number or a word outside its range.
    OutOfRange,
    /// Something that may stand once and stands again.
    Twice,
    /// A word or a line that isn't there.
    Missing,
    /// A number that no line declared.
    Undeclared,
    /// A byte that may not stand in a line.
    NotText,
    /// More lines or calls than there may be.
    TooMany,
    /// A line in a lower section than one before it, or of another form.
    OutOfPlace,
}
