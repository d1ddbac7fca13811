//! What becomes of a message.

/// What the entries of a session tell of a message that was offered.
#[derive(Clone, Copy, PartialEq, Eq)]
pub enum SessionFate {
    /// The receiver put it.
    Put,
    /// The sender returned it. It was never put.
    Returned,
    /// The sender gave it up, and it was never put.
    Unknown,
    /// The sender gave it up, and the receiver put it.
    UnknownButPut,
    /// None of this so far.
    Pending,
}
