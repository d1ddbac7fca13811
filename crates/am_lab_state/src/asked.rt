//! Which states are asked for.

/// Which states of a report's journal are asked for. A line is one of the report, counted from 1; the journal begins in line 3.
#[derive(Clone, Copy, PartialEq, Eq)]
pub enum StateLines {
    /// The state at the journal's end.
    End,
    /// The state behind the entry in this line.
    Behind(u32),
    /// How the state behind the second line differs from that behind the first.
    Between(u32, u32),
}
