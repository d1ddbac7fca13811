//! What the text of the changes is to whoever reads it. The law is the contract of a function with an empty body.

ghost use Rattle.am_lab_state.specs.Laws.{ChangesAreTold};

/// What the entries of a journal change is told of each behind those in front of it: its line, and what `state` tells of the line in
/// front of it and of its own.
pub fn changes_are_told()
    ensures { ChangesAreTold }
{}
