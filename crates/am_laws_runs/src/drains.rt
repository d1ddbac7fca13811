//! What the laws of the cluster give a drain: where it makes a history, all is at rest at its end, it follows the scripts,
//! and no message is pending. Each law is the contract of a function with an empty body.

ghost use Rattle.am_laws_runs.specs.Drains.Laws.{DrainsFollow, DrainsRest, HistoriesAreSound, NonePending};

/// In each history of a lawful scenario the front messages go to declared endpoints, and where no channel is bound nothing is
/// in flight.
pub fn histories_are_sound()
    ensures { HistoriesAreSound }
{}

/// Where what a drain makes, of whatever journal, is a history of a lawful scenario, all is at rest at its end.
pub fn drains_rest()
    ensures { DrainsRest }
{}

/// A history that a drain makes of a good phase of a lawful scenario follows its scripts.
pub fn drains_follow()
    ensures { DrainsFollow }
{}

/// In a history of a lawful scenario that ends at rest every accepted message has run, or is returned or unknown.
pub fn none_pending()
    ensures { NonePending }
{}
