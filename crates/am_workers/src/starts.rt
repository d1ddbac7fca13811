//! How the workers of a node begin.
ghost use Rattle.am_workers.specs.Begins.{BooksAreHomely, DriversBegin, NewDriversAreAtWork, NewInterfacesAreAtWork, NewThreadsAreAtWork};

/// The driver of a node keeps its works with no turn made, at the last seat of places that were just made, with a view that shows the
/// books. Each of these books is on the host or on disk.
pub fn drivers_begin()
    ensures begin { DriversBegin }
    ensures homely { BooksAreHomely }
{}

/// Each worker at a seat that was just made is at work, with no turn made.
pub fn new_workers_are_at_work()
    ensures threads { NewThreadsAreAtWork }
    ensures interfaces { NewInterfacesAreAtWork }
    ensures drivers { NewDriversAreAtWork }
{}
