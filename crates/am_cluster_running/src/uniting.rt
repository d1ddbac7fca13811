//! What the workers of a run's nodes leave at the end of its phase, as parts that can be united: the cluster that they make has the
//! journal of the phase. Each theorem is the contract of a function with an empty body.

ghost use Rattle.am_cluster_running.specs.Uniting.Ended.{EndsUnite, NoTurnsNoJournal, PartsAreAPhase, PartsHaveAll, PartsKeepCalls};
ghost use Rattle.am_cluster_running.specs.Uniting.Teams.{ReceiptsCount, TeamsEnd, TeamsGather, TeamsUnite};

/// Wherever each worker stopped, the parts of all nodes can be united to a cluster.
pub fn ends_can_unite()
    ensures { EndsUnite }
{}

/// The journal of that cluster is the one that the workers' logs merge into: a phase that the drain may begin with, in which each thread
/// made just the calls that its worker made. Without turns it is empty.
pub fn parts_have_the_phase()
    ensures journal { PartsHaveAll }
    ensures good { PartsAreAPhase }
    ensures calls { PartsKeepCalls }
    ensures none { NoTurnsNoJournal }
{}

/// A driver that gathered the seats of its node's other workers has gathered all, so that it may take the books out.
pub fn a_driver_gathers_all()
    ensures { TeamsGather }
{}

/// An interface received on each link what it took out of it, but what it has in hand.
pub fn receipts_are_counted()
    ensures { ReceiptsCount }
{}

/// The workers of all nodes, whose drivers took the books out, end a run.
pub fn teams_end()
    ensures { TeamsEnd }
{}

/// And the parts that have what the nodes' workers have can be united, and their journal is a good phase, in which each thread made
/// its calls.
pub fn teams_unite()
    ensures { TeamsUnite }
{}
