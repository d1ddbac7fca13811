//! What the crews of all nodes leave when each worker made its last turn: the parts that are made of it can be united to a cluster, whose
//! journal is a good phase. Each theorem is the contract of a function with an empty body.

ghost use Rattle.am_cluster_running.specs.Ends.Ends.{CrewsGather, CrewsUnite};

/// A driver that gathered the seats of its crew's other workers has gathered all, so that it may take the books out.
pub fn a_crew_is_gathered()
    ensures { CrewsGather }
{}

/// Wherever the workers stopped, the parts of all nodes can be united. The journal is a good phase, empty without turns, in which each
/// thread made so many calls of its script as its worker counted.
pub fn crews_unite()
    ensures { CrewsUnite }
{}
