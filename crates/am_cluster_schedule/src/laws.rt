//! What the order of the turns says, in other words.

ghost use Rattle.am_cluster_schedule.specs.Order.{EachTakesItsTurns};

/// Whatever the seed, each worker takes as many turns as the scenario gives: of the workers that pass a test, whichever, so many stand in
/// the order.
#[tactic(auto, using(crate::proofs::Fair::each_takes_its_turns))]
pub fn each_worker_takes_its_turns()
    ensures { EachTakesItsTurns }
{}
