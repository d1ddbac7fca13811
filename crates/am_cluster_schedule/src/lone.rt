//! What a worker makes that is alone.

ghost use Rattle.am_cluster_schedule.specs.Lone.{DriversKeepMaking, DriversMake, InterfacesKeepMaking, InterfacesMake, ThreadsKeepMaking, ThreadsMake};

/// In its turn an interface that chose a work which can be done makes an entry, and so does a thread whose next call is due: it has one
/// more, or it has stopped, by a full log or want of memory. Otherwise it wasn't alone: another seat was inside the endpoint, or had left
/// entries there that its seat had not seen. A driver looks at each endpoint in its turn, and then it makes the move that its rules give,
/// if they give one, unless it stops or meets another seat in the same way behind its looks. So over any number of turns taken alone, each
/// with work, a worker makes as many entries, or it has stopped.
pub fn a_lone_worker_makes_its_work()
    ensures interfaces { InterfacesMake }
    ensures interfaces_on { InterfacesKeepMaking }
    ensures threads { ThreadsMake }
    ensures threads_on { ThreadsKeepMaking }
    ensures drivers { DriversMake }
    ensures drivers_on { DriversKeepMaking }
{}
