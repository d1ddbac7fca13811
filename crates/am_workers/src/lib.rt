//! The workers of a node, from turn to turn: an application thread with its script, an interface between its links, and the driver
//! with its disk. Each makes its turns alone, and meets the others only at the places and the links that they share.
#![tactic(auto)]

mod drivers;
mod gate;
mod interfaces;
mod starts;
mod threads;
pub mod turns;
mod ways;
mod workers;

pub use crate::drivers::{turn_as_driver, work_as_driver};
pub use crate::gate::{Gate, OpenGate};
pub use crate::interfaces::{turn_as_interface, work_as_interface};
pub use crate::starts::{drivers_begin, new_workers_are_at_work};
pub use crate::threads::{turn_as_thread, work_as_thread};
pub use crate::workers::{DriverWorker, InterfaceWorker, Stop, ThreadWorker};
