//! The turns of the workers of a node at the endpoints that they enter.
//!
//! Of an application thread, `calls` has what it does with an endpoint that it has entered, `threads` its turn at one endpoint, and `callers` the turns of its script, one after the other.
//! Of an interface, `works` has what it does with an endpoint that it has entered, `interfaces` its turn at one endpoint, `services` its turn whatever the work touches, and `servers` its
//! turns with what it has in hand, one after the other. `choices` says which work is next, by how long the channels have waited, which `waits` counts, and `fits` which it may be given.

mod callers;
mod calls;
mod choices;
mod fits;
mod interfaces;
mod servers;
mod services;
mod threads;
mod turns;
mod waits;
mod works;

pub use callers::call_turn;
pub use choices::next_work;
pub use interfaces::interface_turn;
pub use servers::serve;
pub use services::work_turn;
pub use threads::thread_turn;
pub use turns::{InterfaceTurn, ThreadTurn};
pub use waits::Waits;
