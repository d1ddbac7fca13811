//! Scenarios made in code, declaration by declaration and call by call: lawful at every place, and with nothing that runs them.
#![tactic(auto)]

pub mod calls;
mod draft;
mod laws;
pub mod lines;
mod rounds;

pub use draft::{Draft, DraftFault, Setting};
pub use laws::drafts_welcome;
