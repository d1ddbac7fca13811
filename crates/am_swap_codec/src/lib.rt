//! The image of an endpoint's body, written and read, where the body is seen as lists.
#![tactic(auto)]

mod lists;
mod messages;
mod valid;

pub use am_swap_pieces::ImageFault;
pub use lists::BodyLists;
