//! The parts of an image, written and read: numbers, messages, mappings, records, and lists of each.
#![tactic(auto)]

mod fault;
mod many;
mod part;
mod ranges;
mod reading;
mod writing;

pub use crate::fault::ImageFault;
pub use crate::many::{pass_counted, pass_many, put_counted, put_each, take_counted, take_many};
pub use crate::part::ImagePart;
pub use crate::ranges::{all_in_range, head_in_range};
pub use crate::reading::{take_long, take_magic, take_short};
pub use crate::writing::{put_long, put_magic, put_short};
