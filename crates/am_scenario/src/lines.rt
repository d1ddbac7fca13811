//! The lines of a scenario's text: one reader for each kind, from the words of a line to what it says or its first fault.

mod bundle;
mod calls;
mod declarations;
mod head;
mod keyword;
mod lined;
mod places;
mod script;
mod settings;
mod steps;
mod words;

pub use head::{Head, SettingName, head_of};
pub use words::words_say;
