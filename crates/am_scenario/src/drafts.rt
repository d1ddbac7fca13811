//! What the lines of a scenario's text have said so far, and what one line more says.

mod draft;
mod line;
mod plan;
mod settings;

pub use draft::Draft;
pub use line::{Calls, Line, LineFault};
pub use plan::Plan;
pub use settings::{Setting, Settings, Version};
