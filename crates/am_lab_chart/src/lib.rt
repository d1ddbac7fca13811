//! A space-time picture of a journal, drawn as SVG.
#![tactic(auto)]

mod bars;
mod before;
mod captions;
mod drawing;
mod known;
mod lanes;
mod legends;
mod rows;
mod shapes;
mod tables;
mod ways;

pub use before::chart_before;
pub use drawing::chart;
pub use legends::{Explanation, Meaning};
pub use tables::STYLE;
