//! What `am2_lab schedule` prints: the report of a run whose order a seed draws.

mod runs;

pub(crate) use crate::one_seed::runs::trial_output;
pub use crate::one_seed::runs::{schedule_output, seed_output};
