//! The scenarios that stand behind the runs of `am2 make`, `am2 segments` and `am2 count`, as texts that `am2 run`
//! reads.

mod expansions;
mod faulty;
mod numbers;
mod outputs;
mod sendings;

pub use crate::derived::expansions::expanded_scenario;
pub use crate::derived::faulty::faulty_scenario;
pub use crate::derived::numbers::made_scenario;
pub use crate::derived::sendings::round_scenario;
