//! The settings of a cluster.

use am_scenario_types::Network;

/// What a cluster begins with beside its endpoints and failing page calls, each number in the range that the scenario
/// text gives it.
#[derive(Clone, Copy, PartialEq, Eq)]
pub struct Settings {
    pub network: Network,
    pub nodes: u8,
    pub frames: u8,
    pub channels: u8,
    pub tries: u8,
    pub bounces: u8,
    pub pool: Option<u8>,
    pub log: u32,
}
