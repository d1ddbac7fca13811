//! What an interface begins with.

use am_names::NodeId;
use std::marker::Model;

/// What an interface begins with: its node, the sizes and limits of the cluster, and where each endpoint lives. Contracts
/// see it with the list of `homes` in place of the vector.
#[derive(Drop)]
pub struct IfaceSettings {
    pub node: NodeId,
    /// How many nodes there are, 1 to 16.
    pub nodes: u8,
    /// The channels to each peer, 1 to 4.
    pub channels: u8,
    /// The tries of a binding, 2 to 16.
    pub tries: u8,
    /// How often a message may bounce, at most 16.
    pub bounces: u8,
    /// How many entries its log may have, 1 to 65,536.
    pub log: u32,
    /// The node of the endpoint with each number, 0 to 255, if it is declared.
    pub homes: Vec<Option<NodeId>>,
}

impl Model for IfaceSettings {
    ghost use Rattle.am_iface.specs.Settings.{SettingsView};

    ghost Value = { SettingsView };

    ghost view = { λ s. record { node = s.node; nodes = s.nodes; channels = s.channels; tries = s.tries; bounces = s.bounces; log = s.log; homes = s.homes.items } };
}

/// The settings but for the homes.
#[derive(Clone, Copy)]
pub(crate) struct Limits {
    pub(crate) node: NodeId,
    pub(crate) nodes: u8,
    pub(crate) channels: u8,
    pub(crate) tries: u8,
    pub(crate) bounces: u8,
    pub(crate) log: u32,
}
