//! What the lines of the settings say.

ghost use Rattle.std.specs.Prelude.{◌≡◌};
ghost use Rattle.std.specs.Option.{unwrap_or};
ghost use Rattle.am_scenario.specs.Drafts.Said.{unsaid, with_setting, node_count, frame_count, channel_count};

use am_scenario_types::Network;

/// A version of the text.
#[derive(Clone, Copy)]
pub enum Version {
    One,
    /// The second version knows pools.
    Two,
}

/// What a line of the settings says.
#[derive(Clone, Copy)]
pub enum Setting {
    Network(Network),
    Nodes(u8),
    Frames(u8),
    Channels(u8),
    Tries(u8),
    Bounces(u8),
    Pool(u8),
    Keep(u8),
    Log(u32),
    Turns(u32),
}

/// The settings that stood so far.
#[derive(Clone, Copy)]
pub struct Settings {
    pub network: Option<Network>,
    pub nodes: Option<u8>,
    pub frames: Option<u8>,
    pub channels: Option<u8>,
    pub tries: Option<u8>,
    pub bounces: Option<u8>,
    pub pool: Option<u8>,
    pub keep: Option<u8>,
    pub log: Option<u32>,
    pub turns: Option<u32>,
}

impl Settings {
    /// No setting stood.
    pub fn new() -> Settings
        ensures { result ≡ unsaid }
    {
        Settings {
            network: None,
            nodes: None,
            frames: None,
            channels: None,
            tries: None,
            bounces: None,
            pool: None,
            keep: None,
            log: None,
            turns: None,
        }
    }

    /// The number of nodes, 0 where it didn't stand.
    pub fn node_count(&self) -> u8
        ensures { result ≡ node_count self.now }
    {
        self.nodes.unwrap_or(0)
    }

    /// The number of frames of a node.
    pub fn frame_count(&self) -> u8
        ensures { result ≡ frame_count self.now }
    {
        self.frames.unwrap_or(16)
    }

    /// The number of channels from a node to a node.
    pub fn channel_count(&self) -> u8
        ensures { result ≡ channel_count self.now }
    {
        self.channels.unwrap_or(1)
    }

    /// One setting more.
    pub fn set(&mut self, setting: Setting)
        ensures { self.new ≡ with_setting self.old setting }
    {
        match setting {
            Setting::Network(network) => self.network = Some(network),
            Setting::Nodes(nodes) => self.nodes = Some(nodes),
            Setting::Frames(frames) => self.frames = Some(frames),
            Setting::Channels(channels) => self.channels = Some(channels),
            Setting::Tries(tries) => self.tries = Some(tries),
            Setting::Bounces(bounces) => self.bounces = Some(bounces),
            Setting::Pool(pool) => self.pool = Some(pool),
            Setting::Keep(keep) => self.keep = Some(keep),
            Setting::Log(log) => self.log = Some(log),
            Setting::Turns(turns) => self.turns = Some(turns),
        }
    }
}
