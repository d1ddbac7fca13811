//! What an endpoint begins with.

use am_names::{EndpointId, NodeId, Tag};
use am_office_entries::Place;

/// What an endpoint begins with: whose it is, its tag and its place, and its limits.
#[derive(Clone, Copy, PartialEq, Eq)]
pub struct EndSettings {
    pub id: EndpointId,
    pub node: NodeId,
    pub tag: Tag,
    /// Where it begins: on the host, on disk, or in the direct network.
    pub place: Place,
    /// How many entries its log may have, from 1 to 65,536.
    pub log: u32,
    /// How often a message of its may bounce, at most 16.
    pub bounces: u8,
    /// The credits that its indexes share above their least shares, at most 32; `None` where each index has its own.
    pub pool: Option<u8>,
}
