//! Which interface an entry touches.

ghost use Rattle.std.specs.Prelude.{◌≡◌};
ghost use Rattle.am_office_entries.specs.Entries as does;

use crate::{Entry, Event};
use am_names::NodeId;

/// The node whose interface an entry touches, so that it stands in that interface's log: that of a bind, a time-out
/// or a receipt.
pub fn node_touched(entry: &Entry) -> Option<NodeId>
    ensures { result ≡ does.node_touched entry.now.event }
{
    match entry.event {
        Event::Bind { node, .. } => Some(node),
        Event::Expire { node, .. } => Some(node),
        Event::Receive { node, .. } => Some(node),
        _ => None,
    }
}
