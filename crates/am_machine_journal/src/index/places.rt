//! Where the numbers of a node or a link stand among those of all.

ghost use Rattle.am_machine_journal.specs.Index.Places as at;
ghost use Rattle.std.specs.Prelude.{◌≡◌, ◌+◌, ◌<◌, ◌^◌, IfSome, length, slice_index_or};

use am_names::NodeId;
use am_office_entries::Event;

/// The place of a link.
pub(crate) fn link(from: NodeId, to: NodeId) -> usize
    ensures { result ≡ at.link from to }
{
    16 * from.0 as usize + to.0 as usize
}

/// The place of the link whose packet is received, if one is.
pub(crate) fn receipt_place(event: &Event) -> Option<usize>
    ensures { result ≡ at.receipt_place event.now }
{
    match event {
        Event::Receive { node, peer, .. } => Some(link(*peer, *node)),
        _ => None,
    }
}

/// Counts one more at the place, if there is one.
pub(crate) fn count(counts: &mut [u64], place: Option<usize>)
    requires within { IfSome place (λ k. k < length counts.old) }
    requires small { IfSome place (λ k. slice_index_or counts.old k 0 + 1 < 2 ^ 64) }
    ensures { counts.new ≡ at.counted place counts.old }
{
    if let Some(at) = place {
        counts[at] += 1;
    }
}
