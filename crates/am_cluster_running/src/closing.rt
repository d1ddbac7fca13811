//! How the links of all nodes are closed.

ghost use Rattle.am_cluster_running.specs.Closing.{AreClosed, AreLinkedEnds, IsLinkedRow, IsRowClosed};
ghost use Rattle.am_wire.specs.declared.sending.LinkOut.{LinkOut};
ghost use Rattle.std.specs.Prelude.{IfOk};

use am_office_entries::NoMemory;
use am_wire::{LinkIn, LinkOut, LinkRecord, close};
use std::alloc::Global;

/// Closes the links from a node: the other end of each is the first one that is left at its node.
fn close_row(
    alloc: Global,
    outs: Vec<LinkOut>,
    ins: &mut [Vec<LinkIn>],
) -> Result<Vec<LinkRecord>, NoMemory>
    requires linked { IsLinkedRow outs.items ins.old }
    ensures closed { IfOk result (λ records. IsRowClosed outs.items ins.old records.items ins.new) }
{
    let mut records = Vec::with_capacity(alloc, outs.len())?;
    for out in outs {
        let to = records.len();
        let inn = ins[to].remove(0);
        records.push(close(alloc, out, inn)?)?;
    }
    Ok(records)
}

/// Closes all links: for each node, and each node to which it sends, what went over the link.
pub(crate) fn close_links(
    alloc: Global,
    outs: Vec<Vec<LinkOut>>,
    mut ins: Vec<Vec<LinkIn>>,
) -> Result<Vec<Vec<LinkRecord>>, NoMemory>
    requires linked { AreLinkedEnds outs.items ins.items }
    ensures closed { IfOk result (λ records. AreClosed outs.items ins.items records.items) }
{
    let mut records = Vec::with_capacity(alloc, outs.len())?;
    for row in outs {
        records.push(close_row(alloc, row, &mut ins)?)?;
    }
    Ok(records)
}
