//! The ends that receive, by the nodes that have them.

ghost use Rattle.am_wire.specs.AllLinks.Links.{AreSpread};
ghost use Rattle.am_wire.specs.declared.receiving.LinkIn.{LinkIn as End};
ghost use Rattle.std.specs.Global.{Vec as Column};
ghost use Rattle.std.specs.Prelude.{◌≡◌, ℕ, Some, [], ◌∷◌, ◌++◌, IfOk, OnErr, OnOk, length, slice_get};

use crate::LinkIn;
use am_names::NoMemory;
use std::alloc::Global;

/// So many empty lists.
pub(crate) fn open_columns(alloc: Global, nodes: u8) -> Result<Vec<Vec<LinkIn>>, NoMemory>
    ensures all { IfOk result (λ columns. length columns.items ≡ nodes) }
    ensures none { IfOk result (λ columns. (k : ℕ) (column : Column End) → slice_get columns.items k ≡ Some column → column.items ≡ []) }
{
    let mut columns = Vec::new(alloc);
    for _node in 0..nodes {
        columns.push(Vec::new(alloc))?;
    }
    Ok(columns)
}

/// Puts an end last. Without memory it is dropped, and the list is as it was.
fn put(column: &mut Vec<LinkIn>, end: LinkIn) -> Result<(), NoMemory>
    ensures ok { OnOk result (column.new.items ≡ column.old.items ++ end ∷ []) }
    ensures err { OnErr result (column.new.items ≡ column.old.items) }
{
    column.push(end)?;
    Ok(())
}

/// Puts each end last in the list with its place. Without memory some of them were put, and the others are dropped: the lists are
/// of no further use.
pub(crate) fn spread(mut ends: Vec<LinkIn>, columns: &mut Vec<Vec<LinkIn>>) -> Result<(), NoMemory>
    requires { length ends.items ≡ length columns.old.items }
    ensures { OnOk result (AreSpread ends.items columns.old.items columns.new.items) }
{
    while let Some(end) = ends.pop() {
        put(&mut columns[ends.len()], end)?;
    }
    Ok(())
}
