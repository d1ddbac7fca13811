//! The endpoints of a node as they begin: their numbers, the driver's view of them, and the books that stand for them.

ghost use Rattle.am_workers_laws.specs.Books.Books.{IsBook};
ghost use Rattle.am_workers_laws.specs.declared.books.EndBook.{EndBook as Book};
ghost use Rattle.am_endpoint.specs.View.{EndpointView};
ghost use Rattle.am_model.specs.Layout.{AllAre};
ghost use Rattle.am_cluster_opening.specs.Node.Openings.{lines_of};
ghost use Rattle.std.specs.Prelude.{◌≡◌, [], None, IfOk, map};

use am_driver::line_of;
use am_driver_moves::choice::View;
use am_endpoint::Endpoint;
use am_names::{EndpointId, NoMemory};
use am_workers_laws::books::EndBook;
use std::alloc::Global;

/// The numbers of the endpoints, in their order.
pub(crate) fn ids_of(alloc: Global, ends: &[Endpoint]) -> Result<Vec<EndpointId>, NoMemory>
    ensures { IfOk result (λ ids. ids.items ≡ map (λ (e : EndpointView). e.settings.id) ends.now) }
{
    let mut ids = Vec::new(alloc);
    for end in ends {
        ids.push(end.id())?;
    }
    Ok(ids)
}

/// What a driver sees of a node with these endpoints and so many frames, of whose endpoints so many stay on the host.
pub(crate) fn view_of(
    alloc: Global,
    ends: &[Endpoint],
    frames: u8,
    keep: u8,
) -> Result<View, NoMemory>
    ensures { IfOk result (λ view. view ≡ record { ends = lines_of ends.now; frames = frames; keep = keep; last = None }) }
{
    let mut lines = Vec::new(alloc);
    for end in ends {
        lines.push(line_of(end))?;
    }
    Ok(View {
        ends: lines,
        frames,
        keep,
        last: None,
    })
}

/// The book of an endpoint.
fn book_of(alloc: Global, end: Endpoint) -> Result<EndBook, NoMemory>
    requires { IsBook end }
    ensures { IfOk result (λ book. book.end.value ≡ end) }
{
    let end = Box::new(alloc, end)?;
    Ok(EndBook { end })
}

/// The books of the endpoints, which are taken out of their list, in their order.
pub(crate) fn books_of(alloc: Global, ends: &mut Vec<Endpoint>) -> Result<Vec<EndBook>, NoMemory>
    requires { AllAre IsBook ends.old.items }
    ensures { IfOk result (λ books. map (λ (b : Book). b.end.value) books.items ≡ ends.old.items) }
{
    let mut books = Vec::new(alloc);
    ends.reverse();
    while let Some(end) = ends.pop() {
        let book = book_of(alloc, end)?;
        books.push(book)?;
    }
    Ok(books)
}
