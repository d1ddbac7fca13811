//! A body made of its lists.

ghost use Rattle.am_endpoint_body.specs.Views.{slots_held};
ghost use Rattle.am_swap.specs.Made.{CanBeMade, is_queued_answer, is_queued_request};
ghost use Rattle.std.specs.List.{list_all};
ghost use Rattle.std.specs.Prelude.{◌≡◌, ◌+◌, ◌≤◌, ◌++◌, [], true, IfOk, length};

use am_endpoint_body::Body;
use am_handlers::Handlers;
use am_model::{Notice, Queued};
use am_names::Message;
use am_office_entries::NoMemory;
use am_swap_codec::BodyLists;
use am_translate::Translate;
use std::alloc::Global;

/// Requests go behind those that are to be sent.
fn add_requests(body: &mut Body, queue: &[Queued])
    requires requests { list_all is_queued_request queue.now ≡ true }
    requires room { slots_held body.old.body + length queue.now ≤ 80 }
    ensures { body.new ≡ record body.old { body = record body.old.body { requests = body.old.body.requests ++ queue.now } } }
{
    for queued in queue {
        body.queue(queued.message, queued.bounces);
    }
}

/// Replies and empty replies go behind those that are to be sent.
fn add_answers(body: &mut Body, queue: &[Queued])
    requires answers { list_all is_queued_answer queue.now ≡ true }
    requires room { slots_held body.old.body + length queue.now ≤ 80 }
    ensures { body.new ≡ record body.old { body = record body.old.body { replies = body.old.body.replies ++ queue.now } } }
{
    for answer in queue {
        body.queue(answer.message, answer.bounces);
    }
}

/// Messages that came back go behind the others.
fn add_notices(body: &mut Body, notices: &[Notice])
    requires { slots_held body.old.body + length notices.now ≤ 80 }
    ensures { body.new ≡ record body.old { body = record body.old.body { notices = body.old.body.notices ++ notices.now } } }
{
    for notice in notices {
        body.add_notice(notice.message, notice.bounces, notice.why);
    }
}

/// Messages that were received go behind the others.
fn add_received(body: &mut Body, received: &[Message])
    requires { slots_held body.old.body + length received.now ≤ 80 }
    ensures { body.new ≡ record body.old { body = record body.old.body { received = body.old.body.received ++ received.now } } }
{
    for message in received {
        body.add_received(*message);
    }
}

/// The body with these lists, and this pool or none.
pub(crate) fn body_of(alloc: Global, pool: Option<u8>, lists: &BodyLists) -> Result<Body, NoMemory>
    requires { CanBeMade pool lists.now }
    ensures { IfOk result (λ body. body ≡ record { pool = pool; body = lists.now; flights = [] }) }
{
    let translate = Translate::restored(pool, &lists.mapped, &lists.awaited);
    let handlers = Handlers::restored(&lists.handlers);
    let mut body = Body::bare(
        alloc,
        lists.tag,
        lists.sum,
        lists.accepted,
        translate,
        handlers,
    )?;
    add_requests(&mut body, &lists.requests);
    add_answers(&mut body, &lists.replies);
    add_notices(&mut body, &lists.notices);
    add_received(&mut body, &lists.received);
    Ok(body)
}
