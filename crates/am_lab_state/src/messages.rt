//! The messages of an endpoint.

ghost use Rattle.am_lab_arrivals.specs.Arrivals.{received_line};
ghost use Rattle.am_lab_state.specs.Ends.{answered_word, flying_line, message_lines, notice_line, queued_line};
ghost use Rattle.std.specs.List.{flat_map};
ghost use Rattle.std.specs.Prelude.{◌≡◌, ◌++◌, OnOk};

use crate::flights::flights;
use am_block::List;
use am_endpoint::Body;
use am_lab_arrivals::put_arrivals;
use am_model::{Flying, Notice, Queued};
use am_names::{EndpointId, NoMemory};
use am_office_text::LinePiece::Text;
use am_office_text::{LinePiece, kind_word, put_line, small, why_word};
use std::alloc::{AllocError, Global};

// Appends a message that is to be sent.
fn put_queued(out: &mut Vec<u8>, end: EndpointId, queued: &Queued) -> Result<(), AllocError>
    ensures { OnOk result (out.new.items ≡ out.old.items ++ queued_line end queued.now) }
{
    put_line(
        out,
        "endpoint",
        &[
            small(end.0),
            Text("queued"),
            Text(kind_word(queued.message.kind)),
            LinePiece::Serial(queued.message.serial),
            Text("bounces"),
            small(queued.bounces),
        ],
    )
}

// Appends the messages of a queue.
fn put_queue(out: &mut Vec<u8>, end: EndpointId, queue: &[Queued]) -> Result<(), AllocError>
    ensures { OnOk result (out.new.items ≡ out.old.items ++ flat_map (queued_line end) queue.now) }
{
    for queued in queue {
        put_queued(out, end, queued)?;
    }
    Ok(())
}

fn answered_word(answered: bool) -> &'static str
    ensures { result.now ≡ answered_word answered }
{
    if answered { "answered" } else { "unanswered" }
}

// Appends a message in flight.
fn put_flying(out: &mut Vec<u8>, end: EndpointId, flying: &Flying) -> Result<(), AllocError>
    ensures { OnOk result (out.new.items ≡ out.old.items ++ flying_line end flying.now) }
{
    put_line(
        out,
        "endpoint",
        &[
            small(end.0),
            Text("in-flight"),
            Text(kind_word(flying.message.kind)),
            LinePiece::Serial(flying.message.serial),
            Text("bounces"),
            small(flying.bounces),
            Text(answered_word(flying.answered)),
        ],
    )
}

// Appends the messages in flight.
fn put_flights(out: &mut Vec<u8>, end: EndpointId, flights: &[Flying]) -> Result<(), AllocError>
    ensures { OnOk result (out.new.items ≡ out.old.items ++ flat_map (flying_line end) flights.now) }
{
    for flying in flights {
        put_flying(out, end, flying)?;
    }
    Ok(())
}

// Appends a message that came back.
fn put_notice(out: &mut Vec<u8>, end: EndpointId, notice: &Notice) -> Result<(), AllocError>
    ensures { OnOk result (out.new.items ≡ out.old.items ++ notice_line end notice.now) }
{
    put_line(
        out,
        "endpoint",
        &[
            small(end.0),
            Text("notice"),
            Text(kind_word(notice.message.kind)),
            LinePiece::Serial(notice.message.serial),
            Text("bounces"),
            small(notice.bounces),
            Text(why_word(notice.why)),
        ],
    )
}

// Appends the messages that came back.
fn put_notices(out: &mut Vec<u8>, end: EndpointId, notices: &[Notice]) -> Result<(), AllocError>
    ensures { OnOk result (out.new.items ≡ out.old.items ++ flat_map (notice_line end) notices.now) }
{
    for notice in notices {
        put_notice(out, end, notice)?;
    }
    Ok(())
}

// Appends the replies and then the requests that are to be sent.
#[tactic(auto, using(std::proofs::Common::append_assoc))]
fn put_queues(
    out: &mut Vec<u8>,
    alloc: Global,
    end: EndpointId,
    body: &Body,
) -> Result<(), NoMemory>
    ensures { OnOk result (out.new.items ≡ out.old.items ++ flat_map (queued_line end) body.now.body.replies ++ flat_map (queued_line end) body.now.body.requests) }
{
    put_queue(out, end, &body.replies(alloc)?)?;
    put_queue(out, end, &body.requests(alloc)?)?;
    Ok(())
}

// Appends the messages in flight.
fn put_flying_of(
    out: &mut Vec<u8>,
    alloc: Global,
    end: EndpointId,
    body: &Body,
) -> Result<(), NoMemory>
    ensures { OnOk result (out.new.items ≡ out.old.items ++ flat_map (flying_line end) body.now.body.in_flight) }
{
    put_flights(out, end, &flights(alloc, &body.block, List::InFlight)?)?;
    Ok(())
}

// Appends the messages that came back, and those that were received.
#[tactic(auto, using(std::proofs::Common::append_assoc))]
fn put_come(out: &mut Vec<u8>, alloc: Global, end: EndpointId, body: &Body) -> Result<(), NoMemory>
    ensures { OnOk result (out.new.items ≡ out.old.items ++ flat_map (notice_line end) body.now.body.notices ++ flat_map (received_line end) body.now.body.received) }
{
    put_notices(out, end, &body.notices(alloc)?)?;
    put_arrivals(out, end, &body.received(alloc)?)?;
    Ok(())
}

/// Appends the messages of an endpoint. `NoMemory` comes where there is none for copies of its lists or for the text.
#[tactic(auto, using(std::proofs::Common::append_assoc))]
pub(crate) fn put_messages(
    out: &mut Vec<u8>,
    alloc: Global,
    end: EndpointId,
    body: &Body,
) -> Result<(), NoMemory>
    ensures { OnOk result (out.new.items ≡ out.old.items ++ message_lines end body.now.body) }
{
    put_queues(out, alloc, end, body)?;
    put_flying_of(out, alloc, end, body)?;
    put_come(out, alloc, end, body)
}
