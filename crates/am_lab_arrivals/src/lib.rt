//! The messages that an endpoint received and did not poll, as lines.
#![tactic(auto)]

ghost use Rattle.am_lab_arrivals.specs.Arrivals.{received_line};
ghost use Rattle.std.specs.List.{flat_map};
ghost use Rattle.std.specs.Prelude.{◌≡◌, ◌++◌, OnOk};

use am_names::{EndpointId, Message};
use am_office_text::LinePiece::Text;
use am_office_text::{LinePiece, kind_word, put_line, small};
use std::alloc::AllocError;

// Appends a message.
fn put_arrival(out: &mut Vec<u8>, end: EndpointId, message: &Message) -> Result<(), AllocError>
    ensures { OnOk result (out.new.items ≡ out.old.items ++ received_line end message.now) }
{
    put_line(
        out,
        "endpoint",
        &[
            small(end.0),
            Text("received"),
            Text(kind_word(message.kind)),
            LinePiece::Serial(message.serial),
        ],
    )
}

/// Appends the messages that an endpoint received and did not poll, each in a line, in the order in which they are given. Err where
/// there is no memory for the text.
pub fn put_arrivals(
    out: &mut Vec<u8>,
    end: EndpointId,
    received: &[Message],
) -> Result<(), AllocError>
    ensures { OnOk result (out.new.items ≡ out.old.items ++ flat_map (received_line end) received.now) }
{
    for message in received {
        put_arrival(out, end, message)?;
    }
    Ok(())
}
