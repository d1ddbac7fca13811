//! The picture of one message of a right report, drawn.

ghost use Rattle.am_check.specs.Exact.{IsChecked};
ghost use Rattle.am_lab_drawings.specs.Messages.{ChartsMessage, message_drawing, never_accepted};
ghost use Rattle.am_lab_picture.specs.Rows.{AreInOrder};
ghost use Rattle.am_main_lines.specs.Lines.{answer_in};
ghost use Rattle.std.specs.Prelude.{◌≡◌, ◌≤◌, ◌<◌, ◌^◌, IfOk, length};

use crate::charts::too_many_rows;
use crate::view::{MOST_ROWS, Picture, message_picture};
use am_lab_chart::chart;
use am_main_lines::Output;
use am_names::{NoMemory, Serial};
use am_office_text::{LinePiece, put_line};
use am_scenario::{Form, one_scenario_or_fault};
use std::alloc::Global;

fn never_accepted(alloc: Global, serial: Serial) -> Result<Output, NoMemory>
    ensures { IfOk result (λ o. answer_in o ≡ never_accepted serial) }
{
    let mut text = Vec::new(alloc);
    put_line(
        &mut text,
        "message",
        &[
            LinePiece::Serial(serial),
            LinePiece::Text("was never accepted"),
        ],
    )?;
    Ok(Output { status: 0, text })
}

// The drawing of a message's picture.
fn drawn(alloc: Global, serial: Serial, picture: &Picture) -> Result<Output, NoMemory>
    requires order { AreInOrder picture.now.rows }
    requires lanes { length picture.now.lanes ≤ 256 }
    ensures { IfOk result (λ o. answer_in o ≡ message_drawing serial picture.now) }
{
    if picture.rows.len() == 0 {
        return never_accepted(alloc, serial);
    }
    if picture.rows.len() > MOST_ROWS as usize {
        return too_many_rows(alloc);
    }
    let text = chart(alloc, picture)?;
    Ok(Output { status: 0, text })
}

/// What `chart` prints of a message of a text to which `check` says yes, whose scenario declares the message's endpoint: the
/// picture of the lines that touch the message, as SVG. Of a message that no line touches it prints what `why` does, and of
/// more than 20,000 such lines `more than 20000 lines`, with status 11.
///
/// `NoMemory` comes where there is none for the journal that is made again, for the picture, or for the text.
pub fn message_chart(
    alloc: Global,
    form: Form,
    bytes: &[u8],
    serial: Serial,
) -> Result<Output, NoMemory>
    requires few { length bytes.now < 2 ^ 31 }
    requires checked { IsChecked form bytes.now }
    ensures { IfOk result (λ o. ChartsMessage form bytes.now serial (answer_in o)) }
{
    one_scenario_or_fault();
    let picture = message_picture(alloc, form, bytes, serial)?;
    drawn(alloc, serial, &picture)
}
