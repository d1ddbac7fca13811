//! The lines that stand in the text for own lines.

ghost use Rattle.std.specs.Prelude.{◌≡◌, ◌++◌, [], ◌∷◌, OnOk, replicate};
ghost use Rattle.std.specs.List.{flat_map};
ghost use Rattle.am_segment.specs.Laid.{closed};
ghost use Rattle.am_segment.specs.Texts.{poll_line, request_line, serve_lines, transfer_lines};

use crate::saying::{Sent, Served};
use am_names::{EndpointId, Words};
use am_office_text::LinePiece::{Number, Text};
use am_office_text::{put_end, put_spaced, put_word, small};
use std::alloc::AllocError;

// Appends `tT poll E`.
#[tactic(auto, using(std::proofs::Common::append_assoc), unfolding(crate::specs::Texts::poll_line))]
fn put_poll(out: &mut Vec<u8>, thread: u64, end: EndpointId) -> Result<(), AllocError>
    ensures { OnOk result (out.new.items ≡ out.old.items ++ closed (poll_line thread end)) }
{
    put_word(out, Text("t"))?;
    put_word(out, Number(thread))?;
    put_spaced(out, &[Text("poll"), small(end.0)])?;
    put_end(out)
}

// Appends `tT request E I H A B C D`.
#[tactic(auto, using(std::proofs::Common::append_assoc), unfolding(crate::specs::Texts::request_line))]
fn put_request(out: &mut Vec<u8>, thread: u64, sent: &Sent, words: Words) -> Result<(), AllocError>
    ensures { OnOk result (out.new.items ≡ out.old.items ++ closed (request_line thread sent.now.end sent.now.index sent.now.handler words)) }
{
    let (end, index, handler) = (small(sent.end.0), small(sent.index), small(sent.handler));
    let (a, b, c, d) = (
        Number(words.a),
        Number(words.b),
        Number(words.c),
        Number(words.d),
    );
    put_word(out, Text("t"))?;
    put_word(out, Number(thread))?;
    put_spaced(out, &[Text("request"), end, index, handler, a, b, c, d])?;
    put_end(out)
}

/// Appends the lines of a transfer, which has this number: for each piece a request and a poll.
pub(crate) fn put_transfer(
    out: &mut Vec<u8>,
    number: u32,
    thread: u64,
    sent: &Sent,
) -> Result<(), AllocError>
    ensures { OnOk result (out.new.items ≡ out.old.items ++ flat_map closed (transfer_lines number thread sent.now)) }
{
    for k in 0..sent.transfer.piece_count() {
        let words = sent.transfer.piece_at(number, k).words();
        put_request(out, thread, sent, words)?;
        put_poll(out, thread, sent.end)?;
    }
    Ok(())
}

/// Appends the lines of many polls.
pub(crate) fn put_serve(out: &mut Vec<u8>, thread: u64, served: Served) -> Result<(), AllocError>
    ensures { OnOk result (out.new.items ≡ out.old.items ++ flat_map closed (serve_lines thread served)) }
{
    for _ in 0..served.polls {
        put_poll(out, thread, served.end)?;
    }
    Ok(())
}

/// Appends a line as it stands, and its end.
pub(crate) fn put_ordinary(out: &mut Vec<u8>, line: &[u8]) -> Result<(), AllocError>
    ensures { OnOk result (out.new.items ≡ out.old.items ++ flat_map closed (line.now ∷ [])) }
{
    out.extend_from_slice(line)?;
    put_end(out)
}

/// So many lines come from the line with this number.
pub(crate) fn put_origins(origin: &mut Vec<u32>, count: u32, number: u32) -> Result<(), AllocError>
    ensures { OnOk result (origin.new.items ≡ origin.old.items ++ replicate count number) }
{
    for _ in 0..count {
        origin.push(number)?;
    }
    Ok(())
}
