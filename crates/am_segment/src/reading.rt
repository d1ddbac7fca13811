//! The expansion of a text with segments.

ghost use Rattle.std.specs.Prelude.{◌≡◌, ◌≤◌, ◌+◌, ◌*◌, OnOk, IfOk, length};
ghost use Rattle.am_lexer.specs.Text.{words_of};
ghost use Rattle.am_segment_pieces.specs.Blocks.{piece_count};
ghost use Rattle.am_segment.specs.Drafts.{laid};
ghost use Rattle.am_segment.specs.Laid.{is_declared, with_end, with_ordinary, with_segment};
ghost use Rattle.am_segment.specs.Expansion.{Answers, Changes, after_line, after_own, expanded_of, expansion, with_serve, with_transfer};

use crate::expansion::{Expanded, Expansion};
use crate::own::{Own, declared_by, is_script, own_of};
use crate::saying::{Sent, Served, segment_line, serve_line, transfer_line};
use crate::texts::{put_ordinary, put_origins, put_serve, put_transfer};
use am_lexer::{What, is_text, next_line};
use am_scenario::drafts::LineFault;
use am_scenario_types::ReadFault;
use am_segment_pieces::SegmentLine;
use std::alloc::{AllocError, Global};

fn is_declared(ends: &[u8], number: u64) -> bool
    ensures { result ≡ is_declared ends.now number }
{
    ends.iter().any(|end| u64::from(*end) == number)
}

// One endpoint more is declared, if there is one that an endpoint may have and that isn't declared yet.
fn add_end(ends: &mut Vec<u8>, number: Option<u64>) -> Result<(), AllocError>
    ensures { OnOk result (ends.new.items ≡ with_end ends.old.items number) }
{
    let Some(number) = number else {
        return Ok(());
    };
    if number <= 255 && !is_declared(ends, number) {
        ends.push(number as u8)?;
    }
    Ok(())
}

// A line that isn't an own line stays.
fn take_ordinary(said: &mut Expansion, number: u32, line: &[u8]) -> Result<(), AllocError>
    ensures { OnOk result (laid said.new ≡ with_ordinary number (laid said.old) line.now (words_of line.now)) }
{
    put_ordinary(&mut said.text, line)?;
    put_origins(&mut said.origin, 1, number)?;
    add_end(&mut said.ends, declared_by(line))?;
    said.scripted = said.scripted | is_script(line);
    Ok(())
}

// A segment's line is left out.
fn take_segment(said: &mut Expansion, segment: SegmentLine) -> Result<(), AllocError>
    requires { segment.size ≤ 65536 }
    ensures { OnOk result (laid said.new ≡ with_segment (laid said.old) segment) }
{
    said.segments.push(segment)?;
    Ok(())
}

// A transfer becomes a request and a poll for each piece.
fn take_transfer(
    said: &mut Expansion,
    number: u32,
    thread: u64,
    sent: Sent,
) -> Result<(), AllocError>
    requires { said.old.calls + 2 * piece_count sent.transfer ≤ 16384 }
    ensures { OnOk result (laid said.new ≡ with_transfer number thread (laid said.old) sent) }
{
    let calls = 2 * sent.transfer.piece_count();
    let transfer = said.transfers.len() as u32 + 1;
    put_transfer(&mut said.text, transfer, thread, &sent)?;
    put_origins(&mut said.origin, calls, number)?;
    said.scripted = true;
    said.calls += calls;
    said.transfers.push(sent.transfer)?;
    Ok(())
}

// Many polls.
fn take_serve(
    said: &mut Expansion,
    number: u32,
    thread: u64,
    served: Served,
) -> Result<(), AllocError>
    requires { said.old.calls + served.polls ≤ 16384 }
    ensures { OnOk result (laid said.new ≡ with_serve number thread (laid said.old) served) }
{
    put_serve(&mut said.text, thread, served)?;
    put_origins(&mut said.origin, served.polls, number)?;
    said.scripted = true;
    said.calls += served.polls;
    Ok(())
}

#[tactic(auto, unfolding(crate::specs::Expansion::after_own))]
fn take_own(
    alloc: Global,
    said: &mut Expansion,
    number: u32,
    own: Own,
    rest: &[u8],
) -> Result<(), LineFault>
    ensures { Changes result (laid said.new) (after_own number (laid said.old) own (words_of rest.now)) }
{
    match own {
        Own::Segment => {
            let segment = segment_line(said, rest)?;
            take_segment(said, segment)?;
        }
        Own::Transfer(thread) => {
            let sent = transfer_line(alloc, said, rest)?;
            take_transfer(said, number, thread, sent)?;
        }
        Own::Serve(thread) => {
            let served = serve_line(said, rest)?;
            take_serve(said, number, thread, served)?;
        }
    }
    Ok(())
}

// Takes one line.
#[tactic(auto, unfolding(crate::specs::Expansion::after_line))]
fn take_line(alloc: Global, said: &mut Expansion, number: u32, line: &[u8]) -> Result<(), LineFault>
    ensures { Changes result (laid said.new) (after_line number (laid said.old) line.now) }
{
    let Some((own, rest)) = own_of(line) else {
        take_ordinary(said, number, line)?;
        return Ok(());
    };
    if !is_text(line) {
        return Err(LineFault::What(What::NotText));
    }
    take_own(alloc, said, number, own, rest)
}

// What all lines together have said.
fn expanded(said: Expansion) -> Expanded
    ensures exact { result ≡ expanded_of (laid said) }
    ensures few { length result.transfers ≤ 16384 }
{
    let Expansion {
        ends: _,
        scripted: _,
        segments,
        transfers,
        calls: _,
        text,
        origin,
    } = said;
    Expanded {
        text,
        origin,
        segments,
        transfers,
    }
}

/// The text of a scenario in the form Run that the bytes stand for, with its segments and transfers; or the first own line that has
/// a fault, and the fault. The rules are in docs/MANUAL.md, 'Segments'. Ordinary lines stay, whatever they say: `am_scenario::read`
/// refuses them. A line's number stands still at 2^32-1. Without memory the answer is `NoMemory`, and nothing is left of the text.
pub fn expand(alloc: Global, bytes: &[u8]) -> Result<Expanded, ReadFault>
    ensures exact { Answers result (expansion bytes.now) }
    ensures few { IfOk result (λ e. length e.transfers ≤ 16384) }
{
    let mut said = Expansion::new(alloc);
    let mut number: u32 = 1;
    let mut rest = bytes;
    while let Some((line, after)) = next_line(rest) {
        if let Err(fault) = take_line(alloc, &mut said, number, line) {
            return Err(fault.at_line(number));
        }
        number = number.saturating_add(1);
        rest = after;
    }
    Ok(expanded(said))
}
