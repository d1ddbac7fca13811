//! What is told of a text and its first fault.

ghost use Rattle.am_lab_reasons.specs.Refusals.Lines.{lines_before};
ghost use Rattle.am_lab_reasons.specs.Refusals.Places as places;
ghost use Rattle.am_lab_reasons.specs.Refusals.Refusals.{form_sentence, mark, mark_if, other_form, refusal_text, sentence, sentence_by, shown, shown_line, source_of, source_text, stands_at, stands_for, stands_missing, told_line, told_place};
ghost use Rattle.am_lab_reasons.specs.Refusals.Refusals as texts;
ghost use Rattle.am_lab_reasons.specs.Refusals.Faults as rules;
ghost use Rattle.am_lab_reasons.specs.Refusals.Stands as words;
ghost use Rattle.am_lexer.specs.Text.{has_bytes};
ghost use Rattle.am_scenario.specs.Grammar.{grammar};
ghost use Rattle.std.specs.Prelude.{◌≡◌, ◌++◌, IfOk, OnOk, Some, codes, map, option_map, replicate, take};

use crate::refusals::cuts::{Cut, cut_at, line_at};
use crate::refusals::faults::{joined, reads_behind};
use crate::refusals::places::{first_word, place};
use crate::refusals::words::put_stands;
use am_names::NoMemory;
use am_office_text::LinePiece::Text;
use am_office_text::put_word;
use am_scenario::{Form, ReadFault, ScenarioFault, What, read};
use std::alloc::{AllocError, Global};

fn shown(byte: u8) -> u8
    ensures { result ≡ shown byte }
{
    if 0x20 <= byte && byte <= 0x7e {
        byte
    } else {
        b'?'
    }
}

fn put_shown(out: &mut Vec<u8>, line: &[u8]) -> Result<(), AllocError>
    ensures { OnOk result (out.new.items ≡ out.old.items ++ map shown line.now) }
{
    for byte in line {
        out.push(shown(*byte))?;
    }
    Ok(())
}

#[tactic(auto, using(std::proofs::Common::append_assoc), unfolding(crate::specs::Refusals::Refusals::shown_line))]
fn put_shown_line(out: &mut Vec<u8>, line: &[u8]) -> Result<(), AllocError>
    ensures { OnOk result (out.new.items ≡ out.old.items ++ shown_line line.now) }
{
    put_word(out, Text("  "))?;
    put_shown(out, line)?;
    put_word(out, Text("\n"))
}

// So many spaces.
fn blanks(alloc: Global, count: usize) -> Result<Vec<u8>, AllocError>
    ensures { IfOk result (λ text. text.items ≡ replicate count 32) }
{
    vec![in alloc; b' '; count]
}

#[tactic(auto, using(std::proofs::Common::append_assoc), unfolding(crate::specs::Refusals::Refusals::mark))]
fn put_mark(out: &mut Vec<u8>, alloc: Global, at: usize) -> Result<(), AllocError>
    ensures { OnOk result (out.new.items ≡ out.old.items ++ mark at) }
{
    put_word(out, Text("  "))?;
    out.extend_from_slice(&blanks(alloc, at)?)?;
    put_word(out, Text("^\n"))
}

// The front of a line, of so many bytes at most.
#[tactic(auto, using(std::proofs::lemmas::List::take_all))]
fn front_of(line: &[u8], at: usize) -> &[u8]
    ensures { result.now ≡ take at line.now }
{
    if at <= line.len() { &line[..at] } else { line }
}

// Appends which words might stand in place of the one that begins at a byte of the line.
fn put_stands_for(
    out: &mut Vec<u8>,
    alloc: Global,
    form: Form,
    number: u32,
    before: &[u8],
    line: &[u8],
    at: usize,
) -> Result<(), NoMemory>
    ensures { OnOk result (out.new.items ≡ out.old.items ++ stands_for form number before.now line.now at) }
{
    let text = joined(alloc, before, front_of(line, at))?;
    put_stands(out, alloc, form, number, &text)
}

// Appends which words might stand behind a line.
fn put_stands_behind(
    out: &mut Vec<u8>,
    alloc: Global,
    form: Form,
    number: u32,
    before: &[u8],
    line: &[u8],
) -> Result<(), NoMemory>
    ensures { OnOk result (out.new.items ≡ out.old.items ++ words.stands form number (before.now ++ line.now ++ codes " ")) }
{
    let text = joined(alloc, before, &joined(alloc, line, b" ")?)?;
    put_stands(out, alloc, form, number, &text)
}

// Appends which words might stand behind a line, or in place of its first one.
fn put_missing(
    out: &mut Vec<u8>,
    alloc: Global,
    form: Form,
    number: u32,
    before: &[u8],
    line: &[u8],
    at: usize,
) -> Result<(), NoMemory>
    ensures { OnOk result (out.new.items ≡ out.old.items ++ stands_missing form number before.now line.now at (rules.reads_on form number (before.now ++ line.now))) }
{
    if reads_behind(alloc, form, number, before, line)? {
        put_stands_behind(out, alloc, form, number, before, line)
    } else {
        put_stands_for(out, alloc, form, number, before, line, at)
    }
}

// Appends which words might stand at the place of a fault.
fn put_stands_at(
    out: &mut Vec<u8>,
    alloc: Global,
    form: Form,
    number: u32,
    before: &[u8],
    line: &[u8],
    what: What,
    at: usize,
) -> Result<(), NoMemory>
    ensures { OnOk result (out.new.items ≡ out.old.items ++ stands_at form number before.now line.now what at) }
{
    match what {
        What::UnknownWord
        | What::BadNumber
        | What::OutOfRange
        | What::Undeclared
        | What::OutOfPlace => put_stands_for(out, alloc, form, number, before, line, at),
        What::Missing => put_missing(out, alloc, form, number, before, line, at),
        What::Twice | What::TooMany | What::NotText => Ok(()),
    }
}

// Appends the mark under the place of a fault, and which words might stand there.
#[tactic(auto, using(std::proofs::Common::append_assoc))]
fn put_place(
    out: &mut Vec<u8>,
    alloc: Global,
    form: Form,
    number: u32,
    before: &[u8],
    line: &[u8],
    what: What,
) -> Result<(), NoMemory>
    ensures { OnOk result (out.new.items ≡ out.old.items ++ told_place form number before.now line.now what (places.place form number before.now line.now what)) }
{
    match place(alloc, form, number, before, line, what)? {
        Some(at) => {
            put_mark(out, alloc, at)?;
            put_stands_at(out, alloc, form, number, before, line, what, at)
        }
        None => Ok(()),
    }
}

// Appends the line with the fault.
#[tactic(auto, using(std::proofs::Common::append_assoc))]
fn put_line_of(
    out: &mut Vec<u8>,
    alloc: Global,
    form: Form,
    number: u32,
    cut: &Cut<'_>,
    what: What,
) -> Result<(), NoMemory>
    ensures { OnOk result (out.new.items ≡ out.old.items ++ told_line form number cut.now.before.items (option_map (λ line. line.now) cut.now.line) what) }
{
    match cut.line {
        Some(line) => {
            put_shown_line(out, line)?;
            put_place(out, alloc, form, number, &cut.before, line, what)
        }
        None => {
            put_word(
                out,
                Text(
                    "the text ends there: each scenario has an am2 line, a network line and a nodes line\n",
                ),
            )?;
            Ok(())
        }
    }
}

fn other_form(form: Form) -> Form
    ensures { result ≡ other_form form }
{
    match form {
        Form::Step => Form::Run,
        Form::Run => Form::Step,
    }
}

// Whether the other form's reader finds no fault up to the end of a line.
fn is_read_on(alloc: Global, form: Form, number: u32, text: &[u8]) -> Result<bool, NoMemory>
    ensures { IfOk result (λ on. on ≡ texts.is_read_on number (grammar form text.now)) }
{
    match read(alloc, form, text) {
        Ok(_) => Ok(true),
        Err(ReadFault::Refused(fault)) => Ok(number < fault.line),
        Err(ReadFault::NoMemory) => Err(NoMemory),
    }
}

fn form_sentence(form: Form, on: bool) -> &'static str
    ensures { result.now ≡ form_sentence form on }
{
    match (form, on) {
        (_, false) => "",
        (Form::Step, true) => "run reads on there: the text may be the scenario of a run\n",
        (Form::Run, true) => "step reads on there: the text may be a step script\n",
    }
}

fn sentence_by(form: Form, text: &[u8], on: bool) -> &'static str
    ensures { result.now ≡ sentence_by form (has_bytes text.now) on }
{
    match text {
        [] => "there is no scenario: the text is empty, or begins with a report\n",
        [_, ..] => form_sentence(form, on),
    }
}

// Appends what the text may be instead.
fn put_sentence(
    out: &mut Vec<u8>,
    alloc: Global,
    form: Form,
    number: u32,
    text: &[u8],
) -> Result<(), NoMemory>
    ensures { OnOk result (out.new.items ≡ out.old.items ++ sentence form number text.now) }
{
    let on = is_read_on(alloc, other_form(form), number, text)?;
    put_word(out, Text(sentence_by(form, text, on)))?;
    Ok(())
}

/// Appends what is told of a text that spells no scenario, behind the line that tells its first fault: the line with the fault, with
/// `?` for a byte that may not stand in it; a mark under the place of the fault; which words might stand there, where a word is at
/// fault or missing; and what the text may be instead, where it is empty or the other form reads on.
#[tactic(auto, using(std::proofs::Common::append_assoc), unfolding(crate::specs::Refusals::Refusals::refusal_text))]
pub fn put_refusal(
    out: &mut Vec<u8>,
    alloc: Global,
    form: Form,
    text: &[u8],
    fault: ScenarioFault,
) -> Result<(), NoMemory>
    ensures { OnOk result (out.new.items ≡ out.old.items ++ refusal_text form text.now fault) }
{
    let cut = cut_at(alloc, text, fault.line)?;
    put_line_of(out, alloc, form, fault.line, &cut, fault.what)?;
    put_sentence(out, alloc, form, fault.line, text)
}

fn put_mark_if(out: &mut Vec<u8>, alloc: Global, at: Option<usize>) -> Result<(), AllocError>
    ensures { OnOk result (out.new.items ≡ out.old.items ++ mark_if at) }
{
    match at {
        Some(at) => put_mark(out, alloc, at),
        None => Ok(()),
    }
}

// Appends a line, and the mark under its first word.
#[tactic(auto, using(std::proofs::Common::append_assoc))]
fn put_marked(out: &mut Vec<u8>, alloc: Global, line: &[u8]) -> Result<(), AllocError>
    ensures { OnOk result (out.new.items ≡ out.old.items ++ source_of (Some line.now)) }
{
    put_shown_line(out, line)?;
    put_mark_if(out, alloc, first_word(line))
}

/// Appends the line of a text with this number, counted from 1, and a mark under its first word; nothing where the text has no such
/// line.
#[tactic(auto, unfolding(crate::specs::Refusals::Refusals::source_text))]
pub fn put_source(
    out: &mut Vec<u8>,
    alloc: Global,
    number: u32,
    text: &[u8],
) -> Result<(), AllocError>
    ensures { OnOk result (out.new.items ≡ out.old.items ++ source_text number text.now) }
{
    match line_at(text, number.saturating_sub(1)) {
        Some(line) => put_marked(out, alloc, line),
        None => Ok(()),
    }
}
