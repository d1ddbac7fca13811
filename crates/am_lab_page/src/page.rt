//! The command `page`: a report as one page for a browser, with its journal, its picture and what each entry changes in it.

ghost use Rattle.am_check.specs.Exact.{IsChecked};
ghost use Rattle.am_lab_drawings.specs.Charts.{ChartAnswers};
ghost use Rattle.am_lab_page.specs.Json.Answers.{JsonAnswers};
ghost use Rattle.am_lab_page.specs.Page.Pages as pages;
ghost use Rattle.am_lab_page.specs.Page.Pages.{PageAnswers, changes_element, page_of};
ghost use Rattle.am_main_lines.specs.Lines.{answer_in};
ghost use Rattle.std.specs.Prelude.{◌≡◌, ◌<◌, ◌^◌, ◌++◌, IfOk, OnOk, length, option_map};

mod back;
mod changes;
mod front;
mod laws;
mod middle;
mod side;

use crate::json::json_output;
use crate::page::back::BACK;
use crate::page::changes::{checked_changes, put_changes};
use crate::page::front::FRONT;
pub use crate::page::laws::{changes_begin_no_tag, journals_end_no_script};
use crate::page::middle::MIDDLE;
use crate::page::side::SIDE;
use am_lab_drawings::chart_output;
use am_main_lines::Output;
use am_names::NoMemory;
use am_scenario::Form;
use std::alloc::{AllocError, Global};

// Appends four texts.
fn put_texts(
    text: &mut Vec<u8>,
    journal: &[u8],
    middle: &str,
    picture: &[u8],
    back: &str,
) -> Result<(), AllocError>
    ensures { OnOk result (text.new.items ≡ text.old.items ++ journal.now ++ middle.now ++ picture.now ++ back.now) }
{
    text.extend_from_slice(journal)?;
    text.extend_from_slice(middle.as_bytes())?;
    text.extend_from_slice(picture)?;
    text.extend_from_slice(back.as_bytes())
}

// Five texts, one behind the other.
fn joined(
    alloc: Global,
    front: &str,
    journal: &[u8],
    middle: &str,
    picture: &[u8],
    back: &str,
) -> Result<Vec<u8>, AllocError>
    ensures { IfOk result (λ text. text.items ≡ front.now ++ journal.now ++ middle.now ++ picture.now ++ back.now) }
{
    let mut text = Vec::from_slice(alloc, front.as_bytes())?;
    put_texts(&mut text, journal, middle, picture, back)?;
    Ok(text)
}

// Appends the changes, and the text behind them.
fn put_last(text: &mut Vec<u8>, told: Option<Vec<u8>>, back: &str) -> Result<(), AllocError>
    ensures { OnOk result (text.new.items ≡ text.old.items ++ changes_element (option_map (λ t. t.items) told) ++ back.now) }
{
    put_changes(text, told)?;
    text.extend_from_slice(back.as_bytes())
}

// The page round a journal, a picture and changes.
fn page_text(
    alloc: Global,
    journal: &[u8],
    picture: &[u8],
    told: Option<Vec<u8>>,
) -> Result<Vec<u8>, AllocError>
    ensures { IfOk result (λ text. text.items ≡ page_of journal.now picture.now (option_map (λ t. t.items) told)) }
{
    let mut text = joined(alloc, FRONT, journal, MIDDLE, picture, SIDE)?;
    put_last(&mut text, told, BACK)?;
    Ok(text)
}

// The page of a right report, with this journal and this picture.
fn page_with(
    alloc: Global,
    form: Form,
    bytes: &[u8],
    journal: &[u8],
    picture: &[u8],
) -> Result<Output, NoMemory>
    requires few { length bytes.now < 2 ^ 31 }
    requires checked { IsChecked form bytes.now }
    ensures { (checked : IsChecked form bytes.now) → IfOk result (λ o. answer_in o ≡ pages.page_with journal.now picture.now checked.scenario checked.report.journal) }
{
    let told = checked_changes(alloc, form, bytes)?;
    let text = page_text(alloc, journal, picture, told)?;
    Ok(Output { status: 0, text })
}

// The page of a report whose journal is told, or why it isn't drawn.
#[tactic(auto, using(crate::proofs::Paging::undrawn))]
fn told_drawn(alloc: Global, form: Form, bytes: &[u8], told: &Output) -> Result<Output, NoMemory>
    requires few { length bytes.now < 2 ^ 31 }
    requires tells { JsonAnswers form bytes.now (answer_in told.now) }
    requires right { told.now.status ≡ 0 }
    ensures { IfOk result (λ o. PageAnswers form bytes.now (answer_in o)) }
{
    let drawn = chart_output(alloc, form, bytes, None)?;
    if drawn.status != 0 {
        return Ok(drawn);
    }
    page_with(alloc, form, bytes, &told.text, &drawn.text)
}

/// What `page` prints of a scenario and its report: one HTML file that needs nothing else, in which stand what `json` prints, what
/// `chart` draws and, where the report has at most 2,000 entries, what each of them changes, with a style and a script round them
/// (`page_of` of `specs/Page/Pages.antt`). More than 20,000 lines are told as `chart` tells them, with status 11. Of a text to which
/// `check` doesn't say yes it prints what `check` does.
///
/// `NoMemory` comes where there is none for the journal that is made again, for the picture, for the changes, or for the text.
#[tactic(auto, using(crate::proofs::Paging::untold))]
pub fn page_output(alloc: Global, form: Form, bytes: &[u8]) -> Result<Output, NoMemory>
    requires { length bytes.now < 2 ^ 31 }
    ensures { IfOk result (λ o. PageAnswers form bytes.now (answer_in o)) }
{
    let told = json_output(alloc, form, bytes)?;
    if told.status != 0 {
        return Ok(told);
    }
    told_drawn(alloc, form, bytes, &told)
}
