//! What a command gives to print.

ghost use Rattle.std.specs.Prelude.{◌≡◌, IfOk};
ghost use Rattle.am_main_lines.specs.Lines.{answer_in, full_line, refusal};

use crate::words::{full_line, refused_line};
use am_office_entries::Part;
use am_scenario_types::ScenarioFault;
use std::alloc::{AllocError, Global};

/// A status, and the text that is printed with it.
#[derive(Drop)]
pub struct Output {
    pub status: u8,
    pub text: Vec<u8>,
}

/// What is printed of a text's first fault.
pub fn fault_output(alloc: Global, fault: ScenarioFault) -> Result<Output, AllocError>
    ensures { IfOk result (λ output. answer_in output ≡ refusal fault) }
{
    let text = refused_line(alloc, fault)?;
    Ok(Output { status: 3, text })
}

/// What is printed of a full log, where nothing else is.
pub fn full_output(alloc: Global, part: Part) -> Result<Output, AllocError>
    ensures { IfOk result (λ output. answer_in output ≡ record { status = 6; text = full_line part }) }
{
    let text = full_line(alloc, part)?;
    Ok(Output { status: 6, text })
}
