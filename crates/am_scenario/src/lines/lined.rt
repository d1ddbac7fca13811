//! Answers of lines that take no memory, among those of lines that do.

ghost use Rattle.std.specs.Prelude.{Result};
ghost use Rattle.am_lexer.specs.declared.what.What.{What as Fault};
ghost use Rattle.am_lexer.specs.Fields.{Gives};
ghost use Rattle.am_scenario.specs.declared.drafts.line.Line.{Line as Says};
ghost use Rattle.am_scenario.specs.Lines.Answers.{Yields};

use crate::drafts::{Line, LineFault};
use am_lexer::What;

/// What a line says that takes no memory, or its fault, among the answers of those that do.
// One call in each branch is proved in a fraction of what a `?` in each takes.
#[inline(always)]
pub fn lined(read: Result<Line, What>) -> Result<Line, LineFault>
    ensures { (says : Result Says Fault) → Gives (λ line. line) read says → Yields (λ line. line) result says }
{
    match read {
        Ok(line) => Ok(line),
        Err(what) => Err(LineFault::What(what)),
    }
}
