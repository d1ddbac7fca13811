//! That what the checker answers is exact: a law, the contract of a function with an empty body.

ghost use Rattle.am_check.specs.Exact.{AnswersAreExact, OneAnswer};

use am_scenario::one_scenario_or_fault;

/// The answer for a text is yes only where the text spells a scenario and the rest of it is the report of a journal that follows
/// the scenario, and a stop only where it is not so, want of memory apart. And of all answers just one is right for a text, so each
/// stop is given exactly where it is what the text is stopped for.
pub fn answers_are_exact()
    ensures exact { AnswersAreExact }
    ensures one { OneAnswer }
{
    one_scenario_or_fault();
}
