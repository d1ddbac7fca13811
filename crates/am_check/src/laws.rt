//! What a yes of the checker of printed reports means. Each law is the contract of a function with an empty body.

ghost use Rattle.am_check.specs.Laws.Laws.{CheckedAreHistories, YesIsTrue};

use am_laws::post_office;
use am_scenario::one_scenario_or_fault;

/// The journals that the checker lets pass, whose every entry is the one that the machine makes of an event that may come next, and
/// which are whole, are just the histories of the scenario that follow its lines or its scripts, with one stamp after the other and
/// no entry that met a full log.
pub fn checked_journals_are_histories()
    ensures { CheckedAreHistories }
{}

/// The texts for which the answer is yes are just those that spell a scenario and go on with the report of such a history, and each
/// such history obeys the laws of the post office.
pub fn yes_is_true()
    ensures { YesIsTrue }
{
    post_office();
    one_scenario_or_fault();
}
