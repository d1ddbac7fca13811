//! What makes the entries of a report's journal, one after the other, where the scenario lets them come.

ghost use Rattle.am_check.specs.Follows.{IsBegun, IsEnded, MayCome};
ghost use Rattle.am_check.specs.Lines.{MakesOne, StopsEvent};
ghost use Rattle.am_office_entries.specs.declared.Entry.{Entry as Made};
ghost use Rattle.am_scenario_types.specs.Lists.{ScenarioLists};
ghost use Rattle.am_scenario_types.specs.declared.parts.Form.{Form};
ghost use Rattle.std.specs.Prelude.{◌≡◌, ◌↔◌, IfErr, IfOk, IsTrue, List};

use crate::faults::LineStop;
use am_names::NoMemory;
use am_office_entries::logged::LoggedJournal;
use am_office_entries::{Entry, Event};
use std::alloc::Global;

/// A cluster that makes the entries of a scenario of one form.
pub(crate) trait Follower {
    ghost form: { Form };

    ghost scenario: { Self → ScenarioLists };

    ghost journal: { Self → List Made };

    /// Whether an event may come next, as the scenario lets it.
    fn may_come(&self, event: Event) -> bool
        ensures { IsTrue result ↔ MayCome form (scenario self.now) (journal self.now) event };

    /// Makes the entry of an event that may come. Nothing is said of the journal where it is stopped.
    fn make(&mut self, event: Event) -> Result<Entry, LineStop>
        requires { MayCome form (scenario self.old) (journal self.old) event }
        ensures scenario { scenario self.new ≡ scenario self.old }
        ensures made { IfOk result (λ x. MakesOne form (scenario self.old) (journal self.old) event x (journal self.new)) }
        ensures stops { IfErr result (StopsEvent form (scenario self.old) (journal self.old) event) };

    /// Whether the journal may end here.
    fn is_ended(&self) -> bool
        requires { IsBegun form (scenario self.now) (journal self.now) }
        ensures { IsTrue result ↔ IsEnded form (scenario self.now) (journal self.now) };

    /// The entries so far.
    fn entries<'a>(&'a self, alloc: Global) -> Result<LoggedJournal<'a>, NoMemory>
        ensures { IfOk result (λ entries. entries ≡ journal self.now) };
}
