//! Following the scripts of a scenario: the calls of its threads, what its links release and deliver, what is left to the
//! end, and when all is at rest. Each law is the contract of a function with an empty body.
#![tactic(auto)]

ghost use Rattle.am_model_scripts.specs.Layout.{events_of, layout_of};
ghost use Rattle.am_model_scripts.specs.Steps.Laws.{AreInRange};
ghost use Rattle.am_model.specs.Layout as model;
ghost use Rattle.am_scenario_types.specs.Lawful as scenario;
ghost use Rattle.am_scenario_types.specs.Lists.{ScenarioLists};
ghost use Rattle.am_model_scripts.specs.Links.{AllIsReceived, ReceivesBeginning};
ghost use Rattle.am_model_scripts.specs.Scripts.{ScriptsAreDone};

pub mod steps;

/// Where the scripts have begun and no thread has a call left, they are done.
pub fn scripts_are_done()
    ensures { ScriptsAreDone }
{}

/// Where each packet is received in its turn, what is received on a link is the beginning of what was released there.
pub fn receives_beginning()
    ensures { ReceivesBeginning }
{}

/// Where moreover no receipt is due, all that was released was received, in order.
pub fn all_is_received()
    ensures { AllIsReceived }
{}

/// A lawful scenario begins in a lawful layout.
pub fn lawful_scenarios_begin_lawfully()
    ensures { (s : ScenarioLists) → scenario.IsLawful s → model.IsLawful (layout_of s) }
{}

/// Each event of its steps has its numbers in the range of that layout.
pub fn lawful_steps_are_in_range()
    ensures { (s : ScenarioLists) → scenario.IsLawful s → AreInRange (layout_of s) (events_of s.steps) }
{}
