//! The text of a scenario: the scenario that it spells, or its first fault.
#![tactic(auto)]

pub mod drafts;
mod finish;
pub mod line_laws;
pub mod lines;
mod order;
mod reader;

pub use am_bundle::{Bundle, Readiness};
pub use am_lexer::What;
pub use am_scenario_generator::generate;
pub use am_scenario_plan::{LinkFault, PlanLine, shape};
pub use am_scenario_types::{
    EndLine, FaultLine, Form, Network, ReadFault, Scenario, ScenarioFault, ScriptCall, StepLine,
    ThreadLine,
};
pub use reader::{one_scenario_or_fault, read};
