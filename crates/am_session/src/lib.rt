//! The text of a session: the events that it spells, or its first fault; the report of what the events make; and the answer to a
//! text.
#![tactic(auto)]

mod draft;
mod fates;
mod head;
mod lines;
mod output;
mod playing;
mod printing;
mod reader;
mod report;
mod script;
mod stops;

pub use crate::output::{SessionOutput, session_has_one_answer, session_output};
pub use crate::playing::{Played, play};
pub use crate::reader::read_session;
pub use crate::report::session_report;
pub use crate::script::{SessionReadFault, SessionScript, SessionStep, SessionTextFault};
pub use crate::stops::Stop;
pub use am_lexer::What;
