//! Texts of sessions: what is answered to them, and their faults.

use crate::commands::answers::try_texts;
use crate::readers::{Reader, try_rows};
use crate::sessions::tables::{FAULTS, SESSIONS};

#[test]
fn sessions_are_answered(rt: HostRuntime) {
    try_texts(&rt, rt.alloc(), "session", "", SESSIONS.as_slice());
}

#[test]
fn texts_of_sessions_have_their_faults(rt: HostRuntime) {
    try_rows(&rt, rt.alloc(), Reader::Session, "", FAULTS.as_slice());
}
