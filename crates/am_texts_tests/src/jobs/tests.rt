//! The rounds of a text whose words are counted, and what is told of them where nothing ran.

use am_job::{counts, rounds};
use am_office_entries::logged::LoggedJournal;

#[test]
fn words_that_did_not_run_are_told(rt: HostRuntime) {
    let Ok(job) = rounds(rt.alloc(), b"b a b\n", 2, 0) else {
        panic!(rt; "no memory")
    };
    assert!(rt; job.rounds.len() == 1);
    let Ok(journal) = LoggedJournal::of(rt.alloc(), &[]) else {
        panic!(rt; "no memory")
    };
    assert!(rt; counts(rt.alloc(), &job, &[journal]).is_ok());
}
