//! What is seen of the run of a small scenario: two requests run, 3 and then 4, and the third comes back.

ghost use Rattle.std.specs.Thread.{IsSync};

use crate::library::drafts::{CLIENT, SERVER, draft, words};
use am_library::{Account, AtOnce, BySeed, DrainAlone, RunDraft, Runner, first_word_at, sum_at};
use am_names::{Cause, Serial, Words};
use am_office_entries::Fate;
use std::alloc::Global;
use std::process::Abort;
use std::test::Fail;
use std::thread::Threads;

/// The client's request with this number, from 1.
fn request(count: u32) -> Serial {
    Serial {
        source: CLIENT,
        count,
    }
}

/// The words of the reply to the client's request with this number.
fn reply_words(account: &Account, count: u32) -> Option<Words> {
    let reply = account.reply_to(request(count))?;
    Some(reply.words)
}

#[test]
fn each_request_has_its_fate_and_reply(rt: HostRuntime) -> Result<(), Fail> {
    let scenario = draft(&rt, rt.alloc()).finish();
    let finished = DrainAlone
        .run(&rt, rt.alloc(), &scenario)
        .expect(&rt, "a run");
    let journal = finished.journal.logged(rt.alloc()).expect(&rt, "a journal");
    let account = Account::of(rt.alloc(), &journal).expect(&rt, "an account");
    assert!(rt; account.fate_of(request(2)) == Some(Fate::Ran));
    assert!(rt; account.fate_of(request(3)) == Some(Fate::Returned(Cause::BadHandler)));
    assert!(rt; account.fate_of(request(4)).is_none());
    assert!(rt; reply_words(&account, 2) == Some(words(7)));
    assert!(rt; reply_words(&account, 3).is_none());
    assert!(rt; first_word_at(&journal, SERVER) == Some(3));
    Ok(())
}

/// The sum that the server has after a run by this runner.
fn sum_by<R: Runner, T: Threads + Abort + Sync>(runner: &R, rt: &T, alloc: Global) -> u64
    requires shared { IsSync T.row }
{
    let finished = draft(rt, alloc).run(runner, rt, alloc).expect(rt, "a run");
    let journal = finished.journal.logged(alloc).expect(rt, "a journal");
    sum_at(&journal, SERVER)
}

#[test]
fn each_runner_comes_to_the_same_sum(rt: HostRuntime) {
    assert!(rt; sum_by(&DrainAlone, &rt, rt.alloc()) == 7);
    assert!(rt; sum_by(&BySeed(7), &rt, rt.alloc()) == 7);
    assert!(rt; sum_by(&AtOnce, &rt, rt.alloc()) == 7);
}
