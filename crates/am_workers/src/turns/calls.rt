//! What an application thread does with an endpoint that it has entered.
ghost use Rattle.am_workers.specs.Turns.Turns.{ThreadFound, made_in};
ghost use Rattle.am_endpoint.specs.View.{state_after};
ghost use Rattle.am_model.specs.Parts.{last_stamp};
ghost use Rattle.am_model.specs.Allowed.{are_numbers_in_range};
ghost use Rattle.am_model.specs.Endpoint.{is_on_disk};
ghost use Rattle.std.specs.Prelude.{◌≡◌, ◌<◌, ◌^◌, ◌++◌, false, max, true};

use crate::turns::turns::ThreadTurn;
use am_endpoint::EndFault;
use am_model::is_on_disk;
use am_office_entries::{Actor, Call};
use am_workers_laws::books::{EndBook, is_spent};

/// Makes the call.
fn make_call(book: &mut EndBook, thread: u8, call: Call, clock: u64) -> ThreadTurn
    requires here { is_on_disk (state_after book.old.end.value).head.place ≡ false }
    requires low { max clock (last_stamp book.old.end.value.log) < 2 ^ 63 }
    requires numbers { are_numbers_in_range book.old.end.value.settings.pool call ≡ true }
    ensures settings { book.new.end.value.settings ≡ book.old.end.value.settings }
    ensures added { book.new.end.value.log ≡ book.old.end.value.log ++ made_in result }
    ensures found { ThreadFound thread call clock result book.old.end.value.settings book.old.end.value.log }
{
    match book.end.call(clock, Actor::Thread(thread), call) {
        Ok(entry) => ThreadTurn::Made(entry),
        Err(EndFault::LogFull) => ThreadTurn::Full,
        Err(EndFault::NoMemory) => ThreadTurn::NoMemory,
    }
}

/// Wants the endpoint in memory for the call.
fn make_want(book: &mut EndBook, thread: u8, call: Call, clock: u64) -> ThreadTurn
    requires away { is_on_disk (state_after book.old.end.value).head.place ≡ true }
    requires unwanted { (state_after book.old.end.value).head.wanted ≡ false }
    requires low { max clock (last_stamp book.old.end.value.log) < 2 ^ 63 }
    ensures settings { book.new.end.value.settings ≡ book.old.end.value.settings }
    ensures added { book.new.end.value.log ≡ book.old.end.value.log ++ made_in result }
    ensures found { ThreadFound thread call clock result book.old.end.value.settings book.old.end.value.log }
{
    let _call = call;
    match book.end.want(clock, Actor::Thread(thread)) {
        Ok(entry) => ThreadTurn::Wanted(entry),
        Err(EndFault::LogFull) => ThreadTurn::Full,
        Err(EndFault::NoMemory) => ThreadTurn::NoMemory,
    }
}

/// The call, or a want where the endpoint is on disk and not wanted.
pub(crate) fn act(book: &mut EndBook, thread: u8, call: Call, clock: u64) -> ThreadTurn
    requires numbers { are_numbers_in_range book.old.end.value.settings.pool call ≡ true }
    ensures settings { book.new.end.value.settings ≡ book.old.end.value.settings }
    ensures added { book.new.end.value.log ≡ book.old.end.value.log ++ made_in result }
    ensures found { ThreadFound thread call clock result book.old.end.value.settings book.old.end.value.log }
{
    if is_spent(clock, &book.end) {
        return ThreadTurn::Spent;
    }
    if !is_on_disk(book.end.place()) {
        return make_call(book, thread, call, clock);
    }
    if book.end.wanted() {
        return ThreadTurn::Waits;
    }
    make_want(book, thread, call, clock)
}
