//! What ran at an endpoint, and what was replied.

ghost use Rattle.std.specs.Prelude.{◌≡◌, ◌∷◌, ◌++◌, [], IfOk, OnOk, map, option_to_list, slice_get};
ghost use Rattle.std.specs.Option.{option_map};
ghost use Rattle.am_library_views.specs.Views.{first_word, runs_at, with_reply};

use crate::account::Account;
use am_names::{EndpointId, Message, NoMemory};
use am_office_entries::logged::LoggedJournal;
use am_office_entries::{Entry, run_of};
use std::alloc::Global;

// The request that an entry runs at an endpoint.
fn run_at(entry: &Entry, end: EndpointId) -> Option<Message>
    ensures { option_to_list result ≡ runs_at (entry.now ∷ []) end }
{
    match run_of(entry) {
        Some(message) if message.is_request() && end == message.dest => Some(message),
        _ => None,
    }
}

// A request more, if there is one.
fn put_run(runs: &mut Vec<Message>, run: Option<Message>) -> Result<(), NoMemory>
    ensures { OnOk result (runs.new.items ≡ runs.old.items ++ option_to_list run) }
{
    match run {
        Some(message) => {
            runs.push(message)?;
            Ok(())
        }
        None => Ok(()),
    }
}

/// The requests that ran at an endpoint, with their words, in the order in which they ran. It goes over the journal once. `NoMemory` comes
/// where there is none for them.
pub fn runs_at(
    alloc: Global,
    journal: &LoggedJournal,
    end: EndpointId,
) -> Result<Vec<Message>, NoMemory>
    ensures { IfOk result (λ runs. runs.items ≡ runs_at journal.now end) }
{
    let entries = journal.entries();
    let mut runs = Vec::new(alloc);
    for entry in entries {
        put_run(&mut runs, run_at(entry, end))?;
    }
    Ok(runs)
}

/// The first word of the first request that ran at an endpoint. It looks no further than that.
pub fn first_word_at(journal: &LoggedJournal, end: EndpointId) -> Option<u64>
    ensures { result ≡ option_map first_word (slice_get (runs_at journal.now end) 0) }
{
    let entries = journal.entries();
    for entry in entries {
        if let Some(run) = run_at(entry, end) {
            return Some(run.words.a);
        }
    }
    None
}

/// A request that ran, and the reply to it.
#[derive(Clone, Copy)]
pub struct Run {
    pub request: Message,
    /// The reply or empty reply, where the endpoint that made the request ran it.
    pub reply: Option<Message>,
}

/// The requests that ran at an endpoint with their replies, in the order in which they ran. `NoMemory` comes where there is none for them.
pub fn runs_with_replies(
    alloc: Global,
    journal: &LoggedJournal,
    end: EndpointId,
) -> Result<Vec<Run>, NoMemory>
    ensures { IfOk result (λ runs. runs.items ≡ map (with_reply journal.now) (runs_at journal.now end)) }
{
    let requests = runs_at(alloc, journal, end)?;
    let account = Account::of(alloc, journal)?;
    let mut runs = Vec::new(alloc);
    for request in &requests {
        let reply = account.reply_to(request.serial);
        runs.push(Run {
            request: *request,
            reply,
        })?;
    }
    Ok(runs)
}
