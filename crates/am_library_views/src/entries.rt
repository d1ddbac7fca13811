//! What one entry or one call says of requests and handlers.

ghost use Rattle.std.specs.Prelude.{◌≡◌};
ghost use Rattle.am_library_views.specs.Ends.{words_in, words_run_of};
ghost use Rattle.am_library_views.specs.Views.{handler_run_in};

use am_names::{EndpointId, Words};
use am_office_entries::{Call, Entry, Event, Outcome, run_of};

/// What a handler ran. It ran a request, or a reply that came back under its index.
#[derive(Clone, Copy)]
pub struct HandlerRun {
    /// The endpoint whose handler it is.
    pub end: EndpointId,
    /// The handler's index there, 0 to 15.
    pub handler: u8,
    /// The words of the message.
    pub words: Words,
}

/// What a handler runs by an entry, if one does.
pub fn handler_run_of(entry: &Entry) -> Option<HandlerRun>
    ensures { result ≡ handler_run_in entry.now.event entry.now.outcome }
{
    let Event::Call {
        end,
        call: Call::Poll,
        ..
    } = entry.event
    else {
        return None;
    };
    match entry.outcome {
        Outcome::Ran {
            message,
            handler: Some(handler),
            ..
        } => Some(HandlerRun {
            end,
            handler,
            words: message.words,
        }),
        _ => None,
    }
}

/// The words of the request that an entry runs, if it runs one.
pub fn words_run_of(entry: &Entry) -> Option<Words>
    ensures { result ≡ words_run_of entry.now }
{
    match run_of(entry) {
        Some(message) if message.is_request() => Some(message.words),
        _ => None,
    }
}

/// The words of the request that a call asks for, if it asks for one.
pub fn words_in(call: &Call) -> Option<Words>
    ensures { result ≡ words_in call.now }
{
    match *call {
        Call::Request { words, .. } => Some(words),
        _ => None,
    }
}
