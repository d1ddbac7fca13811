//! The calls of threads, as `Draft::calls` takes them: each is what the draft's method of this name adds.

ghost use Rattle.std.specs.Prelude.{◌≡◌};
ghost use Rattle.am_office_entries.specs.declared.Call.TheVariants.{Map, Poll, Request, SetHandler};
ghost use Rattle.am_library_drafts.specs.Drafts.{made, two_words};

use am_names::{EndpointId, Tag, Words};
use am_office_entries::{Call, HandlerKind};
use am_scenario_types::ScriptCall;

/// The words of a request that carries two numbers.
pub fn two_words(a: u64, b: u64) -> Words
    ensures { result ≡ two_words a b }
{
    Words { a, b, c: 0, d: 0 }
}

/// A thread sets what a handler of an endpoint does.
pub fn handler(thread: u8, endpoint: EndpointId, index: u8, kind: HandlerKind) -> ScriptCall
    ensures { result ≡ made thread endpoint (SetHandler index kind) }
{
    let call = Call::SetHandler { index, kind };
    ScriptCall {
        thread,
        endpoint,
        call,
    }
}

/// A thread makes an index of an endpoint name another.
pub fn map(
    thread: u8,
    endpoint: EndpointId,
    index: u8,
    name: EndpointId,
    tag: Tag,
    credits: u8,
) -> ScriptCall
    ensures { result ≡ made thread endpoint (Map index name tag credits) }
{
    let call = Call::Map {
        index,
        name,
        tag,
        credits,
    };
    ScriptCall {
        thread,
        endpoint,
        call,
    }
}

/// A thread sends a request by an index of an endpoint.
pub fn request(thread: u8, endpoint: EndpointId, index: u8, handler: u8, words: Words) -> ScriptCall
    ensures { result ≡ made thread endpoint (Request index handler words) }
{
    let call = Call::Request {
        index,
        handler,
        words,
    };
    ScriptCall {
        thread,
        endpoint,
        call,
    }
}

/// A thread runs what is next at an endpoint.
pub fn poll(thread: u8, endpoint: EndpointId) -> ScriptCall
    ensures { result ≡ made thread endpoint Poll }
{
    ScriptCall {
        thread,
        endpoint,
        call: Call::Poll,
    }
}
