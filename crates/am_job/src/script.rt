//! What the threads of a round call.

ghost use Rattle.std.specs.Prelude.{◌≡◌, ◌%◌, ◌<◌, ◌≤◌, OnOk};
ghost use Rattle.am_office_entries.specs.declared.Call.TheVariants.{Request};
ghost use Rattle.am_library_drafts.specs.Drafts.{with_calls};
ghost use Rattle.am_job.specs.Ready.{IsReady};
ghost use Rattle.am_job.specs.Scripts.{map_to, maps_below, on_owner, on_sender, opening, openings_below, owner, polls, script, sending, sendings};

use crate::drafting::add;
use crate::words::CodedWord;
use am_library_drafts::Draft;
use am_names::{EndpointId, NoMemory, Tag};
use am_office_entries::{Call, HandlerKind};
use am_scenario_types::ScriptCall;

// A thread's call on the endpoint of its node that owns words.
fn on_owner(n: u8, call: Call) -> ScriptCall
    requires { n < 8 }
    ensures { result ≡ on_owner n call }
{
    ScriptCall {
        thread: n,
        endpoint: EndpointId(2 * n + 1),
        call,
    }
}

// A thread's call on the endpoint of its node that sends words.
fn on_sender(n: u8, call: Call) -> ScriptCall
    requires { n < 8 }
    ensures { result ≡ on_sender n call }
{
    ScriptCall {
        thread: n,
        endpoint: EndpointId(2 * n),
        call,
    }
}

// Makes an index name the owner of the node with this number.
fn map_to(k: u8) -> Call
    requires { k < 8 }
    ensures { result ≡ map_to k }
{
    Call::Map {
        index: k,
        name: EndpointId(2 * k + 1),
        tag: Tag(101 + 2 * u64::from(k)),
        credits: 8,
    }
}

fn map_all(draft: &mut Draft, w: u8, n: u8) -> Result<(), NoMemory>
    requires nodes { w ≤ 8 }
    requires thread { n < w }
    requires ready { IsReady w (maps_below n w) draft.now }
    ensures { OnOk result (draft.new ≡ with_calls draft.old (maps_below n w)) }
{
    for k in 0..w {
        add(draft, on_sender(n, map_to(k)))?;
    }
    Ok(())
}

// The calls with which a thread begins.
fn begin(draft: &mut Draft, w: u8, n: u8) -> Result<(), NoMemory>
    requires nodes { w ≤ 8 }
    requires thread { n < w }
    requires ready { IsReady w (opening w n) draft.now }
    ensures { OnOk result (draft.new ≡ with_calls draft.old (opening w n)) }
{
    let note = Call::SetHandler {
        index: 1,
        kind: HandlerKind::Note,
    };
    add(draft, on_owner(n, note))?;
    map_all(draft, w, n)
}

fn begin_all(draft: &mut Draft, w: u8) -> Result<(), NoMemory>
    requires nodes { w ≤ 8 }
    requires ready { IsReady w (openings_below w w) draft.now }
    ensures { OnOk result (draft.new ≡ with_calls draft.old (openings_below w w)) }
{
    for n in 0..w {
        begin(draft, w, n)?;
    }
    Ok(())
}

fn poll_often(draft: &mut Draft, w: u8, n: u8) -> Result<(), NoMemory>
    requires nodes { w ≤ 8 }
    requires thread { n < w }
    requires ready { IsReady w (polls n w) draft.now }
    ensures { OnOk result (draft.new ≡ with_calls draft.old (polls n w)) }
{
    for _poll in 0..w {
        add(draft, on_owner(n, Call::Poll))?;
    }
    Ok(())
}

// The request that carries a word to its owner.
fn request(w: u8, word: &CodedWord) -> Call
    requires some { 0 < w }
    requires nodes { w ≤ 8 }
    ensures { result ≡ Request (owner w word.now) 1 word.now.words }
{
    Call::Request {
        index: (word.sum % u16::from(w)) as u8,
        handler: 1,
        words: word.words,
    }
}

// A thread sends a word to its owner, and polls.
fn send(draft: &mut Draft, w: u8, n: u8, word: &CodedWord) -> Result<(), NoMemory>
    requires some { 0 < w }
    requires nodes { w ≤ 8 }
    requires thread { n < w }
    requires ready { IsReady w (sending w n word.now) draft.now }
    ensures { OnOk result (draft.new ≡ with_calls draft.old (sending w n word.now)) }
{
    add(draft, on_sender(n, request(w, word)))?;
    poll_often(draft, w, n)?;
    add(draft, on_sender(n, Call::Poll))
}

// The thread that sends the word at this place.
fn turn(j: usize, w: u8) -> u8
    requires { 0 < w }
    ensures exact { result ≡ j % w }
    ensures low { result < w }
{
    (j % usize::from(w)) as u8
}

// The threads send words in turn.
fn send_all(draft: &mut Draft, w: u8, words: &[CodedWord]) -> Result<(), NoMemory>
    requires some { 0 < w }
    requires nodes { w ≤ 8 }
    requires ready { IsReady w (sendings w 0 words.now) draft.now }
    ensures { OnOk result (draft.new ≡ with_calls draft.old (sendings w 0 words.now)) }
{
    for (j, word) in words.iter().enumerate() {
        send(draft, w, turn(j, w), word)?;
    }
    Ok(())
}

/// The calls of a round of words, in order of the threads where they begin, and then of the words. NoMemory: the draft may have some of
/// them.
pub fn make_script(draft: &mut Draft, w: u8, words: &[CodedWord]) -> Result<(), NoMemory>
    requires some { 0 < w }
    requires nodes { w ≤ 8 }
    requires ready { IsReady w (script w words.now) draft.now }
    ensures { OnOk result (draft.new ≡ with_calls draft.old (script w words.now)) }
{
    begin_all(draft, w)?;
    send_all(draft, w, words)
}
