//! The sum of an endpoint, with the handlers that are set there.

ghost use Rattle.std.specs.Prelude.{◌≡◌, Some, slice_set};
ghost use Rattle.am_model.specs.Calls.{sum_after};
ghost use Rattle.am_model.specs.Changes.{kind_run};
ghost use Rattle.am_library_views.specs.Views.{sum_at, summed, unsummed, with_run, with_set};

use crate::entries::{HandlerRun, handler_run_of};
use am_names::{EndpointId, Words};
use am_office_entries::logged::LoggedJournal;
use am_office_entries::{Call, Entry, Event, HandlerKind, Outcome};

/// The handlers of an endpoint by their indexes, and its sum.
#[derive(Clone, Copy, Drop)]
pub(crate) struct Summing {
    kinds: [Option<HandlerKind>; 16],
    sum: u64,
}

// Before the first entry.
fn unsummed() -> Summing
    ensures { result ≡ unsummed }
{
    Summing {
        kinds: [None; 16],
        sum: 0,
    }
}

// The kind of a handler, if it is set.
fn kind_run(kinds: &[Option<HandlerKind>], handler: u8) -> Option<HandlerKind>
    ensures { result ≡ kind_run kinds.now (Some handler) }
{
    if usize::from(handler) < kinds.len() {
        kinds[usize::from(handler)]
    } else {
        None
    }
}

// An endpoint's sum after a handler of this kind ran.
fn sum_after(kind: Option<HandlerKind>, words: Words, sum: u64) -> u64
    ensures { result ≡ sum_after kind words sum }
{
    match kind {
        Some(kind) => am_handlers::run(kind, words, sum).sum,
        None => sum,
    }
}

impl Summing {
    // A handler is set.
    fn set(&mut self, index: u8, kind: HandlerKind)
        ensures { self.new ≡ record self.old { kinds = slice_set self.old.kinds index (Some kind) } }
    {
        if index < 16 {
            self.kinds[usize::from(index)] = Some(kind);
        }
    }

    // An entry more: a handler may be set by it.
    fn see_set(&mut self, end: EndpointId, entry: &Entry)
        ensures { self.new ≡ with_set end self.old entry.now.event entry.now.outcome }
    {
        match (entry.event, entry.outcome) {
            (
                Event::Call {
                    end: at,
                    call: Call::SetHandler { index, kind },
                    ..
                },
                Outcome::Done,
            ) => {
                if end == at {
                    self.set(index, kind);
                }
            }
            _ => {}
        }
    }

    // A handler may have run.
    fn see_run(&mut self, end: EndpointId, run: Option<HandlerRun>)
        ensures { self.new ≡ with_run end self.old run }
    {
        if let Some(run) = run {
            if end == run.end {
                let kind = kind_run(&self.kinds, run.handler);
                self.sum = sum_after(kind, run.words, self.sum);
            }
        }
    }

    // An entry more.
    fn see(&mut self, end: EndpointId, entry: &Entry)
        ensures { self.new ≡ summed end self.old entry.now }
    {
        self.see_set(end, entry);
        self.see_run(end, handler_run_of(entry));
    }
}

/// The sum that an endpoint has after a journal's entries. It goes over the journal once.
pub fn sum_at(journal: &LoggedJournal, end: EndpointId) -> u64
    ensures { result ≡ sum_at journal.now end }
{
    let entries = journal.entries();
    let mut so_far = unsummed();
    for entry in entries {
        so_far.see(end, entry);
    }
    so_far.sum
}
