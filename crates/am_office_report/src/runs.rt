//! What the polls of a journal ran, endpoint by endpoint.

ghost use Rattle.std.specs.Prelude.{◌≡◌, [], IfOk, replicate};
ghost use Rattle.am_office_report.specs.Report.{run_in};

use am_names::{EndpointId, Serial, Why, Words};
use am_office_entries::{Call, Entry, Event, Outcome};
use std::alloc::{AllocError, Global};
use std::marker::Model;

/// What a poll ran.
#[derive(Clone, Copy)]
pub(crate) enum Run {
    /// A handler, for the message with this serial and these words.
    Handled {
        serial: Serial,
        handler: u8,
        words: Words,
    },
    /// Handler 0, for a notice.
    Zero {
        serial: Serial,
        why: Why,
    },
}

/// What a poll ran, and at which endpoint.
fn run_in(entry: &Entry) -> Option<(EndpointId, Run)>
    ensures { result ≡ run_in entry.now.event entry.now.outcome }
{
    let Event::Call {
        end,
        call: Call::Poll,
        ..
    } = entry.event
    else {
        return None;
    };
    match entry.outcome {
        Outcome::Ran {
            message,
            handler: Some(handler),
            ..
        } => {
            let (serial, words) = (message.serial, message.words);
            Some((
                end,
                Run::Handled {
                    serial,
                    handler,
                    words,
                },
            ))
        }
        Outcome::Zero { serial, why } => Some((end, Run::Zero { serial, why })),
        _ => None,
    }
}

/// The runs at one endpoint, in order. Contracts see the list of the runs.
#[derive(Drop)]
struct RunList {
    runs: Vec<Run>,
}

impl Model for RunList {
    ghost use Rattle.std.specs.Prelude.{List};
    ghost use Rattle.am_office_report.specs.declared.runs.Run.{Run};

    ghost Value = { List Run };

    ghost view = { λ list. list.runs.items };
}

impl RunList {
    ghost use Rattle.std.specs.Prelude.{◌≡◌, [], ◌∷◌, ◌++◌, OnOk};

    fn new(alloc: Global) -> Self
        ensures { result ≡ [] }
    {
        RunList {
            runs: Vec::new(alloc),
        }
    }

    fn push(&mut self, run: Run) -> Result<(), AllocError>
        ensures { OnOk result (self.new ≡ self.old ++ run ∷ []) }
    {
        self.runs.push(run)?;
        Ok(())
    }
}

/// The runs of the entries so far, one list for each endpoint. Contracts see the lists.
#[derive(Drop)]
pub(crate) struct RunTable {
    lists: Vec<RunList>,
}

impl Model for RunTable {
    ghost use Rattle.std.specs.Prelude.{◌≡◌, List, length};
    ghost use Rattle.am_office_report.specs.declared.runs.Run.{Run};

    ghost Value = { List (List Run) };

    ghost view = { λ table. table.lists.items };

    ghost invariant = { λ table. length table.lists.items ≡ 256 };
}

/// How many endpoints there may be: one for each number of eight bits.
const ENDPOINTS: usize = 256;

// As many empty lists as there are endpoints.
fn empty_lists(alloc: Global) -> Result<Vec<RunList>, AllocError>
    ensures { IfOk result (λ lists. lists.items ≡ replicate 256 []) }
{
    let mut lists = Vec::new(alloc);
    for _ in 0..ENDPOINTS {
        lists.push(RunList::new(alloc))?;
    }
    Ok(lists)
}

impl RunTable {
    ghost use Rattle.std.specs.Prelude.{◌≡◌, List, [], OnOk, IfOk};
    ghost use Rattle.am_office_entries.specs.declared.Entry.{Entry};
    ghost use Rattle.am_office_report.specs.Report.{run_in, runs_at};
    ghost use Rattle.am_office_report.specs.Tables.{with_run, AreRuns};

    /// The runs of no entries.
    pub(crate) fn new(alloc: Global) -> Result<Self, AllocError>
        ensures { IfOk result (λ table. AreRuns table []) }
    {
        let lists = empty_lists(alloc)?;
        Ok(RunTable { lists })
    }

    /// Takes in one entry more.
    pub(crate) fn add(&mut self, entry: &Entry) -> Result<(), AllocError>
        ensures { OnOk result (self.new ≡ with_run self.old (run_in entry.now.event entry.now.outcome)) }
    {
        match run_in(entry) {
            None => Ok(()),
            Some((end, run)) => self.lists[usize::from(end.0)].push(run),
        }
    }

    /// The runs at an endpoint.
    pub(crate) fn at(&self, end: EndpointId) -> &[Run]
        ensures { (journal : List Entry) → AreRuns self.now journal → result.now ≡ runs_at journal end }
    {
        self.lists[usize::from(end.0)].runs.as_slice()
    }
}
