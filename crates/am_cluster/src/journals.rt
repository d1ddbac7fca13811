//! The journal of a run, kept in the logs of its cluster.

ghost use Rattle.std.specs.Prelude.{◌≡◌, IfOk};

use am_machine::Cluster;
use am_office_entries::logged::LoggedJournal;
use am_office_entries::{Journal, NoMemory};
use std::alloc::Global;
use std::fmt;
use std::fmt::Debug;
use std::marker::Model;

/// The journal of a run. Its entries stand in the logs of the cluster that made them. Contracts see the list of the
/// entries.
#[derive(Drop)]
pub struct RunJournal {
    cluster: Cluster,
}

impl Model for RunJournal {
    ghost use Rattle.am_office_entries.specs.declared.Entry.{Entry};
    ghost use Rattle.std.specs.Prelude.{List};

    ghost Value = { List Entry };

    ghost view = { λ journal. journal.cluster.journal };
}

impl RunJournal {
    /// The journal of a cluster.
    pub(crate) fn of(cluster: Cluster) -> RunJournal
        ensures { result ≡ cluster.journal }
    {
        RunJournal { cluster }
    }

    /// The entries in the order of stamp and then part, where they are logged. `NoMemory` comes where there is none for
    /// references to them.
    pub fn logged<'a>(&'a self, alloc: Global) -> Result<LoggedJournal<'a>, NoMemory>
        ensures { IfOk result (λ journal. journal ≡ self.now) }
    {
        self.cluster.journal(alloc)
    }

    /// A copy that has the entries itself. `NoMemory` comes where there is none for it.
    pub fn copied(&self, alloc: Global) -> Result<Journal, NoMemory>
        ensures { IfOk result (λ journal. journal ≡ self.now) }
    {
        let logged = self.logged(alloc)?;
        logged.copied(alloc)
    }
}

impl Debug for RunJournal {
    fn fmt<W: fmt::Write>(&self, f: &mut fmt::Formatter<W>) -> fmt::Result {
        f.write_str("RunJournal")
    }
}
