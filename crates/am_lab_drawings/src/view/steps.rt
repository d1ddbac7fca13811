//! The entries of a journal, made again one after the other.

ghost use Rattle.am_lab_reasons.specs.Journal.Lines.{IsMadeAgain};
ghost use Rattle.std.specs.Prelude.{◌≡◌, [], ◌∷◌, ◌++◌, OnOk};

use am_machine::Cluster;
use am_names::NoMemory;
use am_office_entries::Entry;

/// Makes the next entry. `NoMemory` comes where there is none for it, and the cluster is as it was.
pub(crate) fn step(cluster: &mut Cluster, entry: &Entry) -> Result<(), NoMemory>
    requires { IsMadeAgain cluster.old.layout cluster.old.journal entry.now }
    ensures layout { cluster.new.layout ≡ cluster.old.layout }
    ensures journal { OnOk result (cluster.new.journal ≡ cluster.old.journal ++ entry.now ∷ []) }
{
    match cluster.make(&entry.event) {
        Ok(()) => Ok(()),
        Err(_) => Err(NoMemory),
    }
}
