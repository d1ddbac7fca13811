//! The logs of the endpoints and interfaces of a cluster.

ghost use Rattle.am_machine_journal.specs.Merge.Joined.{lists_of};
ghost use Rattle.am_driver_moves.specs.Logs.{kept};
ghost use Rattle.am_machine.specs.Kept.{interface_logs, logs_in};
ghost use Rattle.am_machine.specs.Node.Parts.{log_of};
ghost use Rattle.std.specs.Prelude.{◌≡◌, ◌++◌, IfOk, OnOk, map};

use am_endpoint::Endpoint;
use am_iface::Interface;
use am_office_entries::{Entry, NoMemory};
use std::alloc::Global;

/// Adds the logs of these endpoints.
pub(crate) fn add_ends<'a>(
    logs: &mut Vec<&'a [Entry]>,
    ends: &'a [Endpoint],
) -> Result<(), NoMemory>
    ensures { OnOk result (lists_of logs.new.items ≡ lists_of logs.old.items ++ map log_of ends.now) }
{
    for end in ends {
        logs.push(end.log())?;
    }
    Ok(())
}

/// Adds the logs of these interfaces.
fn add_interfaces<'a>(
    logs: &mut Vec<&'a [Entry]>,
    interfaces: &'a [Interface],
) -> Result<(), NoMemory>
    ensures { OnOk result (lists_of logs.new.items ≡ lists_of logs.old.items ++ interface_logs interfaces.now) }
{
    for interface in interfaces {
        logs.push(interface.log())?;
    }
    Ok(())
}

/// The logs of these endpoints, and then those of these interfaces.
#[tactic(auto, using(crate::proofs::Merging::end_logs_are))]
pub(crate) fn logs_of<'a>(
    alloc: Global,
    ends: &'a [Endpoint],
    interfaces: &'a [Interface],
) -> Result<Vec<&'a [Entry]>, NoMemory>
    ensures { IfOk result (λ logs. lists_of logs.items ≡ logs_in (map kept ends.now) interfaces.now) }
{
    let mut logs = Vec::new(alloc);
    add_ends(&mut logs, ends)?;
    add_interfaces(&mut logs, interfaces)?;
    Ok(logs)
}
