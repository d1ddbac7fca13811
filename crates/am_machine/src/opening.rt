//! How the endpoints of a cluster begin.

ghost use Rattle.am_driver_moves.specs.Logs.{kept};
ghost use Rattle.am_machine.specs.Beginnings.{CanOpen, opened};
ghost use Rattle.am_model.specs.Layout.{opening_place};
ghost use Rattle.am_model_scripts.specs.Layout.{is_direct};
ghost use Rattle.std.specs.Prelude.{◌≡◌, IfOk, map};

use crate::settings::Settings;
use am_endpoint::{EndSettings, Endpoint};
use am_office_entries::{NoMemory, Place};
use am_scenario_types::{EndLine, Network};
use std::alloc::Global;

/// Where an endpoint begins.
fn opening_place(network: Network, disk: bool) -> Place
    ensures { result ≡ opening_place (is_direct network) disk }
{
    match (network, disk) {
        (Network::Direct, _) => Place::Direct,
        (Network::Packet, true) => Place::Disk,
        (Network::Packet, false) => Place::Host,
    }
}

/// What an endpoint begins with, as it is declared.
pub(crate) fn settings_of(settings: &Settings, line: &EndLine) -> EndSettings
    ensures { result ≡ (opened settings.now line.now).settings }
{
    EndSettings {
        id: line.id,
        node: line.node,
        tag: line.tag,
        place: opening_place(settings.network, line.disk),
        log: settings.log,
        bounces: settings.bounces,
        pool: settings.pool,
    }
}

/// A fresh endpoint, as it is declared.
fn open_end(alloc: Global, settings: &Settings, line: &EndLine) -> Result<Endpoint, NoMemory>
    requires { CanOpen settings.now }
    ensures { IfOk result (λ end. kept end ≡ opened settings.now line.now) }
{
    Endpoint::new(alloc, settings_of(settings, line))
}

/// The fresh endpoints of a cluster, in the order of their lines.
pub fn open_ends(
    alloc: Global,
    settings: &Settings,
    lines: &[EndLine],
) -> Result<Vec<Endpoint>, NoMemory>
    requires { CanOpen settings.now }
    ensures { IfOk result (λ ends. map kept ends.items ≡ map (opened settings.now) lines.now) }
{
    let mut ends = Vec::new(alloc);
    for line in lines {
        let end = open_end(alloc, settings, line)?;
        match ends.push(end) {
            Ok(()) => {}
            Err(_) => return Err(NoMemory),
        }
    }
    Ok(ends)
}
