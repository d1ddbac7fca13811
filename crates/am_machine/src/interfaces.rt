//! The interfaces of a cluster, as they begin.

ghost use Rattle.am_model_scripts.specs.Layout.{is_direct};
ghost use Rattle.am_machine.specs.Homes.{AreFresh, AreHomes, CanConnect, IsFresh, first_told};
ghost use Rattle.am_scenario_types.specs.declared.parts.EndLine.{EndLine};
ghost use Rattle.std.specs.Prelude.{◌≡◌, ◌<◌, [], ◌∷◌, ◌++◌, length, if◌then◌else◌, IfOk, List};

use crate::settings::Settings;
use am_iface::{IfaceSettings, Interface};
use am_names::NodeId;
use am_office_entries::NoMemory;
use am_scenario_types::{EndLine, Network};
use std::alloc::Global;

/// The home that was told first.
fn first_told(home: Option<NodeId>, node: NodeId) -> Option<NodeId>
    ensures { result ≡ first_told home node }
{
    match home {
        Some(first) => Some(first),
        None => Some(node),
    }
}

/// Tells the home of the endpoint that is declared here, unless a line before told one.
fn tell(homes: &mut [Option<NodeId>], line: &EndLine)
    requires { length homes.old ≡ 256 }
    ensures { (before : List EndLine) → AreHomes before homes.old → AreHomes (before ++ line.now ∷ []) homes.new }
{
    let id = line.id.0 as usize;
    homes[id] = first_told(homes[id], line.node);
}

/// The homes where no endpoint is declared.
fn no_homes() -> [Option<NodeId>; 256]
    ensures { AreHomes [] result }
{
    [None; 256]
}

/// The node of the endpoint with each number, 0 to 255.
fn all_homes(alloc: Global, lines: &[EndLine]) -> Result<Vec<Option<NodeId>>, NoMemory>
    ensures { IfOk result (λ homes. AreHomes lines.now homes.items) }
{
    let mut homes = no_homes();
    for line in lines {
        tell(&mut homes, line);
    }
    match Vec::from_slice(alloc, &homes) {
        Ok(homes) => Ok(homes),
        Err(_) => Err(NoMemory),
    }
}

/// A fresh interface of a node.
fn open_interface(
    alloc: Global,
    settings: &Settings,
    lines: &[EndLine],
    node: NodeId,
) -> Result<Interface, NoMemory>
    requires can_connect { CanConnect settings.now lines.now }
    requires node { node.0 < settings.now.nodes }
    ensures { IfOk result (λ interface. IsFresh settings.now lines.now node interface) }
{
    let homes = all_homes(alloc, lines)?;
    let set = IfaceSettings {
        node,
        nodes: settings.nodes,
        channels: settings.channels,
        tries: settings.tries,
        bounces: settings.bounces,
        log: settings.log,
        homes,
    };
    Interface::new(alloc, set)
}

/// How many interfaces there are, and how many disks.
pub(crate) fn interfaces_of(settings: &Settings) -> u8
    ensures { result ≡ (if is_direct settings.now.network then 0 else settings.now.nodes) }
{
    match settings.network {
        Network::Direct => 0,
        Network::Packet => settings.nodes,
    }
}

/// The fresh interfaces of a cluster: one for each node of the packet network.
pub(crate) fn open_interfaces(
    alloc: Global,
    settings: &Settings,
    lines: &[EndLine],
) -> Result<Vec<Interface>, NoMemory>
    requires { CanConnect settings.now lines.now }
    ensures { IfOk result (λ interfaces. AreFresh settings.now lines.now interfaces.items) }
{
    let mut all = Vec::new(alloc);
    let count = interfaces_of(settings);
    for node in 0..count {
        let interface = open_interface(alloc, settings, lines, NodeId(node))?;
        let Ok(()) = all.push(interface) else {
            return Err(NoMemory);
        };
    }
    Ok(all)
}
