//! Endpoints of several nodes are gathered in the order in which they are declared.

ghost use Rattle.am_model_scripts.specs.Layout.{setting_of};
ghost use Rattle.am_machine.specs.Node.Gathered.{AreDeclared, AreOfGroups, HasOne, IsLastOf, setting_in};
ghost use Rattle.std.specs.Prelude.{◌≡◌, ◌<◌, ◌≤◌, [], length, map, vec_capacity};

use am_endpoint::Endpoint;
use am_names::NodeId;
use am_scenario_types::EndLine;

/// Takes the last endpoint of a node that has one.
fn last_of(groups: &mut Vec<Vec<Endpoint>>, node: NodeId) -> Endpoint
    requires within { node.0 < length groups.old.items }
    requires some { HasOne groups.old.items node }
    ensures { IsLastOf groups.old.items node result groups.new.items }
{
    groups[node.0 as usize].pop().unwrap()
}

/// The endpoints of all nodes in the order in which they are declared, in a list that has room for them. Those of each node
/// are given from the last to the first.
pub fn gather(
    lines: &[EndLine],
    mut groups: Vec<Vec<Endpoint>>,
    mut ends: Vec<Endpoint>,
) -> Vec<Endpoint>
    requires declared { AreDeclared lines.now groups.items }
    requires none { ends.items ≡ [] }
    requires room { length lines.now ≤ vec_capacity ends }
    ensures settings { map setting_in result.items ≡ map setting_of lines.now }
    ensures own { AreOfGroups groups.items result.items }
{
    for line in lines {
        let end = last_of(&mut groups, line.node);
        ends.push(end).unwrap();
    }
    ends
}
