//! Endpoints go to the shells of their nodes.

ghost use Rattle.am_machine.specs.Node.Dealt.{AreDealt, FitsShells, IsPut};
ghost use Rattle.std.specs.Prelude.{◌<◌, vec_capacity, vec_len};

use crate::node::shells::Shell;
use am_endpoint::Endpoint;

/// Puts an endpoint last in a shell that has room for it.
fn put(shell: &mut Shell, end: Endpoint)
    requires { vec_len shell.old.ends < vec_capacity shell.old.ends }
    ensures { IsPut shell.old end shell.new }
{
    shell.ends.push(end).unwrap();
}

/// Puts each endpoint last in the shell of its node, in their order.
pub fn deal(mut ends: Vec<Endpoint>, mut shells: Vec<Shell>) -> Vec<Shell>
    requires { FitsShells ends.items shells.items }
    ensures { AreDealt ends.items shells.items result.items }
{
    ends.reverse();
    while let Some(end) = ends.pop() {
        put(&mut shells[end.node().0 as usize], end);
    }
    shells
}
