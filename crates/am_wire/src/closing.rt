//! How a link is made, and what went over it when it is closed.

ghost use Rattle.std.specs.Prelude.{◌≡◌, [], ◌++◌, IfOk};
ghost use Rattle.am_wire.specs.Links.{IsLink, IsOf, emitted, free_places, pumped, received, released};

use crate::receiving::LinkIn;
use crate::sending::LinkOut;
use am_names::{NoMemory, NodeId, Packet};
use am_scenario_plan::PlanLine;
use am_wire_relay::{RelayRecord, close_relay, make_relay};
use am_wire_release::LinkFaults;
use std::alloc::Global;

/// What went over a link.
///
/// ```
/// let LinkRecord { emitted, received, left } = close(alloc, out, inn)?;
/// ```
#[derive(Drop)]
pub struct LinkRecord {
    /// The packets that were emitted, in order.
    pub emitted: Vec<Packet>,
    /// The packets that were received, in order.
    pub received: Vec<Packet>,
    /// The packets that were released and not received, in order.
    pub left: Vec<Packet>,
}

/// A link from a node to a node, on which nothing was emitted. Of the plan only the lines of this link count. `NoMemory`
/// comes only for want of memory.
pub fn make_link(
    alloc: Global,
    plan: Vec<PlanLine>,
    from: NodeId,
    to: NodeId,
) -> Result<(LinkOut, LinkIn), NoMemory>
    ensures link { IfOk result (λ ends. IsLink ends.0 ends.1) }
    ensures plan { IfOk result (λ ends. IsOf plan.items from to ends.0) }
    ensures emitted { IfOk result (λ ends. emitted ends.0 ≡ []) }
    ensures pumped { IfOk result (λ ends. pumped ends.0 ≡ []) }
    ensures received { IfOk result (λ ends. received ends.1 ≡ []) }
    ensures places { IfOk result (λ ends. free_places ends.0 ≡ 64) }
{
    let faults = LinkFaults::of_link(alloc, plan.as_slice(), from, to)?;
    let (out, inn) = make_relay(alloc, faults)?;
    let out = LinkOut {
        relay: out,
        plan,
        from,
        to,
    };
    Ok((movable(out), movable(LinkIn { relay: inn })))
}

/// Each end can be moved to another thread.
fn movable<T: Send>(end: T) -> T
    ensures { result ≡ end }
{
    end
}

/// What was emitted, what was received, and what is left: received and then left are the shape of what was emitted.
/// `NoMemory` comes only for want of memory; the link is gone then.
///
/// ```
/// let link = close(alloc, out, inn)?;
/// let is_done = link.left.is_empty();
/// ```
#[tactic(auto, using(crate::proofs::Packets::same_shape))]
pub fn close(alloc: Global, out: LinkOut, inn: LinkIn) -> Result<LinkRecord, NoMemory>
    requires { IsLink out inn }
    ensures emitted { IfOk result (λ link. link.emitted.items ≡ emitted out) }
    ensures received { IfOk result (λ link. link.received.items ≡ received inn) }
    ensures shape { IfOk result (λ link. link.received.items ++ link.left.items ≡ released out) }
{
    let RelayRecord {
        emitted,
        received,
        left,
    } = close_relay(alloc, out.relay, inn.relay)?;
    Ok(LinkRecord {
        emitted,
        received,
        left,
    })
}
