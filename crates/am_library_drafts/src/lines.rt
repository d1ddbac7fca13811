//! The lines of a plan, as `Draft::plans` takes them: what a link does with the packet with this number among those that it carries.

ghost use Rattle.std.specs.Prelude.{◌≡◌};
ghost use Rattle.am_scenario_plan.specs.declared.plan.LinkFault.TheVariants.{Late, Lose, Repeat};
ghost use Rattle.am_library_drafts.specs.Drafts.{planned};

use am_names::NodeId;
use am_scenario_types::{LinkFault, PlanLine};

fn line(from: NodeId, to: NodeId, number: u32, fault: LinkFault) -> PlanLine
    ensures { result ≡ planned from to number fault }
{
    PlanLine {
        from,
        to,
        number,
        fault,
    }
}

/// It is lost.
pub fn lost(from: NodeId, to: NodeId, number: u32) -> PlanLine
    ensures { result ≡ planned from to number Lose }
{
    line(from, to, number, LinkFault::Lose)
}

/// It comes twice.
pub fn repeated(from: NodeId, to: NodeId, number: u32) -> PlanLine
    ensures { result ≡ planned from to number Repeat }
{
    line(from, to, number, LinkFault::Repeat)
}

/// It comes so many packets later.
pub fn late(from: NodeId, to: NodeId, number: u32, by: u8) -> PlanLine
    ensures { result ≡ planned from to number (Late by) }
{
    line(from, to, number, LinkFault::Late(by))
}
