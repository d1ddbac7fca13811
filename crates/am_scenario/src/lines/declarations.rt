//! Lines of section 3, bundles aside.

ghost use Rattle.std.specs.Prelude.{◌==◌};
ghost use Rattle.am_lexer.specs.Text.{words_of};
ghost use Rattle.am_lexer.specs.Fields.{Gives};
ghost use Rattle.am_scenario.specs.Drafts.Drafts.{said};
ghost use Rattle.am_scenario.specs.Lines.Declarations.{disk_at, endpoint_line, thread_line, link_fault_at, plan_line, swap_fault_line};

use crate::drafts::{Draft, Line};
use crate::lines::keyword::is_word;
use crate::lines::places::{take_node, take_tag};
use am_lexer::{What, next_word, take_byte, take_end, take_u32, take_word};
use am_names::EndpointId;
use am_scenario_types::{EndLine, FaultLine, LinkFault, Network, PlanLine, ThreadLine};

#[tactic(auto, unfolding(crate::specs::Lines::Declarations::disk_at))]
fn take_disk<'a>(draft: &Draft, rest: &'a [u8]) -> Result<(bool, &'a [u8]), What>
    ensures { Gives (λ found. (found.0, words_of found.1.now)) result (disk_at (said draft.now).settings (words_of rest.now)) }
{
    match next_word(rest) {
        None => Ok((false, rest)),
        Some((word, rest)) => {
            if !is_word(word, b"disk".as_slice()) {
                return Err(What::UnknownWord);
            }
            match draft.settings.network {
                Some(Network::Packet) => Ok((true, rest)),
                _ => Err(What::OutOfRange),
            }
        }
    }
}

/// The line that declares an endpoint, behind its first word, or its first fault.
#[tactic(auto, unfolding(crate::specs::Lines::Declarations::endpoint_line))]
pub fn endpoint_line(draft: &Draft, rest: &[u8]) -> Result<Line, What>
    ensures { Gives (λ line. line) result (endpoint_line (said draft.now) (words_of rest.now)) }
{
    let (id, rest) = take_byte(0, 255, rest)?;
    let (node, rest) = take_node(&draft.settings, rest)?;
    let (tag, rest) = take_tag(rest)?;
    let (disk, rest) = take_disk(draft, rest)?;
    take_end(rest)?;
    if draft.end_of(u64::from(id)).is_some() {
        return Err(What::Twice);
    }
    if draft.ends_of(node.0) >= 64 {
        return Err(What::TooMany);
    }
    Ok(Line::End(EndLine {
        id: EndpointId(id),
        node,
        tag,
        disk,
    }))
}

/// The line that declares a thread, behind its first word, or its first fault.
#[tactic(auto, unfolding(crate::specs::Lines::Declarations::thread_line))]
pub fn thread_line(draft: &Draft, rest: &[u8]) -> Result<Line, What>
    ensures { Gives (λ line. line) result (thread_line (said draft.now) (words_of rest.now)) }
{
    let (id, rest) = take_byte(0, 63, rest)?;
    let (node, rest) = take_node(&draft.settings, rest)?;
    take_end(rest)?;
    if draft.thread_of(u64::from(id)).is_some() {
        return Err(What::Twice);
    }
    if draft.threads_of(node.0) >= 4 {
        return Err(What::TooMany);
    }
    Ok(Line::Thread(ThreadLine { id, node }))
}

#[tactic(auto, unfolding(crate::specs::Lines::Declarations::link_fault_at))]
fn take_link_fault(rest: &[u8]) -> Result<(LinkFault, &[u8]), What>
    ensures { Gives (λ found. (found.0, words_of found.1.now)) result (link_fault_at (words_of rest.now)) }
{
    let (word, rest) = take_word(rest)?;
    if is_word(word, b"lose".as_slice()) {
        Ok((LinkFault::Lose, rest))
    } else if is_word(word, b"repeat".as_slice()) {
        Ok((LinkFault::Repeat, rest))
    } else if is_word(word, b"late".as_slice()) {
        let (by, rest) = take_byte(1, 16, rest)?;
        Ok((LinkFault::Late(by), rest))
    } else {
        Err(What::UnknownWord)
    }
}

/// A line of the plan, behind its first word, or its first fault.
#[tactic(auto, unfolding(crate::specs::Lines::Declarations::plan_line))]
pub fn plan_line(draft: &Draft, rest: &[u8]) -> Result<Line, What>
    ensures { Gives (λ line. line) result (plan_line (said draft.now) (words_of rest.now)) }
{
    let (from, rest) = take_node(&draft.settings, rest)?;
    let (to, rest) = take_node(&draft.settings, rest)?;
    let (number, rest) = take_u32(1, 65_536, rest)?;
    let (fault, rest) = take_link_fault(rest)?;
    take_end(rest)?;
    if draft.is_planned(from, to, number) {
        return Err(What::Twice);
    }
    if draft.plan.len() >= 4096 {
        return Err(What::TooMany);
    }
    Ok(Line::Plan(PlanLine {
        from,
        to,
        number,
        fault,
    }))
}

/// The line of a fault of a swap device, behind its first word, or its first fault.
#[tactic(auto, unfolding(crate::specs::Lines::Declarations::swap_fault_line))]
pub fn swap_fault_line(draft: &Draft, rest: &[u8]) -> Result<Line, What>
    ensures { Gives (λ line. line) result (swap_fault_line (said draft.now) (words_of rest.now)) }
{
    let (node, rest) = take_node(&draft.settings, rest)?;
    let (number, rest) = take_u32(1, 65_536, rest)?;
    take_end(rest)?;
    if draft.is_faulty(node, number) {
        return Err(What::Twice);
    }
    if draft.faults.len() >= 64 {
        return Err(What::TooMany);
    }
    Ok(Line::Fault(FaultLine { node, number }))
}
