//! What became of a packet.

ghost use Rattle.am_lab_reasons.specs.Packets.{never, packet_line, receipt, received_lines, received_or, way_line};
ghost use Rattle.am_lab_reasons.specs.Packets as packets;
ghost use Rattle.am_lab_reasons.specs.Receipts as receipts;
ghost use Rattle.am_lemmas.specs.Numbered.{numbered};
ghost use Rattle.am_scenario_plan.specs.Shape as shapes;
ghost use Rattle.am_scenario_plan.specs.declared.plan.LinkFault.TheVariants.{Late};
ghost use Rattle.std.specs.Prelude.{◌≡◌, ◌<◌, ◌^◌, ◌++◌, OnOk, Some, length};

use crate::receipts::TracedJournal;
use am_names::{Packet, Way};
use am_office_text::LinePiece::{Number, Text};
use am_office_text::{count, put_end, put_spaced, put_word, small};
use am_scenario_plan::{LinkFault, PlanLine};
use std::alloc::AllocError;

// Appends the numbers of the lines that receive the packet, of which the first is that of the entry at this place.
fn put_receipts(
    out: &mut Vec<u8>,
    journal: &TracedJournal,
    way: Way,
    first: usize,
) -> Result<(), AllocError>
    requires few { length journal.now < 2 ^ 31 }
    requires first { receipts.first_receipt journal.now way ≡ Some first }
    ensures { OnOk result (out.new.items ≡ out.old.items ++ numbered (receipt way.from way.to way.number) 3 journal.now) }
{
    let mut next = Some(first);
    while let Some(place) = next {
        put_spaced(out, &[Number(place as u64 + 3)])?;
        next = journal.later_receipt(place);
    }
    Ok(())
}

// What the plan says of a packet.
fn fault_at(plan: &[PlanLine], way: Way) -> Option<LinkFault>
    ensures { result ≡ shapes.fault_at plan.now way.from way.to way.number }
{
    match plan.iter().find(|line| {
        way.from.0 == line.from.0 && way.to.0 == line.to.0 && way.number == line.number
    }) {
        Some(line) => Some(line.fault),
        None => None,
    }
}

#[tactic(auto, using(std::proofs::Common::append_assoc))]
fn put_late(out: &mut Vec<u8>, by: u8) -> Result<(), AllocError>
    ensures { OnOk result (out.new.items ≡ out.old.items ++ never (Some (Late by))) }
{
    put_word(out, Text(" held back by the plan for"))?;
    put_spaced(out, &[small(by)])
}

// Appends why a packet never was received.
fn put_never(out: &mut Vec<u8>, fault: Option<LinkFault>) -> Result<(), AllocError>
    ensures { OnOk result (out.new.items ≡ out.old.items ++ never fault) }
{
    match fault {
        None => put_word(out, Text(" not received")),
        Some(LinkFault::Repeat) => put_word(out, Text(" not received")),
        Some(LinkFault::Lose) => put_word(out, Text(" lost by the plan")),
        Some(LinkFault::Late(by)) => put_late(out, by),
    }
}

// Appends the lines that receive the packet.
#[tactic(auto, using(std::proofs::Common::append_assoc), unfolding(crate::specs::Packets::received_lines))]
fn put_lines(
    out: &mut Vec<u8>,
    journal: &TracedJournal,
    way: Way,
    first: usize,
) -> Result<(), AllocError>
    requires few { length journal.now < 2 ^ 31 }
    requires first { receipts.first_receipt journal.now way ≡ Some first }
    ensures { OnOk result (out.new.items ≡ out.old.items ++ received_lines journal.now way.from way.to way.number) }
{
    put_word(out, Text(" received line"))?;
    put_receipts(out, journal, way, first)
}

// Appends the lines that receive the packet, or why it never was received.
fn put_received(
    out: &mut Vec<u8>,
    plan: &[PlanLine],
    journal: &TracedJournal,
    way: Way,
) -> Result<(), AllocError>
    requires { length journal.now < 2 ^ 31 }
    ensures { OnOk result (out.new.items ≡ out.old.items ++ received_or (packets.is_received way.from way.to way.number journal.now) plan.now journal.now way.from way.to way.number) }
{
    match journal.first_receipt(way) {
        Some(first) => put_lines(out, journal, way, first),
        None => put_never(out, fault_at(plan, way)),
    }
}

#[tactic(auto, using(std::proofs::Common::append_assoc))]
fn put_way(
    out: &mut Vec<u8>,
    plan: &[PlanLine],
    journal: &TracedJournal,
    way: Way,
) -> Result<(), AllocError>
    requires { length journal.now < 2 ^ 31 }
    ensures { OnOk result (out.new.items ≡ out.old.items ++ way_line plan.now journal.now way.from way.to way.number) }
{
    put_word(out, Text("packet"))?;
    put_spaced(
        out,
        &[
            count(way.number),
            Text("from"),
            small(way.from.0),
            Text("to"),
            small(way.to.0),
        ],
    )?;
    put_received(out, plan, journal, way)?;
    put_end(out)
}

/// Appends what became of a packet, if there is one.
pub(crate) fn put_packet(
    out: &mut Vec<u8>,
    plan: &[PlanLine],
    journal: &TracedJournal,
    packet: Option<Packet>,
) -> Result<(), AllocError>
    requires { length journal.now < 2 ^ 31 }
    ensures { OnOk result (out.new.items ≡ out.old.items ++ packet_line plan.now journal.now packet) }
{
    match packet {
        Some(packet) => put_way(out, plan, journal, packet.way()),
        None => Ok(()),
    }
}
