//! Bundles: endpoints of one node that are polled together, and which of their events are told.
#![tactic(auto)]

ghost use Rattle.std.specs.Prelude.{◌≡◌, ◌↔◌, ◌⊎◌, IfOk, map, find};
ghost use Rattle.am_bundle.specs.Calls.{NoneIsAmong, poll_calls, test_calls, is_among, readiness};

use am_names::{EndpointId, NoMemory};
use am_office_entries::{Call, Mask};
use std::alloc::Global;
use std::marker::Model;

/// Endpoints of one node, in the order in which they are polled.
#[derive(Drop)]
pub struct Bundle {
    /// The bundle's number, 0 to 63.
    pub id: u8,
    /// Which events of the members are told.
    pub mask: Mask,
    /// The members, none of them twice.
    pub members: Vec<EndpointId>,
}

impl Model for Bundle {
    ghost use Rattle.am_bundle.specs.Lists.{BundleLists};

    ghost Value = { BundleLists };

    ghost view = { λ b. record { id = b.id; mask = b.mask; members = b.members.items } };
}

/// What a bundle tells of its members.
#[derive(Clone, Copy, PartialEq, Eq)]
pub enum Readiness {
    /// The first member with something to poll.
    Ready(EndpointId),
    /// No member has anything to poll, or the bundle tells no events.
    NotYet,
}

impl Bundle {
    /// One poll for each member, in the bundle's order. `NoMemory` leaves the bundle as it is.
    pub fn poll_calls(&self, alloc: Global) -> Result<Vec<(EndpointId, Call)>, NoMemory>
        ensures { IfOk result (λ calls. calls.items ≡ poll_calls self.now) }
    {
        each_with(alloc, &self.members, Call::Poll)
    }

    /// One test of the bundle's mask for each member, in the bundle's order. `NoMemory` leaves the bundle as it is.
    pub fn test_calls(&self, alloc: Global) -> Result<Vec<(EndpointId, Call)>, NoMemory>
        ensures { IfOk result (λ calls. calls.items ≡ test_calls self.now) }
    {
        each_with(alloc, &self.members, Call::Test(self.mask))
    }

    /// The first member that is among the pollable endpoints, where the bundle tells that its members aren't empty. `NotYet`
    /// exactly where the bundle tells no events, or no member is among them.
    pub fn ready(&self, pollable: &[EndpointId]) -> Readiness
        ensures member { result ≡ readiness self.now pollable.now }
        ensures not_yet { (result ≡ Readiness.NotYet) ↔ ((self.now.mask ≡ Mask.NoEvents) ⊎ NoneIsAmong pollable.now self.now.members) }
    {
        match self.mask {
            Mask::NoEvents => Readiness::NotYet,
            Mask::NotEmpty => match first_among(&self.members, pollable) {
                Some(member) => Readiness::Ready(member),
                None => Readiness::NotYet,
            },
        }
    }
}

fn each_with(
    alloc: Global,
    members: &[EndpointId],
    call: Call,
) -> Result<Vec<(EndpointId, Call)>, NoMemory>
    ensures { IfOk result (λ calls. calls.items ≡ map (λ member. (member, call)) members.now) }
{
    let mut calls = Vec::with_capacity(alloc, members.len())?;
    for member in members {
        calls.push((*member, call))?;
    }
    Ok(calls)
}

fn is_among(member: EndpointId, others: &[EndpointId]) -> bool
    ensures { result ≡ is_among others.now member }
{
    others.iter().any(|other| other.0 == member.0)
}

fn first_among(members: &[EndpointId], pollable: &[EndpointId]) -> Option<EndpointId>
    ensures { result ≡ find (is_among pollable.now) members.now }
{
    members
        .iter()
        .copied()
        .find(|member| is_among(*member, pollable))
}
