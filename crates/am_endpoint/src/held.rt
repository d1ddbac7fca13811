//! What an endpoint keeps of its state, in memory and on disk.

ghost use Rattle.am_endpoint.specs.Held.{IsHeldOf, head_of, held_wanted};
ghost use Rattle.am_model.specs.Endpoint.{fresh};
ghost use Rattle.std.specs.Prelude.{◌≡◌, IfOk};

use crate::fields::Fields;
use am_endpoint_body::{Body, EndSettings};
use am_model::{Head, is_on_disk};
use am_names::NoMemory;
use std::alloc::Global;

/// What is kept of a state: all of it in memory, and on disk its head alone.
#[derive(Drop)]
pub enum HeldEndpoint {
    Here(Fields),
    OnDisk(Head),
}

impl HeldEndpoint {
    /// What is kept of a fresh endpoint. On disk nothing takes memory.
    pub fn opening(alloc: Global, set: &EndSettings) -> Result<HeldEndpoint, NoMemory>
        ensures { IfOk result (λ held. IsHeldOf set.now.pool (fresh set.now.tag set.now.place) held) }
    {
        let head = Head {
            place: set.place,
            wanted: false,
            draining: false,
            closed: false,
        };
        if is_on_disk(set.place) {
            return Ok(HeldEndpoint::OnDisk(head));
        }
        match Body::opening(alloc, set) {
            Ok(body) => Ok(HeldEndpoint::Here(Fields { head, body })),
            Err(fault) => Err(fault),
        }
    }

    /// What stays in memory of the endpoint, wherever it is.
    pub fn head(&self) -> Head
        ensures { result ≡ head_of self.now }
    {
        match self {
            HeldEndpoint::Here(fields) => fields.head,
            HeldEndpoint::OnDisk(head) => *head,
        }
    }

    /// Wanted from now on, or not.
    pub fn set_wanted(&mut self, wanted: bool)
        ensures { self.new ≡ held_wanted self.old wanted }
    {
        match self {
            HeldEndpoint::Here(fields) => fields.head.wanted = wanted,
            HeldEndpoint::OnDisk(head) => head.wanted = wanted,
        }
    }
}
