//! The body of an endpoint: all that it keeps but where it lies. Once it is made nothing here takes memory.
#![tactic(auto)]

ghost use Rattle.am_model.specs.Endpoint.{fresh};
ghost use Rattle.std.specs.Prelude.{◌≡◌, [], IfOk};

mod bare;
mod changes;
mod copies;
mod flights;
mod held;
mod mappings;
mod moves;
mod notices;
mod polls;
mod queues;
mod received;
mod records;
mod requests;
mod runs;
mod settings;
mod tags;
mod walks;

pub use crate::settings::EndSettings;
use am_block::Block;
use am_handlers::Handlers;
use am_names::Tag;
use am_office_entries::NoMemory;
use am_translate::Translate;
use std::alloc::Global;
use std::marker::Model;

/// The slots of a body: 16 for requests and 16 for replies of its own, 16 for requests and 32 for replies of others.
pub const SLOTS: u8 = 80;

/// The body of an endpoint. Contracts see its pool, the body that the machine's definitions speak of, with lists of
/// messages in place of slots, and the slots of the messages in flight.
#[derive(Drop)]
pub struct Body {
    /// The own tag.
    pub tag: Tag,
    /// What the handlers that add have summed up, modulo 2^64.
    pub sum: u64,
    /// How many messages it accepted.
    pub accepted: u32,
    pub translate: Translate,
    pub handlers: Handlers,
    pub block: Block,
}

impl Model for Body {
    ghost use Rattle.am_endpoint_body.specs.Views.{View};

    ghost Value = { View };

    ghost use Rattle.am_endpoint_body.specs.Kept.{IsSound, view_of};

    ghost view = { view_of };

    ghost invariant = { IsSound };
}

impl Body {
    /// The body that an endpoint with these settings begins with.
    pub fn opening(alloc: Global, set: &EndSettings) -> Result<Body, NoMemory>
        ensures body { IfOk result (λ b. b.body ≡ (fresh set.now.tag set.now.place).body) }
        ensures pool { IfOk result (λ b. b.pool ≡ set.now.pool) }
        ensures flights { IfOk result (λ b. b.flights ≡ []) }
    {
        match Block::new(alloc, SLOTS) {
            Ok(block) => Ok(Body {
                tag: set.tag,
                sum: 0,
                accepted: 0,
                translate: Translate::new(set.pool),
                handlers: Handlers::new(),
                block,
            }),
            Err(fault) => Err(fault),
        }
    }
}
