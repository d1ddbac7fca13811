//! A body of its counts and tables.

ghost use Rattle.am_endpoint_body.specs.Parts.{bare_body};
ghost use Rattle.am_handlers.specs.Handlers.{IsTable as IsHandlers};
ghost use Rattle.am_translate.specs.Tables.{IsTable};
ghost use Rattle.std.specs.Prelude.{◌≡◌, [], IfOk};

use crate::{Body, SLOTS};
use am_block::Block;
use am_handlers::Handlers;
use am_names::Tag;
use am_office_entries::NoMemory;
use am_translate::Translate;
use std::alloc::Global;

impl Body {
    /// The body that has these counts and tables, and no message.
    pub fn bare(
        alloc: Global,
        tag: Tag,
        sum: u64,
        accepted: u32,
        translate: Translate,
        handlers: Handlers,
    ) -> Result<Body, NoMemory>
        requires table { IsTable translate }
        requires handlers { IsHandlers handlers }
        ensures body { IfOk result (λ b. b.body ≡ bare_body tag sum accepted translate handlers) }
        ensures pool { IfOk result (λ b. b.pool ≡ translate.pool) }
        ensures flights { IfOk result (λ b. b.flights ≡ []) }
    {
        match Block::new(alloc, SLOTS) {
            Ok(block) => Ok(Body {
                tag,
                sum,
                accepted,
                translate,
                handlers,
                block,
            }),
            Err(fault) => Err(fault),
        }
    }
}
