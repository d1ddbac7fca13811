//! A table made of its parts, and its parts as lists.

ghost use Rattle.am_translate.specs.Tables.{IsTable};
ghost use Rattle.std.specs.Prelude.{◌≡◌, ◌≤◌, length};

use crate::Translate;
use crate::records::Records;
use am_model::{Awaited, Mapping};

impl Translate {
    /// The table that has this pool or none, these mappings, for the 16 indexes from 0 on, and these records, in order
    /// of acceptance.
    pub fn restored(pool: Option<u8>, mapped: &[Option<Mapping>], awaited: &[Awaited]) -> Translate
        requires { IsTable (record { pool = pool; mapped = mapped.now; awaited = awaited.now }) }
        ensures table { result ≡ record { pool = pool; mapped = mapped.now; awaited = awaited.now } }
        ensures sound { IsTable result }
    {
        let mut mappings = [None; 16];
        mappings.copy_from_slice(mapped);
        Translate {
            pool,
            mapped: mappings,
            awaited: Records::from_slice(awaited),
        }
    }

    /// What each of the 16 indexes is mapped to, from index 0 on.
    pub fn mappings(&self) -> &[Option<Mapping>]
        ensures { result.now ≡ self.now.mapped }
    {
        &self.mapped
    }

    /// The records in order of acceptance: at most 32.
    pub fn records(&self) -> &[Awaited]
        ensures items { result.now ≡ self.now.awaited }
        ensures few { length result.now ≤ 32 }
    {
        self.awaited.as_slice()
    }
}
