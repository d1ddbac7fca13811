//! A worked row of a translation table, by hand.

ghost use Rattle.am_names.specs.Names.{same_serial};
ghost use Rattle.am_translate.specs.Tables.{is_known};
ghost use Rattle.std.specs.Prelude.{◌≡◌};

use am_names::{EndpointId, Serial, Tag};
use am_translate::{CreditFault, Held, MapFault, Target, Translate, UnmapFault};
use std::marker::Model;

const TARGET: Target = Target {
    name: EndpointId(1),
    tag: Tag(7),
};

fn is_of(request: Serial, held: &Held) -> bool
    ensures { result ≡ same_serial request held.now.serial }
{
    request == held.serial
}

fn is_known(table: &Translate, request: Serial) -> bool
    ensures { result ≡ is_known table.now request }
{
    table.records().iter().any(|a| is_of(request, a))
}

/// A table without a pool.
#[derive(Drop)]
struct Table {
    table: Translate,
}

impl Model for Table {
    ghost use Rattle.std.specs.Prelude.{◌≡◌, None, Option, ℕ};

    ghost Value = { Option ℕ };

    ghost view = { λ t. t.table.pool };

    ghost invariant = { λ t. t.table.pool ≡ None };
}

impl Table {
    /// Maps an index with eight credits.
    fn map(&mut self, index: u8) -> Result<(), MapFault> {
        self.table.map(index, TARGET.name, TARGET.tag, 8)
    }

    /// Takes a credit of an index for the request with this count. None: it waits for a reply already.
    fn take(&mut self, index: u8, count: u32) -> Option<Result<Target, CreditFault>> {
        let source = EndpointId(0);
        let request = Serial { source, count };
        if is_known(&self.table, request) {
            return None;
        }
        Some(self.table.take_credit(index, request))
    }

    fn unmap(&mut self, index: u8) -> Result<(), UnmapFault> {
        self.table.unmap(index)
    }
}

#[test]
fn a_table_fills(rt: HostRuntime) {
    let mut table = Table {
        table: Translate::new(None),
    };
    for index in 0..5 {
        assert!(rt; table.map(index) == Ok(()));
    }
    for count in 0..32u32 {
        let index = (count / 8) as u8;
        assert!(rt; table.take(index, count + 1) == Some(Ok(TARGET)));
    }
    assert!(rt; table.take(4, 33) == Some(Err(CreditFault::TableFull)));
    assert!(rt; table.take(0, 33) == Some(Err(CreditFault::NoCredit)));
    assert!(rt; table.table.held_at(31).is_some());
    assert!(rt; table.table.held_at(32).is_none());
    assert!(rt; table.unmap(0) == Err(UnmapFault::Outstanding(8)));
    assert!(rt; table.unmap(4) == Ok(()));
    assert!(rt; table.unmap(4) == Err(UnmapFault::NotMapped));
    assert!(rt; table.map(16) == Err(MapFault::BadIndex));
}
