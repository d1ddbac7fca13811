//! Where the requests of an endpoint go.

ghost use Rattle.am_endpoint_body.specs.Refusals.{of_map, of_unmap};
ghost use Rattle.am_endpoint_body.specs.Views.{on_host};
ghost use Rattle.am_model.specs.Calls.{map_refusal, unmap_refusal};
ghost use Rattle.am_model.specs.Changes.{with_mapped};
ghost use Rattle.am_model.specs.History.{are_credits_in_range};
ghost use Rattle.std.specs.Prelude.{◌≡◌, None, Some, OnErr, OnOk, true};
ghost use Rattle.std.specs.Result.{result_err};

use crate::Body;
use am_names::{EndpointId, Tag};
use am_office_entries::Refusal;
use am_translate::{MapFault, UnmapFault};

fn of_map(fault: MapFault) -> Refusal
    ensures { result ≡ of_map fault }
{
    match fault {
        MapFault::BadIndex => Refusal::BadIndex,
        MapFault::InUse => Refusal::InUse,
        MapFault::OverShare(sum) => Refusal::OverShare(sum),
    }
}

fn of_unmap(fault: UnmapFault) -> Refusal
    ensures { result ≡ of_unmap fault }
{
    match fault {
        UnmapFault::BadIndex => Refusal::BadIndex,
        UnmapFault::NotMapped => Refusal::NotMapped,
        UnmapFault::Outstanding(count) => Refusal::Outstanding(count),
    }
}

impl Body {
    /// Maps an index, with credits 1 to 8, or with a least share 0 to 8 where there is a pool. The refusal is the first
    /// that holds of `BadIndex`, `InUse` and `OverShare`; then the body is as it was.
    pub fn map(&mut self, index: u8, name: EndpointId, tag: Tag, credits: u8) -> Result<(), Refusal>
        requires { are_credits_in_range self.old.pool credits ≡ true }
        ensures refusal { result_err result ≡ map_refusal self.old.pool (on_host self.old.body) index credits }
        ensures ok { OnOk result (self.new ≡ record self.old { body = with_mapped self.old.body index (Some (record { name = name; tag = tag; credits = credits })) }) }
        ensures err { OnErr result (self.new ≡ self.old) }
    {
        match self.translate.map(index, name, tag, credits) {
            Ok(()) => {}
            Err(fault) => return Err(of_map(fault)),
        }
        Ok(())
    }

    /// Takes an index's mapping away. The refusal is the first that holds of `BadIndex`, `NotMapped` and `Outstanding`;
    /// then the body is as it was.
    pub fn unmap(&mut self, index: u8) -> Result<(), Refusal>
        ensures refusal { result_err result ≡ unmap_refusal (on_host self.old.body) index }
        ensures ok { OnOk result (self.new ≡ record self.old { body = with_mapped self.old.body index None }) }
        ensures err { OnErr result (self.new ≡ self.old) }
    {
        match self.translate.unmap(index) {
            Ok(()) => {}
            Err(fault) => return Err(of_unmap(fault)),
        }
        Ok(())
    }
}
