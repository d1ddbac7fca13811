//! The numbers of a translation table and of handlers: which are in range, and what shares are together.

ghost use Rattle.am_model.specs.Calls.{share_of};
ghost use Rattle.am_model.specs.History.{are_credits_in_range, is_kind_in_range};
ghost use Rattle.std.specs.Prelude.{◌≡◌, ◌≤◌, sum_by};

use crate::Mapping;
use am_office_entries::HandlerKind;

/// Whether a number may be the credits of an index, 1 to 8, or its least share where there is a pool, 0 to 8.
pub fn are_credits_in_range(pool: Option<u8>, credits: u8) -> bool
    ensures { result ≡ are_credits_in_range pool credits }
{
    match pool {
        None => 1 <= credits && credits <= 8,
        Some(_) => credits <= 8,
    }
}

/// Whether the handler that a handler of this kind replies to, if it replies, is 1 to 15.
pub fn is_kind_in_range(kind: HandlerKind) -> bool
    ensures { result ≡ is_kind_in_range kind }
{
    match kind {
        HandlerKind::Note => true,
        HandlerKind::Echo(to) | HandlerKind::Add(to) => 1 <= to && to < 16,
    }
}

fn share_of(mapping: Option<Mapping>) -> usize
    ensures { result ≡ share_of mapping }
{
    match mapping {
        None => 0,
        Some(mapping) => mapping.credits as usize,
    }
}

/// The sum of the shares, or of the credits, of the mapped indexes. It is to be at most 128, as that of 16 indexes is.
pub fn sum_of_shares(mapped: &[Option<Mapping>]) -> usize
    requires { sum_by share_of mapped.now ≤ 128 }
    ensures { result ≡ sum_by share_of mapped.now }
{
    mapped.iter().map(|mapping| share_of(*mapping)).sum()
}
