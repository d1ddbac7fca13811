//! The law of credits over every history.

ghost use Rattle.am_laws.specs.Credits.Pool.{IsWithinPool};
ghost use Rattle.am_model.specs.History.{IsHistory, state_of};
ghost use Rattle.am_model.specs.Layout.{IsLawful, Layout};
ghost use Rattle.am_model.specs.PostOffice.{CreditsHold};
ghost use Rattle.am_names.specs.declared.EndpointId.{EndpointId};
ghost use Rattle.am_office_entries.specs.declared.Entry.{Entry};
ghost use Rattle.std.specs.Prelude.{◌≡◌, ℕ, List, Some};

/// The law of credits, in each history of a lawful layout on either network, with a pool or without.
pub fn credits_hold()
    ensures { (layout : Layout) (journal : List Entry) → IsLawful layout → IsHistory layout journal → CreditsHold layout journal }
{}

/// With a pool, in each history of a lawful layout on either network, the records of an endpoint
/// above its shares are within the pool, its shares with the pool are at most 32, and an index that
/// is not mapped has no records.
pub fn records_within_pool()
    ensures { (layout : Layout) (past : List Entry) (pool : ℕ) → layout.pool ≡ Some pool → IsLawful layout → IsHistory layout past → (e : EndpointId) → IsWithinPool pool (state_of layout past e).body }
{}
