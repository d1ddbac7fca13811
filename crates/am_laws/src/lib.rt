//! The laws of the post office over every history, all together, and the one fate of each message.
#![tactic(auto)]

ghost use Rattle.am_laws.specs.Fates.{HasOneFate};
ghost use Rattle.am_model.specs.History.{IsHistory};
ghost use Rattle.am_model.specs.Layout.{IsLawful, Layout};
ghost use Rattle.am_model.specs.PostOffice.{PostOffice};
ghost use Rattle.am_names.specs.declared.Serial.{Serial};
ghost use Rattle.am_office_entries.specs.declared.Entry.{Entry};
ghost use Rattle.std.specs.Prelude.{List};

pub mod credits;
pub mod fates;
pub mod messages;
pub mod order;
pub mod replies;

/// Each history of a lawful layout obeys all nine laws of the post office, on either network, with
/// a pool or without: whatever is lost, repeated, late, out of order or given up, and wherever the
/// endpoints lie.
pub fn post_office()
    ensures { (layout : Layout) (journal : List Entry) → IsLawful layout → IsHistory layout journal → PostOffice layout journal }
{}

/// In each history every accepted message has exactly one fate, which says what became of it: what
/// is returned was put and run nowhere and is not unknown, what ran ran once, and so on. A serial
/// that was not accepted has none.
pub fn one_fate()
    ensures { (layout : Layout) (journal : List Entry) → IsHistory layout journal → (s : Serial) → HasOneFate journal s }
{}
