//! Laws over every history: what is returned, unknown, zeroed and bounced.

ghost use Rattle.am_model.specs.History.{IsHistory};
ghost use Rattle.am_model.specs.Layout.{Layout};
ghost use Rattle.am_model.specs.PostOffice.{BouncesBounded, OneZero, ReturnedNeverRan, UnknownOnce};
ghost use Rattle.am_office_entries.specs.declared.Entry.{Entry};
ghost use Rattle.std.specs.Prelude.{List};

/// The law of the unknown, in each history on either network.
pub fn unknown_once()
    ensures { (layout : Layout) (journal : List Entry) → IsHistory layout journal → UnknownOnce journal }
{}

/// The law of bounces, in each history on either network.
pub fn bounces_bounded()
    ensures { (layout : Layout) (journal : List Entry) → IsHistory layout journal → BouncesBounded layout journal }
{}

/// The law of return, in each history on either network.
pub fn returned_never_ran()
    ensures { (layout : Layout) (journal : List Entry) → IsHistory layout journal → ReturnedNeverRan journal }
{}

/// The law of notices, in each history on either network.
pub fn one_zero()
    ensures { (layout : Layout) (journal : List Entry) → IsHistory layout journal → OneZero journal }
{}
