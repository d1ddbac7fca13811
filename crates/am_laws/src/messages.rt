//! Laws over every history: what is accepted, delivered, returned, unknown, zeroed and bounced.

ghost use Rattle.am_model.specs.History.{EachAfter, IsHistory};
ghost use Rattle.am_model.specs.Layout.{Layout};
ghost use Rattle.am_model.specs.PostOffice.{AcceptedOnce, PutAndRunOnce, SendsOne, TagsMatch};
ghost use Rattle.am_office_entries.specs.declared.Entry.{Entry};
ghost use Rattle.std.specs.Prelude.{List, []};

/// The law of acceptance, in each history on either network.
pub fn accepted_once()
    ensures { (layout : Layout) (journal : List Entry) → IsHistory layout journal → AcceptedOnce layout journal }
{}

/// The law of delivery, in each history on either network.
pub fn put_and_run_once()
    ensures { (layout : Layout) (journal : List Entry) → IsHistory layout journal → PutAndRunOnce layout journal }
{}

/// The law of tags, in each history on either network.
pub fn tags_match()
    ensures { (layout : Layout) (journal : List Entry) → IsHistory layout journal → TagsMatch layout journal }
{}

/// The first half of the law of replies, in each history on either network: a reply is accepted only
/// in the run of its request, and each run of a request accepts exactly one.
pub fn one_reply_sent()
    ensures { (layout : Layout) (journal : List Entry) → IsHistory layout journal → EachAfter (λ past x. SendsOne x.event x.outcome) [] journal }
{}
