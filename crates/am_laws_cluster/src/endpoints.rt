//! The lists of every endpoint over every history: records, received messages, pools and bounces.

ghost use Rattle.am_model.specs.Cluster.{ArrivedMatchesReceived, BouncesAreRequeues, PoolsAreBounded, ReceivedTagMatches, WaitingIsOpen};
ghost use Rattle.am_model.specs.History.{IsHistory};
ghost use Rattle.am_model.specs.Layout.{Layout};
ghost use Rattle.am_office_entries.specs.declared.Entry.{Entry};
ghost use Rattle.std.specs.Prelude.{List};

/// In each history arrived records and received replies correspond one to one, no request has two
/// records, and one that is marked answered has a reply that was put.
pub fn arrived_matches_received()
    ensures { (layout : Layout) (past : List Entry) → IsHistory layout past → ArrivedMatchesReceived layout past }
{}

/// In each history every received message's tag matches the own tag.
pub fn received_tag_matches()
    ensures { (layout : Layout) (past : List Entry) → IsHistory layout past → ReceivedTagMatches layout past }
{}

/// In each history the request of a waiting record was accepted and isn't returned or unknown, its
/// reply isn't put, its endpoint is open, and the own tag is the one that the request carries as
/// reply tag and isn't `none`.
pub fn waiting_is_open()
    ensures { (layout : Layout) (past : List Entry) → IsHistory layout past → WaitingIsOpen layout past }
{}

/// In each history an endpoint holds at most 16 request slots and 16 reply slots, has at most 16
/// requests received and 32 records, and no more replies received than arrived records.
pub fn pools_are_bounded()
    ensures { (layout : Layout) (past : List Entry) → IsHistory layout past → PoolsAreBounded layout past }
{}

/// In each history the bounces of a message, wherever it lies at its source, are the number of its
/// requeues, and at most the limit.
pub fn bounces_are_requeues()
    ensures { (layout : Layout) (past : List Entry) → IsHistory layout past → BouncesAreRequeues layout past }
{}
