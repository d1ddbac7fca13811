//! The packets, marks and answers of every channel over every history.

ghost use Rattle.am_laws_cluster.specs.Channels.LateAttempt as late;
ghost use Rattle.am_model.specs.Cluster.{answer_channel, AnswersAreTrue, EndedSequencePutNothing, MarkIsOfParcel, ParcelsFitSender, put_on, has_put};
ghost use Rattle.am_model.specs.History.{IsHistory};
ghost use Rattle.am_model.specs.Layout.{Layout};
ghost use Rattle.am_model.specs.PostOffice.{Gave};
ghost use Rattle.am_names.specs.declared.Packet.TheVariants as Packets;
ghost use Rattle.am_office_entries.specs.Entries.{emitted_of};
ghost use Rattle.am_office_entries.specs.declared.Entry.{Entry};
ghost use Rattle.std.specs.Prelude.{◌≡◌, ◌∷◌, List, [], false, filter_map, true};

/// In each history a parcel has a sequence at most the sender's. Those of one sequence carry one
/// message, and each has a greater attempt than those emitted before it.
pub fn parcels_fit_sender()
    ensures { (layout : Layout) (past : List Entry) → IsHistory layout past → ParcelsFitSender past }
{}

/// In each history a mark other than the opening one is that of a parcel that was sent.
pub fn mark_is_of_parcel()
    ensures { (layout : Layout) (past : List Entry) → IsHistory layout past → MarkIsOfParcel past }
{}

/// In each history every answer is to a parcel that was sent. If it accepts, the parcel's message was
/// put in the parcel's sequence, and the mark is past that sequence, or at it and accepted. If it
/// refuses, the mark has come to its attempt, and no attempt up to that one was put.
pub fn answers_are_true()
    ensures { (layout : Layout) (past : List Entry) → IsHistory layout past → AnswersAreTrue past }
{}

/// In each history a sequence that ended in a requeue or a return has a mark at or past its last
/// attempt, and put nothing.
pub fn ended_sequence_put_nothing()
    ensures { (layout : Layout) (past : List Entry) → IsHistory layout past → EndedSequencePutNothing past }
{}

/// Why an answer that accepts doesn't say which attempt was taken: where a first attempt comes after
/// the second was taken, it is answered as taken, though no attempt up to it was. The message was put
/// once in the sequence.
pub fn a_late_first_attempt()
    ensures history { IsHistory late.layout late.journal }
    ensures answered { Gave emitted_of late.journal (Packets.Answer late.answer) }
    ensures untaken { has_put (answer_channel late.answer) 1 0 late.journal ≡ false }
    ensures taken { has_put (answer_channel late.answer) 1 1 late.journal ≡ true }
    ensures put_once { filter_map (put_on (answer_channel late.answer) 1) late.journal ≡ late.request ∷ [] }
{}
