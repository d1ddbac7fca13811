//! The ends of channels by their calls are the ends that the definitions count in the entries that tell of these calls.

ghost use Rattle.am_channel.specs.Ends.{new_ends};
ghost use Rattle.am_channel.specs.declared.ends.Ends.{Ends};
ghost use Rattle.am_channel.specs.Calls.{Call, TellsCall, after};
ghost use Rattle.am_channel.specs.Counted.{AreCounted};
ghost use Rattle.am_channel.specs.Folded.{Told, AreMade, ends_after, entries_of};
ghost use Rattle.am_channel.specs.Lost as lost;
ghost use Rattle.am_model.specs.Channels.{Channel, sequence};
ghost use Rattle.am_names.specs.declared.Verdict.{Verdict};
ghost use Rattle.am_office_entries.specs.declared.Entry.{Entry};
ghost use Rattle.std.specs.Prelude.{◌≡◌, ◌≢◌, ◌≤◌, None, List, [], ◌∷◌, ◌++◌, length};

/// Ends that no call was made on are those of an empty log.
pub fn new_ends_are_counted()
    ensures { (c : Channel) → AreCounted c [] new_ends }
{}

/// Where the ends of a channel are counted in a log, and a call is made on them, the ends that the call leaves are
/// counted in the log with the entry that tells of the call.
pub fn a_call_is_counted()
    ensures { (c : Channel) (log : List Entry) (ends : Ends) (call : Call) (x : Entry) → AreCounted c log ends → TellsCall c ends call x → AreCounted c (log ++ x ∷ []) (after ends call) }
{}

/// So are the ends of every other channel, as they were.
pub fn a_call_leaves_other_channels()
    ensures { (c d : Channel) (log : List Entry) (ends at : Ends) (call : Call) (x : Entry) → AreCounted c log ends → TellsCall d at call x → d ≢ c → AreCounted c (log ++ x ∷ []) ends }
{}

/// Whichever binds, time-outs, answers and arrivals are made on the ends of whichever channels, each where its
/// condition holds: in the end each channel has the sequence, the attempt, the bound message, the mark and its verdict
/// that the definitions count in the entries that tell of them.
pub fn calls_are_counted()
    ensures { (told : List Told) → AreMade (λ _. new_ends) told → (c : Channel) → AreCounted c (entries_of told) (ends_after (λ _. new_ends) told c) }
{}

/// A channel was bound at most once with each entry, so a log of fewer than 2^32-1 entries leaves it a next sequence.
pub fn a_sequence_is_within_the_log()
    ensures { (c : Channel) (log : List Entry) → sequence c log ≤ length log }
{}

/// A lost acknowledgement is such a list of calls: in the end its sender was bound once and is idle, and its receiver has
/// the mark of the first attempt, accepted.
pub fn a_lost_acknowledgement()
    ensures made { AreMade (λ _. new_ends) lost.told }
    ensures sent { (ends_after (λ _. new_ends) lost.told lost.outward).sending ≡ record { seq = 1; bound = None } }
    ensures taken { (ends_after (λ _. new_ends) lost.told lost.inward).receiving ≡ record { seq = 1; attempt = 0; verdict = Verdict.Accepted } }
{}
