//! Worked journals as their parts see them: the logs that merge into them, and what an interface and a driver say by
//! their own log.

ghost use Rattle.am_model_parts.specs.Driver.{failing_move, outcome_move};
ghost use Rattle.am_model_parts.specs.Interface.{emits_to, failing_at, needs, outcome_at};
ghost use Rattle.am_model_parts.specs.declared.work.Work.TheVariants as Works;
ghost use Rattle.am_model_merge.specs.Merged.{journal_after, merged, touches_one};
ghost use Rattle.am_model.specs.History.{state_of};
ghost use Rattle.am_model.specs.Layout.{end_at, node_at};
ghost use Rattle.am_names.specs.declared.Verdict.TheVariants as Verdicts;
ghost use Rattle.am_office_entries.specs.Entries.{touches, touches_node};
ghost use Rattle.am_office_entries.specs.declared.Condition.TheVariants as Needs;
ghost use Rattle.am_office_entries.specs.declared.Event.TheVariants as Events;
ghost use Rattle.am_office_entries.specs.declared.Outcome.TheVariants as Out;
ghost use Rattle.am_office_entries.specs.declared.Received.TheVariants as Got;
ghost use Rattle.am_model_worked.specs.Parts.Logs.{acknowledgement, at_end_0, at_end_1, at_node_0, at_node_1, driver_after, held_acknowledgement, last_entry, pager_after, parts_before, picked, poll_of, receiver, second_try, sender, try_of};
ghost use Rattle.am_model_worked.specs.FailedRead as failed_read_row;
ghost use Rattle.am_model_worked.specs.Frames as frames_row;
ghost use Rattle.am_model_worked.specs.LostAcknowledgement as lost_row;
ghost use Rattle.std.specs.Prelude.{◌≡◌, [], ◌∷◌, None, Some, filter, take, true};

/// The logs of a lost acknowledgement: which entries stand in each, and that they merge into the journal in whichever
/// order they are taken. The logs of the endpoints alone lack what an interface did without touching an endpoint.
pub fn logs_of_a_lost_acknowledgement()
    ensures end_0 { filter (touches (end_at 0)) lost_row.journal ≡ at_end_0 }
    ensures end_1 { filter (touches (end_at 1)) lost_row.journal ≡ at_end_1 }
    ensures node_0 { filter (touches_node (node_at 0)) lost_row.journal ≡ at_node_0 }
    ensures node_1 { filter (touches_node (node_at 1)) lost_row.journal ≡ at_node_1 }
    ensures journal { merged (at_end_0 ∷ at_end_1 ∷ at_node_0 ∷ at_node_1 ∷ []) ≡ lost_row.journal }
    ensures other_order { merged (at_node_1 ∷ at_node_0 ∷ at_end_1 ∷ at_end_0 ∷ []) ≡ lost_row.journal }
    ensures ends_alone { merged (at_end_0 ∷ at_end_1 ∷ []) ≡ picked lost_row.journal (1 ∷ 2 ∷ 3 ∷ 4 ∷ 5 ∷ 6 ∷ 7 ∷ 10 ∷ 11 ∷ []) }
    ensures touched { touches_one last_entry parts_before ≡ true }
    ensures grown { journal_after last_entry parts_before ≡ lost_row.journal }
{}

/// Entries with one stamp stand by their parts: endpoints before interfaces, each by number.
pub fn entries_of_one_stamp()
    ensures { merged ((try_of 1 ∷ []) ∷ (poll_of 200 ∷ []) ∷ (try_of 0 ∷ []) ∷ (poll_of 3 ∷ []) ∷ []) ≡ poll_of 3 ∷ poll_of 200 ∷ try_of 0 ∷ try_of 1 ∷ [] }
{}

/// A message that is sent again is answered by the receiver's own log, and touches no endpoint.
pub fn a_second_try_by_the_receivers_log()
    ensures needs { needs receiver (Works.Receive second_try) ≡ None }
    ensures emits { emits_to receiver (Works.Receive second_try) ≡ Some (node_at 0) }
    ensures outcome { outcome_at receiver (state_of lost_row.layout (take 8 lost_row.journal) (end_at 1)) (Works.Receive second_try) ≡ Out.Received 0 1 1 (Got.Again lost_row.m1.serial Verdicts.Accepted 2) }
{}

/// The acknowledgement of the second try settles the message by the sender's own log and the state of its source, also
/// where a link held it. Without it the third try would follow.
pub fn an_acknowledgement_by_the_senders_log()
    ensures needs { needs sender (Works.Receive acknowledgement) ≡ Some (end_at 0) }
    ensures emits { emits_to sender (Works.Receive acknowledgement) ≡ None }
    ensures outcome { outcome_at sender (state_of lost_row.layout (take 9 lost_row.journal) (end_at 0)) (Works.Receive acknowledgement) ≡ Out.Received 0 1 1 (Got.Delivered lost_row.m1.serial) }
    ensures held { outcome_at sender (state_of lost_row.layout (take 9 lost_row.journal) (end_at 0)) (Works.Receive held_acknowledgement) ≡ Out.Received 0 1 1 (Got.Delivered lost_row.m1.serial) }
    ensures third { outcome_at sender (state_of lost_row.layout (take 9 lost_row.journal) (end_at 0)) (Works.Expire (node_at 1) 0) ≡ Out.Sent lost_row.m1 (node_at 1) 0 1 2 3 }
    ensures third_needs { needs sender (Works.Expire (node_at 1) 0) ≡ None }
    ensures third_emits { emits_to sender (Works.Expire (node_at 1) 0) ≡ Some (node_at 1) }
    ensures idle { failing_at sender (state_of lost_row.layout (take 9 lost_row.journal) (end_at 0)) (Works.Expire (node_at 0) 0) ≡ Some Needs.Idle }
{}

/// A frame is held from a load into it until that endpoint is unloaded, by the driver's own log.
pub fn a_frame_by_the_drivers_log()
    ensures held { failing_move (driver_after (1 ∷ 2 ∷ [])) (state_of frames_row.layout (take 2 frames_row.journal) (end_at 2)) (Events.Load (node_at 0) (end_at 2) 1) ≡ Some Needs.FrameHeld }
    ensures draining { failing_move (driver_after (1 ∷ 2 ∷ 3 ∷ [])) (state_of frames_row.layout (take 3 frames_row.journal) (end_at 2)) (Events.Load (node_at 0) (end_at 2) 1) ≡ Some Needs.FrameHeld }
    ensures free { failing_move (driver_after (1 ∷ 2 ∷ 3 ∷ 4 ∷ [])) (state_of frames_row.layout (take 4 frames_row.journal) (end_at 2)) (Events.Load (node_at 0) (end_at 2) 1) ≡ None }
    ensures other { failing_move (driver_after (1 ∷ 2 ∷ [])) (state_of frames_row.layout (take 2 frames_row.journal) (end_at 2)) (Events.Load (node_at 0) (end_at 3) 2) ≡ Some Needs.OtherNode }
{}

/// The second page call of the node fails, by the driver's own log, and the third doesn't.
pub fn a_failing_page_call_by_the_drivers_log()
    ensures second { outcome_move (pager_after (4 ∷ [])) (Events.PageIn (node_at 0) (end_at 0)) ≡ Out.Failed }
    ensures third { outcome_move (pager_after (4 ∷ 6 ∷ [])) (Events.PageIn (node_at 0) (end_at 0)) ≡ Out.Done }
    ensures enabled { failing_move (pager_after (4 ∷ 6 ∷ [])) (state_of failed_read_row.layout (take 6 failed_read_row.journal) (end_at 0)) (Events.PageIn (node_at 0) (end_at 0)) ≡ None }
{}
