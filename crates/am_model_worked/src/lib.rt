//! Worked journals: journals that are histories, and the fates in them.
#![tactic(auto)]

ghost use Rattle.am_office_entries.specs.Fates.{fate};
ghost use Rattle.am_model.specs.Cluster.{sequences_bound, sequences_requeued};
ghost use Rattle.am_model.specs.History.{IsHistory, channel_to, failing};
ghost use Rattle.am_office_entries.specs.declared.Actor.TheVariants.{Outside};
ghost use Rattle.am_office_entries.specs.declared.Call.TheVariants as Calls;
ghost use Rattle.am_office_entries.specs.declared.Event.TheVariants as Events;
ghost use Rattle.am_model_worked.specs.AddUp as add_up_row;
ghost use Rattle.am_model_worked.specs.Answered as answered_row;
ghost use Rattle.am_model_worked.specs.Blocked as blocked_row;
ghost use Rattle.am_model_worked.specs.Bounce as bounce_row;
ghost use Rattle.am_model_worked.specs.Draining as draining_row;
ghost use Rattle.am_model_worked.specs.EchoBack as echo_back_row;
ghost use Rattle.am_model_worked.specs.FailedRead as failed_read_row;
ghost use Rattle.am_model_worked.specs.Frames as frames_row;
ghost use Rattle.am_model_worked.specs.FullAtOnce as full_at_once_row;
ghost use Rattle.am_model_worked.specs.GivingUp as giving_up_row;
ghost use Rattle.am_model_worked.specs.Indexes as indexes_row;
ghost use Rattle.am_model_worked.specs.LostAcknowledgement as lost_acknowledgement_row;
ghost use Rattle.am_model_worked.specs.NoBounce as no_bounce_row;
ghost use Rattle.am_model_worked.specs.OldRefusal as old_refusal_row;
ghost use Rattle.am_model_worked.specs.Pool as pool_row;
ghost use Rattle.am_model_worked.specs.Tags as tags_row;
ghost use Rattle.am_model_worked.specs.UnknownButRan as unknown_but_ran_row;
ghost use Rattle.std.specs.Prelude.{take, ◌≡◌, ◌∷◌, [], Some};

pub mod drain;
pub mod parts;

use am_names::Cause;
use am_office_entries::{Condition, Fate};

/// An echo comes back, and its credit with it.
pub fn echo_back()
    ensures history { IsHistory echo_back_row.layout echo_back_row.journal }
    ensures m1 { fate echo_back_row.journal echo_back_row.m1.serial ≡ Some Fate.Ran }
    ensures m3 { fate echo_back_row.journal echo_back_row.m3.serial ≡ Some Fate.Pending }
    ensures m2 { fate echo_back_row.journal echo_back_row.m2.serial ≡ Some Fate.Ran }
{}

/// Which tags are taken, and when a tag may be set.
pub fn tags()
    ensures history { IsHistory tags_row.layout tags_row.journal }
    ensures m1 { fate tags_row.journal tags_row.m1.serial ≡ Some (Fate.Returned Cause.BadTag) }
    ensures m2 { fate tags_row.journal tags_row.m2.serial ≡ Some Fate.Ran }
    ensures m4 { fate tags_row.journal tags_row.m4.serial ≡ Some (Fate.Returned Cause.BadTag) }
    ensures m3 { fate tags_row.journal tags_row.m3.serial ≡ Some Fate.Ran }
{}

/// Which indexes and handlers there are.
pub fn indexes()
    ensures history { IsHistory indexes_row.layout indexes_row.journal }
    ensures m1 { fate indexes_row.journal indexes_row.m1.serial ≡ Some (Fate.Returned Cause.BadHandler) }
{}

/// An acknowledgement is lost, and the message is not put twice.
pub fn lost_acknowledgement()
    ensures history { IsHistory lost_acknowledgement_row.layout lost_acknowledgement_row.journal }
    ensures m1 { fate lost_acknowledgement_row.journal lost_acknowledgement_row.m1.serial ≡ Some Fate.Ran }
    ensures m2 { fate lost_acknowledgement_row.journal lost_acknowledgement_row.m2.serial ≡ Some Fate.Pending }
{}

/// A refusal of an earlier try does not count.
pub fn old_refusal()
    ensures history { IsHistory old_refusal_row.layout old_refusal_row.journal }
    ensures m1 { fate old_refusal_row.journal old_refusal_row.m1.serial ≡ Some Fate.Ran }
{}

/// A message is given up, and runs all the same.
pub fn unknown_but_ran()
    ensures history { IsHistory unknown_but_ran_row.layout unknown_but_ran_row.journal }
    ensures m1 { fate unknown_but_ran_row.journal unknown_but_ran_row.m1.serial ≡ Some Fate.UnknownButRan }
    ensures m2 { fate unknown_but_ran_row.journal unknown_but_ran_row.m2.serial ≡ Some (Fate.Returned Cause.NoRequest) }
{}

/// A request is given up, and its late reply is refused.
pub fn giving_up()
    ensures history { IsHistory giving_up_row.layout giving_up_row.journal }
    ensures m1 { fate giving_up_row.journal giving_up_row.m1.serial ≡ Some Fate.Ran }
    ensures m2 { fate giving_up_row.journal giving_up_row.m2.serial ≡ Some (Fate.Returned Cause.NoRequest) }
{}

/// A frame is free once its endpoint is unloaded.
pub fn frames()
    ensures history { IsHistory frames_row.layout frames_row.journal }
{}

/// A read of the swap fails, and the endpoint comes in at the next.
pub fn failed_read()
    ensures history { IsHistory failed_read_row.layout failed_read_row.journal }
    ensures m1 { fate failed_read_row.journal failed_read_row.m1.serial ≡ Some Fate.Pending }
    ensures m2 { fate failed_read_row.journal failed_read_row.m2.serial ≡ Some Fate.Pending }
    ensures m3 { fate failed_read_row.journal failed_read_row.m3.serial ≡ Some Fate.Pending }
{}

/// A message bounces off an endpoint that is not resident, and arrives at the next binding.
pub fn bounce()
    ensures history { IsHistory bounce_row.layout bounce_row.journal }
    ensures m1 { fate bounce_row.journal bounce_row.m1.serial ≡ Some Fate.Pending }
{}

/// A message that came back once and was bound again has two sequences, and the first of them ended
/// in the requeue.
pub fn a_second_sequence()
    ensures history { IsHistory bounce_row.layout bounce_row.journal }
    ensures bound { sequences_bound bounce_row.m1.serial bounce_row.journal
        ≡ (channel_to (record { 0 = 0 }) (record { 0 = 1 }) 0, 1) ∷ (channel_to (record { 0 = 0 }) (record { 0 = 1 }) 0, 2) ∷ [] }
    ensures requeued { sequences_requeued bounce_row.m1.serial bounce_row.journal ≡ (channel_to (record { 0 = 0 }) (record { 0 = 1 }) 0, 1) ∷ [] }
{}

/// With no bounce allowed a message comes back at once.
pub fn no_bounce()
    ensures history { IsHistory no_bounce_row.layout no_bounce_row.journal }
    ensures m1 { fate no_bounce_row.journal no_bounce_row.m1.serial ≡ Some (Fate.Returned Cause.NotResident) }
{}

/// A queue that is full takes no more, and with no bounce allowed the message comes back at once.
pub fn full_at_once()
    ensures history { IsHistory full_at_once_row.layout full_at_once_row.journal }
    ensures m16 { fate full_at_once_row.journal full_at_once_row.m16.serial ≡ Some Fate.Pending }
    ensures m17 { fate full_at_once_row.journal full_at_once_row.m17.serial ≡ Some (Fate.Returned Cause.QueueFull) }
{}

/// Two indexes share a pool, and each has its share.
pub fn pool()
    ensures history { IsHistory pool_row.layout pool_row.journal }
    ensures m3 { fate pool_row.journal pool_row.m3.serial ≡ Some Fate.Pending }
{}

/// An endpoint is drained with a message in flight.
pub fn draining()
    ensures history { IsHistory draining_row.layout draining_row.journal }
    ensures m1 { fate draining_row.journal draining_row.m1.serial ≡ Some Fate.Pending }
{}

/// A request waits while its endpoint has sixteen replies to send.
pub fn blocked()
    ensures history { IsHistory blocked_row.layout blocked_row.journal }
    ensures m33 { fate blocked_row.journal blocked_row.m33.serial ≡ Some Fate.Ran }
    ensures m2 { fate blocked_row.journal blocked_row.m2.serial ≡ Some Fate.Pending }
{}

/// A reply that comes first tells that its request was delivered.
pub fn answered()
    ensures history { IsHistory answered_row.layout answered_row.journal }
    ensures m1 { fate answered_row.journal answered_row.m1.serial ≡ Some Fate.Ran }
    ensures m2 { fate answered_row.journal answered_row.m2.serial ≡ Some Fate.Ran }
{}

/// A handler adds up, and its replies carry the sums.
pub fn add_up()
    ensures history { IsHistory add_up_row.layout add_up_row.journal }
    ensures m2 { fate add_up_row.journal add_up_row.m2.serial ≡ Some Fate.Ran }
    ensures m4 { fate add_up_row.journal add_up_row.m4.serial ≡ Some Fate.Ran }
{}

/// A frame that is held takes no other endpoint.
pub fn frame_is_held()
    ensures { failing frames_row.layout (take 2 frames_row.journal) (Events.Load (record { 0 = 0 }) (record { 0 = 2 }) 1) ≡ Some Condition.FrameHeld }
{}

/// An endpoint with a message in flight is not unloaded.
pub fn unload_in_flight()
    ensures unload { failing draining_row.layout draining_row.journal (Events.Unload (record { 0 = 0 }) (record { 0 = 0 })) ≡ Some Condition.InFlight }
    ensures bind { failing draining_row.layout draining_row.journal (Events.Bind (record { 0 = 0 }) (record { 0 = 0 })) ≡ Some Condition.Draining }
{}

/// No call is made on an endpoint that is on disk.
pub fn poll_on_disk()
    ensures { failing failed_read_row.layout (take 4 failed_read_row.journal) (Events.Call Outside (record { 0 = 0 }) Calls.Poll) ≡ Some Condition.OnDisk }
{}

/// A message that came back is not sent again.
pub fn nothing_to_send()
    ensures bind { failing no_bounce_row.layout no_bounce_row.journal (Events.Bind (record { 0 = 0 }) (record { 0 = 0 })) ≡ Some Condition.NoMessage }
    ensures carry { failing full_at_once_row.layout full_at_once_row.journal (Events.Carry (record { 0 = 0 })) ≡ Some Condition.NoMessage }
{}
