//! Worked histories: each kind of event, each condition, and each rare branch.

ghost use Rattle.am_restart.specs.Fates.{fate};
ghost use Rattle.am_restart.specs.History.{IsSession, state_of};
ghost use Rattle.am_restart.specs.Moves.{failing};
ghost use Rattle.am_restart.specs.Rows as rows;
ghost use Rattle.am_restart.specs.declared.events.Say.TheVariants as Says;
ghost use Rattle.std.specs.Prelude.{◌≡◌, [], take, Some};

use crate::events::{SessionCondition, SessionEvent};
use crate::fates::SessionFate;

/// The receiver restarts before a parcel comes.
pub fn a_receiver_restarts()
    ensures history { IsSession 2 rows.receiver_restarted }
    ensures fate { fate rows.receiver_restarted 1 ≡ SessionFate.Unknown }
{}

/// The receiver puts a message, and restarts.
pub fn a_message_that_was_put_is_unknown()
    ensures history { IsSession 2 rows.unknown_but_put }
    ensures fate { fate rows.unknown_but_put 1 ≡ SessionFate.UnknownButPut }
{}

/// The sender restarts.
pub fn a_sender_restarts()
    ensures history { IsSession 2 rows.sender_restarted }
    ensures first { fate rows.sender_restarted 1 ≡ SessionFate.Unknown }
    ensures second { fate rows.sender_restarted 2 ≡ SessionFate.Put }
{}

/// A message is refused for now, goes out again, and is refused for good.
pub fn a_refused_message_is_sent_again()
    ensures history { IsSession 2 rows.sent_again }
    ensures pending { fate (take 10 rows.sent_again) 1 ≡ SessionFate.Pending }
    ensures fate { fate rows.sent_again 1 ≡ SessionFate.Returned }
{}

/// The last try is used up before a delayed one is put.
pub fn a_delayed_try_is_put()
    ensures history { IsSession 2 rows.given_up }
    ensures fate { fate rows.given_up 1 ≡ SessionFate.UnknownButPut }
{}

/// Parcels to incarnations that are gone, and to one that has not met their sender.
pub fn a_receiver_restarts_again()
    ensures history { IsSession 2 rows.met_by_a_parcel }
    ensures first { fate rows.met_by_a_parcel 1 ≡ SessionFate.Unknown }
    ensures second { fate rows.met_by_a_parcel 2 ≡ SessionFate.Returned }
{}

/// Each condition, where it is the first that fails.
pub fn conditions_in_their_order()
    ensures unknown_peer { failing (state_of 2 []) SessionEvent.Bind ≡ Some SessionCondition.UnknownPeer }
    ensures no_message { failing (state_of 2 (take 3 rows.bound)) SessionEvent.Bind ≡ Some SessionCondition.NoMessage }
    ensures bound { failing (state_of 2 rows.bound) SessionEvent.Bind ≡ Some SessionCondition.Bound }
    ensures idle { failing (state_of 2 []) SessionEvent.Expire ≡ Some SessionCondition.Idle }
    ensures no_answer { failing (state_of 2 rows.bound) (SessionEvent.SenderReceive 2) ≡ Some SessionCondition.NoPacket }
    ensures no_parcel { failing (state_of 2 rows.bound) (SessionEvent.ReceiverReceive 3 Says.Accept) ≡ Some SessionCondition.NoPacket }
    ensures zero { failing (state_of 2 rows.bound) (SessionEvent.SenderReceive 0) ≡ Some SessionCondition.NoPacket }
{}
