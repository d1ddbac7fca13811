//! Where a message comes to the limit of its bounces.

ghost use Rattle.am_model.specs.History.{judged};
ghost use Rattle.am_model.specs.Tables.{may_bounce};
ghost use Rattle.std.specs.Prelude.{◌≡◌};

use am_names::{Cause, Message, Verdict};
use am_office_entries::Outcome;

/// Whether a message that was refused for this cause, and bounced so often, may bounce once more: the cause may pass with
/// time, and the message bounced less often than the limit allows.
pub fn may_bounce(limit: u8, cause: Cause, bounces: u8) -> bool
    ensures { result ≡ may_bounce limit cause bounces }
{
    cause.transient() && bounces < limit
}

/// What comes of a message that got this verdict at its destination, bounced so often, and may bounce up to the limit.
pub fn judged(limit: u8, message: Message, bounces: u8, verdict: Verdict) -> Outcome
    ensures { result ≡ judged limit message bounces verdict }
{
    match verdict {
        Verdict::Accepted => Outcome::Accepted(message),
        Verdict::Refused(cause) => {
            if may_bounce(limit, cause, bounces) {
                Outcome::Requeued {
                    message,
                    cause,
                    used: bounces + 1,
                }
            } else {
                Outcome::Returned { message, cause }
            }
        }
    }
}
