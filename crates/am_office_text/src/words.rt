//! The words that the printed texts have for the plain data.

ghost use Rattle.std.specs.Prelude.{◌≡◌};
ghost use Rattle.am_office_text.specs.Words as text;

use am_names::{Cause, MsgKind, Verdict, Why};

/// The word of a cause.
#[tactic(auto, unfolding(crate::specs::Words::cause))]
pub fn cause_word(cause: Cause) -> &'static str
    ensures { result.now ≡ text.cause cause }
{
    match cause {
        Cause::NoEndpoint => "no-endpoint",
        Cause::NotResident => "not-resident",
        Cause::BadTag => "bad-tag",
        Cause::BadHandler => "bad-handler",
        Cause::QueueFull => "queue-full",
        Cause::NoRequest => "no-request",
    }
}

/// The word of a verdict, or of its cause.
#[tactic(auto, unfolding(crate::specs::Words::verdict))]
pub fn verdict_word(verdict: Verdict) -> &'static str
    ensures { result.now ≡ text.verdict verdict }
{
    match verdict {
        Verdict::Accepted => "accepted",
        Verdict::Refused(cause) => cause_word(cause),
    }
}

/// The word of a reason for which a message came back.
#[tactic(auto, unfolding(crate::specs::Words::why))]
pub fn why_word(why: Why) -> &'static str
    ensures { result.now ≡ text.why why }
{
    match why {
        Why::Unknown => "unknown",
        Why::Refused(cause) => cause_word(cause),
    }
}

/// The word of a message's kind.
#[tactic(auto, unfolding(crate::specs::Words::kind))]
pub fn kind_word(kind: MsgKind) -> &'static str
    ensures { result.now ≡ text.kind kind }
{
    match kind {
        MsgKind::Request => "request",
        MsgKind::Reply => "reply",
        MsgKind::Empty => "empty",
    }
}
