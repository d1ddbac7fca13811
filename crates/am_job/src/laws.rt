//! What jobs send.

ghost use Rattle.am_job.specs.Laws.{JobsSendWords};

/// The rounds of a text send its words of at most 24 bytes, each as often as it stands there, in order.
#[tactic(auto, using(crate::proofs::SentTexts::jobs_send_words))]
pub fn jobs_send_words()
    ensures { JobsSendWords }
{}
