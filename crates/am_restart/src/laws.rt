//! The laws of every session: no message is put twice, whichever end restarts.

ghost use Rattle.am_restart.specs.History.{IsSession};
ghost use Rattle.am_restart.specs.declared.events.SessionEntry.{SessionEntry};
ghost use Rattle.am_restart.specs.Laws.Laws.{SessionLaws};
ghost use Rattle.std.specs.Prelude.{ℕ, List};

/// Whatever the events, and however many tries a message has: each message is put at most once; one that is returned is nowhere
/// put, unknown or returned again; one is unknown at most once, and only where its last try was used, its sender restarted while
/// it was bound, or a newer incarnation of the receiver became known while it was bound.
pub fn sessions_obey_the_laws()
    ensures { (tries : ℕ) (entries : List SessionEntry) → IsSession tries entries → SessionLaws tries entries }
{}
