//! What may become of a message.

ghost use Rattle.am_office_entries.specs.Fates.{fate_by};
ghost use Rattle.std.specs.Prelude.{◌≡◌, option_to_list};

use am_names::Cause;

/// What became of an accepted message.
#[derive(Clone, Copy, PartialEq, Eq)]
pub enum Fate {
    /// A poll ran it, also where no handler stood, and nothing is said of it that counts more.
    Ran,
    /// It came back to its source, for this cause.
    Returned(Cause),
    /// Its tries were used up without an answer, and no poll ran it.
    Unknown,
    /// Its tries were used up without an answer, and a poll ran it.
    UnknownButRan,
    /// None of these.
    Pending,
}

impl Fate {
    /// The fate of an accepted message by what is known of it: the cause of its first return, whether its tries were used
    /// up without an answer, and whether a poll ran it.
    pub fn of(cause: Option<Cause>, unknown: bool, ran: bool) -> Fate
        ensures { result ≡ fate_by (option_to_list cause) unknown ran }
    {
        match (cause, unknown, ran) {
            (Some(cause), _, _) => Fate::Returned(cause),
            (None, true, true) => Fate::UnknownButRan,
            (None, true, false) => Fate::Unknown,
            (None, false, true) => Fate::Ran,
            (None, false, false) => Fate::Pending,
        }
    }
}
