//! Both ends.

ghost use Rattle.am_channel.specs.Ends.{new_ends};
ghost use Rattle.std.specs.Prelude.{◌≡◌};

use crate::receiving::RecvEnd;
use crate::sending::SendEnd;

/// The ends that a node keeps of a channel: the sending end to the peer, and the receiving end from it.
///
/// ```
/// let mut ends = Ends::new();
/// let sent = ends.sending.bind(message, slot);
/// ```
#[derive(Clone, Copy, PartialEq, Eq)]
pub struct Ends {
    pub sending: SendEnd,
    pub receiving: RecvEnd,
}

impl Ends {
    /// Ends on which nothing was bound and nothing decided.
    pub fn new() -> Ends
        ensures { result ≡ new_ends }
    {
        Ends {
            sending: SendEnd::new(),
            receiving: RecvEnd::new(),
        }
    }
}
