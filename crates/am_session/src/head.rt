//! The first word of a line.

ghost use Rattle.am_session.specs.Grammar.{head_of, section_of};
ghost use Rattle.std.specs.Prelude.{◌≡◌};

/// What a line is about.
#[derive(Clone, Copy)]
pub(crate) enum Head {
    /// `am2session`, the text's first line.
    Session,
    /// `tries`, the setting.
    Tries,
    /// `a`, an event of the sender's.
    Sender,
    /// `b`, an event of the receiver's.
    Receiver,
}

/// What the first word of a line stands for, if it is known.
#[tactic(auto, unfolding(crate::specs::Grammar::head_of))]
pub(crate) fn head_of(word: &[u8]) -> Option<Head>
    ensures { result ≡ head_of word.now }
{
    if word == b"am2session".as_slice() {
        Some(Head::Session)
    } else if word == b"tries".as_slice() {
        Some(Head::Tries)
    } else if word == b"a".as_slice() {
        Some(Head::Sender)
    } else if word == b"b".as_slice() {
        Some(Head::Receiver)
    } else {
        None
    }
}

impl Head {
    /// The section in which the line stands, 1 to 3.
    pub(crate) fn section(self) -> u8
        ensures { result ≡ section_of self }
    {
        match self {
            Head::Session => 1,
            Head::Tries => 2,
            Head::Sender | Head::Receiver => 3,
        }
    }
}
