//! What the two interfaces of a session know.

ghost use Rattle.am_restart.specs.Ends as specs;
ghost use Rattle.std.specs.Prelude.{◌≡◌};

use am_channel::{RecvEnd, SendEnd};

/// What the sender knows.
#[derive(Clone, Copy)]
pub struct Sender {
    /// How often it has started, from 1.
    pub incarnation: u32,
    /// The receiver's incarnation that it knows, or 0.
    pub peer: u32,
    pub end: SendEnd,
}

/// What the receiver knows.
#[derive(Clone, Copy)]
pub struct Receiver {
    /// How often it has started, from 1.
    pub incarnation: u32,
    /// The greatest incarnation of the sender that it has seen since it started, or 0.
    pub newest: u32,
    pub end: RecvEnd,
}

impl Sender {
    /// A sender that knows its incarnation and that of the receiver, or 0.
    pub(crate) fn new(incarnation: u32, peer: u32) -> Sender
        ensures { result ≡ specs.new_sender incarnation peer }
    {
        Sender {
            incarnation,
            peer,
            end: SendEnd::new(),
        }
    }
}

impl Receiver {
    /// A receiver that knows its incarnation and that of the sender, or 0.
    pub(crate) fn new(incarnation: u32, newest: u32) -> Receiver
        ensures { result ≡ specs.new_receiver incarnation newest }
    {
        Receiver {
            incarnation,
            newest,
            end: RecvEnd::new(),
        }
    }

    /// The receiver once it has seen this incarnation of the sender.
    pub(crate) fn met(self, sender: u32) -> Receiver
        ensures { result ≡ specs.met sender self }
    {
        if self.newest < sender {
            Receiver::new(self.incarnation, sender)
        } else {
            self
        }
    }
}
