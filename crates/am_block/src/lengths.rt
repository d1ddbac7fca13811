//! How many slots each of the six lists has.
ghost use Rattle.std.specs.Prelude.{◌≡◌};
ghost use Rattle.am_block.specs.Lengths.{length_of, with_length};

use crate::List;

#[derive(Clone, Copy)]
pub(crate) struct Lengths {
    pub(crate) free: u8,
    pub(crate) requests: u8,
    pub(crate) replies: u8,
    pub(crate) in_flight: u8,
    pub(crate) notices: u8,
    pub(crate) received: u8,
}

impl Lengths {
    pub(crate) fn of(&self, list: List) -> u8
        ensures { result ≡ length_of self.now list }
    {
        match list {
            List::Free => self.free,
            List::Requests => self.requests,
            List::Replies => self.replies,
            List::InFlight => self.in_flight,
            List::Notices => self.notices,
            List::Received => self.received,
        }
    }

    pub(crate) fn set(&mut self, list: List, length: u8)
        ensures { self.new ≡ with_length self.old list length }
    {
        match list {
            List::Free => self.free = length,
            List::Requests => self.requests = length,
            List::Replies => self.replies = length,
            List::InFlight => self.in_flight = length,
            List::Notices => self.notices = length,
            List::Received => self.received = length,
        }
    }
}
