//! What keeps an event from being made, asked without making it.

ghost use Rattle.am_machine.specs.Refusals.{refusal};
ghost use Rattle.am_model.specs.History.{is_in_range};
ghost use Rattle.std.specs.Prelude.{◌≡◌, true};

use crate::{ApplyFault, Cluster};
use am_office_entries::Event;

impl Cluster {
    /// What an event is refused for, want of memory aside: the first of its conditions that isn't met, or the first full log
    /// that its entry would go to where each is met. It is a test: nothing is made.
    pub fn refusal(&self, event: &Event) -> Option<ApplyFault>
        requires in_range { is_in_range self.now.layout event.now ≡ true }
        ensures { result ≡ refusal self.now event.now }
    {
        match *event {
            Event::Call { actor, end, call } => self.refusal_of_call(actor, end, call),
            Event::Want { actor, end } => self.refusal_of_want(actor, end),
            Event::Carry { end } => self.refusal_of_carry(end),
            Event::Bind { node, end } => self.refusal_of_bind(node, end),
            Event::Expire {
                node,
                peer,
                channel,
            } => self.refusal_of_expiry(node, peer, channel),
            Event::Receive { node, peer, number } => self.refusal_of_receipt(node, peer, number),
            Event::Drain { node, end }
            | Event::Unload { node, end }
            | Event::Load { node, end, .. }
            | Event::PageOut { node, end }
            | Event::PageIn { node, end } => self.refusal_of_move(*event, node, end),
        }
    }
}
