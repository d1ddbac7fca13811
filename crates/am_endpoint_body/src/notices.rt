//! Messages of its own that came back to an endpoint.

ghost use Rattle.am_endpoint_body.specs.Views.{notice_in, slots_held};
ghost use Rattle.std.specs.Prelude.{◌≡◌, ◌<◌, [], ◌∷◌, ◌++◌, drop, slice_get};

use crate::Body;
use crate::moves::{file_free, free_front, front_descriptor};
use am_block::{Descriptor, List};
use am_model::Notice;
use am_names::{Message, Why};

fn as_notice(descriptor: &Descriptor) -> Notice
    ensures { result ≡ notice_in descriptor.now }
{
    Notice {
        message: descriptor.message,
        bounces: descriptor.used,
        why: descriptor.why,
    }
}

impl Body {
    /// The front of the notices.
    pub fn first_notice(&self) -> Option<Notice>
        ensures { result ≡ slice_get self.now.body.notices 0 }
    {
        match front_descriptor(&self.block, List::Notices) {
            Some(descriptor) => Some(as_notice(descriptor)),
            None => None,
        }
    }

    /// The front of the notices goes.
    pub fn drop_notice(&mut self)
        ensures { self.new ≡ record self.old { body = record self.old.body { notices = drop 1 self.old.body.notices } } }
    {
        free_front(&mut self.block, List::Notices);
    }

    /// A message that bounced so often comes back, for this reason. Its record, if it has one, stays.
    pub fn add_notice(&mut self, message: Message, bounces: u8, why: Why)
        requires { slots_held self.old.body < 80 }
        ensures { self.new ≡ record self.old { body = record self.old.body { notices = self.old.body.notices ++ record { message = message; bounces = bounces; why = why } ∷ [] } } }
    {
        file_free(&mut self.block, List::Notices, &message, bounces, why);
    }
}
