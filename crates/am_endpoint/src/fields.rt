//! Where an endpoint in memory lies, and its body.

ghost use Rattle.am_endpoint.specs.Seen.{state_in};
ghost use Rattle.am_model.specs.Changes.{paged_out, wanted_on_host};
ghost use Rattle.am_office_entries.specs.declared.Outcome.TheVariants as Out;
ghost use Rattle.std.specs.Prelude.{◌≡◌};

use am_endpoint_body::Body;
use am_model::Head;
use am_office_entries::Place;

/// The state of an endpoint in memory.
#[derive(Drop)]
pub struct Fields {
    pub head: Head,
    pub body: Body,
}

impl Fields {
    /// What is known of it once it goes from here to disk.
    pub fn head_away(&self) -> Head
        ensures { result ≡ (paged_out (state_in self.now) Out.Done).head }
    {
        Head {
            place: Place::Disk,
            wanted: self.head.wanted || self.body.has_arrivals(),
            ..self.head
        }
    }

    /// Wanted from now on, where it lies on the host.
    pub fn want_on_host(&mut self)
        ensures { self.new ≡ record self.old { head = (wanted_on_host (state_in self.old)).head } }
    {
        match self.head.place {
            Place::Host => self.head.wanted = true,
            Place::Disk | Place::Frame(_) | Place::Direct => {}
        }
    }
}
