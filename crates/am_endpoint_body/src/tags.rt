//! The own tag of an endpoint.

ghost use Rattle.am_names.specs.Rules.{matches};
ghost use Rattle.std.specs.Prelude.{◌≡◌, ◌==◌};

use crate::Body;
use am_names::Tag;

impl Body {
    /// Whether the own tag lets a message with this tag in.
    pub fn matches(&self, tag: Tag) -> bool
        ensures { result ≡ matches self.now.body.tag tag }
    {
        self.tag.matches(tag)
    }

    /// Whether the own tag is the one that lets no message in or out.
    pub fn is_tagless(&self) -> bool
        ensures { result ≡ (self.now.body.tag.0 == 0) }
    {
        self.tag.0 == 0
    }

    /// This is the own tag from now on.
    pub fn set_tag(&mut self, tag: Tag)
        ensures { self.new ≡ record self.old { body = record self.old.body { tag = tag } } }
    {
        self.tag = tag;
    }
}
