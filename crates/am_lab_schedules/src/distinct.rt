//! Texts of which each is kept once, so that one can ask whether a text was there before, and how many different ones
//! there were.

ghost use Rattle.std.specs.Prelude.{◌≡◌, ◌∷◌, ◌++◌, [], IfOk, List, OnErr, OnOk, bytes_eq, ℕ};
ghost use Rattle.std.specs.Set.{distinct_count, is_member};
ghost use Rattle.am_lab_schedules.specs.Distinct.Kept.{Keeps};

use std::alloc::{AllocError, Global};
use std::collections::BTreeSet;
use std::marker::Model;

/// The texts of a list, each kept once. Contracts see a list of the texts that are kept.
#[derive(Drop)]
pub struct DistinctTexts {
    kept: BTreeSet<Vec<u8>>,
}

impl Model for DistinctTexts {
    ghost use Rattle.std.specs.Prelude.{List, ℕ};
    ghost use Rattle.am_lab_schedules.specs.Distinct.Kept.{texts_of};

    ghost Value = { List (List ℕ) };

    ghost view = { λ d. texts_of d.kept };
}

impl DistinctTexts {
    /// The texts of the empty list. Takes no memory.
    pub fn new(alloc: Global) -> Self
        ensures { Keeps result [] }
    {
        DistinctTexts {
            kept: BTreeSet::new(alloc),
        }
    }

    /// Whether the text is one of the list's.
    pub fn has(&self, text: &[u8]) -> bool
        ensures { (texts : List (List ℕ)) → Keeps self.now texts → result ≡ is_member bytes_eq texts text.now }
    {
        self.kept.contains(text)
    }

    /// Takes one text more into the list, and keeps it if it wasn't there. `AllocError` comes only for want of memory, and
    /// leaves what was kept.
    pub fn keep(&mut self, text: Vec<u8>) -> Result<(), AllocError>
        ensures kept { (texts : List (List ℕ)) → Keeps self.old texts → OnOk result (Keeps self.new (texts ++ text.items ∷ [])) }
        ensures err { OnErr result (self.new ≡ self.old) }
    {
        self.kept.insert(text)?;
        Ok(())
    }

    /// How many different texts the list has.
    pub fn count(&self) -> usize
        ensures { (texts : List (List ℕ)) → Keeps self.now texts → result ≡ distinct_count bytes_eq texts }
    {
        self.kept.len()
    }
}
