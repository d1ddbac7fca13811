//! What the JSON of a journal is to whoever reads it. Each law is the contract of a function with an empty body.

ghost use Rattle.am_lab_page.specs.Json.Laws.{EachEntryHasItsLine, NothingIsEscaped, ObjectsAreInert};

/// The lines of a journal's JSON are the objects of its entries, in order: as many lines as entries.
pub fn each_entry_has_its_line()
    ensures { EachEntryHasItsLine }
{}

/// No text of an entry has a byte that JSON writes as an escape, or that means something in a page: each is a lower-case
/// letter, a digit, a space, a full stop or a hyphen.
pub fn nothing_is_escaped()
    ensures { NothingIsEscaped }
{}

/// An object holds these bytes and `"`, `,`, `:`, `{`, `}` alone: none that could begin a tag, or end a line.
pub fn objects_are_inert()
    ensures { ObjectsAreInert }
{}
