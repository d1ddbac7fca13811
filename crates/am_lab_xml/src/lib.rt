//! Documents of a small XML: elements with attributes, and texts in which what means something to XML is escaped.
//!
//! Nothing is kept of a document but its bytes: each call appends a piece, and what it appends is the text of a tree
//! (`printed` of `specs/Trees.antt`). What such a text is to whoever reads it stands in `laws`: it is well formed by a
//! grammar over bytes (`specs/Grammar.antt`), and its texts (`specs/Reading.antt`) and its elements with their attributes
//! (`specs/Elements.antt`) are read out of it again.
#![tactic(auto)]

mod escaped;
mod laws;
mod tags;

pub use escaped::put_text;
pub use laws::{
    documents_are_well_formed, elements_are_read, escapes_are_read, first_texts_are_read,
    texts_are_read,
};
pub use tags::{Attribute, Point, put_break, put_close, put_empty, put_number, put_open};
