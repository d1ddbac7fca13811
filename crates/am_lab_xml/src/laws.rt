//! What a printed tree is to whoever reads it.

ghost use Rattle.std.specs.Prelude.{◌≡◌, ℕ, List, true};
ghost use Rattle.am_lab_xml.specs.Elements.{are_readable, elements, elements_in};
ghost use Rattle.am_lab_xml.specs.Escaped.{escaped, is_text, unescaped};
ghost use Rattle.am_lab_xml.specs.Grammar.{IsDocument};
ghost use Rattle.am_lab_xml.specs.Reading.{are_led, are_texts, first_texts, first_texts_in, texts, texts_in};
ghost use Rattle.am_lab_xml.specs.Trees.{Content, Named, is_name, is_sound, printed};
ghost use Rattle.am_lab_xml.specs.Trees.{Content as Contents};

/// An element and a line break are printed as a well-formed document, if elements and attributes have names and no
/// element has two attributes of one name.
pub fn documents_are_well_formed()
    ensures { (name : List ℕ) (given : List Named) (inside : Content) → is_sound (Contents.Element name given inside) ≡ true → IsDocument (printed (Contents.Both (Contents.Element name given inside) Contents.Break)) }
{}

/// A text of printable ASCII and line feeds is read out of what is written for it.
pub fn escapes_are_read()
    ensures { (text : List ℕ) → is_text text ≡ true → unescaped (escaped text) ≡ text }
{}

/// The texts of the elements of a name are found in order in what is printed, by their tags alone, if these elements
/// hold a text of printable ASCII and line feeds and nothing else.
pub fn texts_are_read()
    ensures { (name : List ℕ) (content : Content) → is_name name ≡ true → is_sound content ≡ true → are_texts name content ≡ true → texts_in name (printed content) ≡ texts name content }
{}

/// The texts of the elements of a name with which those of another begin are found in order in what is printed, by the two
/// tags alone, if these elements of the other name begin so, with a text of printable ASCII and line feeds and nothing else.
pub fn first_texts_are_read()
    ensures { (outer name : List ℕ) (content : Content) → is_name outer ≡ true → is_name name ≡ true → is_sound content ≡ true → are_led outer name content ≡ true → first_texts_in outer name (printed content) ≡ first_texts outer content }
{}

/// The elements with their attributes are found in order in what is printed, by a reader who goes over its bytes once, if the
/// values of the attributes are texts of printable ASCII and line feeds.
pub fn elements_are_read()
    ensures { (content : Content) → is_sound content ≡ true → are_readable content ≡ true → elements_in (printed content) ≡ elements content }
{}
