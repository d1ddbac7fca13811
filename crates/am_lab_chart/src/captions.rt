//! Texts, titles and signs.

ghost use Rattle.std.specs.Prelude.{◌≡◌, ◌++◌, IfOk, OnOk, map};
ghost use Rattle.am_lab_chart.specs.Captions.{caption, holding, joined, sign_at, title, titled};
ghost use Rattle.am_lab_xml.specs.Attributes.{attribute_of};
ghost use Rattle.am_lab_xml.specs.Escaped.{escaped};
ghost use Rattle.am_lab_xml.specs.Trees.{printed};
ghost use Rattle.am_office_text.specs.Pieces.{word_of};

use am_lab_xml::Attribute::{Number, Word};
use am_lab_xml::{Attribute, put_close, put_empty, put_open, put_text};
use am_office_text::{LinePiece, put_word};
use std::alloc::{AllocError, Global};

// Words, one behind the other.
fn text_of(alloc: Global, words: &[LinePiece]) -> Result<Vec<u8>, AllocError>
    ensures { IfOk result (λ text. text.items ≡ joined (map word_of words.now)) }
{
    let mut text = Vec::new(alloc);
    for word in words {
        put_word(&mut text, *word)?;
    }
    Ok(text)
}

// Appends words as text.
fn put_words(out: &mut Vec<u8>, alloc: Global, words: &[LinePiece]) -> Result<(), AllocError>
    ensures { OnOk result (out.new.items ≡ out.old.items ++ escaped (joined (map word_of words.now))) }
{
    let text = text_of(alloc, words)?;
    put_text(out, &text)
}

/// Appends an element with these attributes, which holds a text.
#[tactic(auto, using(std::proofs::Common::append_assoc), unfolding(crate::specs::Captions::holding))]
pub(crate) fn put_holding(
    out: &mut Vec<u8>,
    name: &str,
    given: &[Attribute],
    text: &[u8],
) -> Result<(), AllocError>
    ensures { OnOk result (out.new.items ≡ out.old.items ++ printed (holding name.now (map attribute_of given.now) text.now)) }
{
    put_open(out, name, given)?;
    put_text(out, text)?;
    put_close(out, name)
}

/// Appends a text element with these attributes and words.
#[tactic(auto, unfolding(crate::specs::Captions::caption))]
pub(crate) fn put_caption(
    out: &mut Vec<u8>,
    alloc: Global,
    given: &[Attribute],
    words: &[LinePiece],
) -> Result<(), AllocError>
    ensures { OnOk result (out.new.items ≡ out.old.items ++ printed (caption (map attribute_of given.now) (map word_of words.now))) }
{
    let text = text_of(alloc, words)?;
    put_holding(out, "text", given, &text)
}

/// Appends a title with these words.
pub(crate) fn put_title(
    out: &mut Vec<u8>,
    alloc: Global,
    words: &[LinePiece],
) -> Result<(), AllocError>
    ensures { OnOk result (out.new.items ≡ out.old.items ++ printed (title (joined (map word_of words.now)))) }
{
    let text = text_of(alloc, words)?;
    put_holding(out, "title", &[], &text)
}

/// Appends an element with these attributes and this title, which holds words.
#[tactic(auto, using(std::proofs::Common::append_assoc), unfolding(crate::specs::Captions::titled))]
pub(crate) fn put_titled(
    out: &mut Vec<u8>,
    alloc: Global,
    name: &str,
    given: &[Attribute],
    told: &[LinePiece],
    words: &[LinePiece],
) -> Result<(), AllocError>
    ensures { OnOk result (out.new.items ≡ out.old.items ++ printed (titled name.now (map attribute_of given.now) (map word_of told.now) (map word_of words.now))) }
{
    put_open(out, name, given)?;
    put_title(out, alloc, told)?;
    put_words(out, alloc, words)?;
    put_close(out, name)
}

/// Appends a sign at a place, in the colour of a class.
#[tactic(auto, unfolding(crate::specs::Captions::sign_at))]
pub(crate) fn put_sign(
    out: &mut Vec<u8>,
    sign: &'static str,
    x: u64,
    y: u64,
    class: &'static str,
) -> Result<(), AllocError>
    ensures { OnOk result (out.new.items ≡ out.old.items ++ printed (sign_at sign.now x y class.now)) }
{
    put_empty(
        out,
        "use",
        &[
            Word("href", sign),
            Number("x", x),
            Number("y", y),
            Word("class", class),
        ],
    )
}
