//! The tags of elements, with their attributes.

ghost use Rattle.std.specs.Prelude.{◌≡◌, ◌++◌, OnOk, codes, flat_map, map};
ghost use Rattle.std.specs.Fmt.{decimal};
ghost use Rattle.am_lab_xml.specs.Attributes.{attribute_of, point};
ghost use Rattle.am_lab_xml.specs.Escaped.{escaped};
ghost use Rattle.am_lab_xml.specs.Trees.{attribute, attributes, closing, opening, printed};
ghost use Rattle.am_lab_xml.specs.Trees.{Content as Contents};

use crate::escaped::put_text;
use itoa::Buffer;
use std::alloc::AllocError;

/// A place in a list of places, as in the `d` of a path: a text, a number, a space and a number.
#[derive(Clone, Copy)]
pub struct Point {
    pub lead: &'static str,
    pub x: u64,
    pub y: u64,
}

/// A name and what stands in quotes behind it.
#[derive(Clone, Copy)]
pub enum Attribute<'a> {
    /// This text.
    Word(&'static str, &'static str),
    /// This number, in decimal.
    Number(&'static str, u64),
    /// These places, one behind the other.
    Path(&'static str, &'a [Point]),
}

/// Appends a number as text, in decimal.
#[tactic(auto, using(crate::proofs::Texts::escaped_decimal))]
pub fn put_number(out: &mut Vec<u8>, number: u64) -> Result<(), AllocError>
    ensures { OnOk result (out.new.items ≡ out.old.items ++ printed (Contents.Text (decimal number))) }
{
    let mut buffer = Buffer::new();
    out.extend_from_slice(buffer.format(number).as_bytes())
}

#[tactic(auto, using(crate::proofs::Texts::pieces))]
fn put_point(out: &mut Vec<u8>, place: Point) -> Result<(), AllocError>
    ensures { OnOk result (out.new.items ≡ out.old.items ++ escaped (point place)) }
{
    put_text(out, place.lead.as_bytes())?;
    put_number(out, place.x)?;
    out.extend_from_slice(b" ")?;
    put_number(out, place.y)
}

fn put_points(out: &mut Vec<u8>, places: &[Point]) -> Result<(), AllocError>
    ensures { OnOk result (out.new.items ≡ out.old.items ++ flat_map (λ place. escaped (point place)) places.now) }
{
    for place in places {
        put_point(out, *place)?;
    }
    Ok(())
}

#[tactic(auto, using(std::proofs::Common::append_assoc))]
fn put_name(out: &mut Vec<u8>, name: &str) -> Result<(), AllocError>
    ensures { OnOk result (out.new.items ≡ out.old.items ++ (codes " " ++ name.now ++ codes "=\"")) }
{
    out.extend_from_slice(b" ")?;
    out.extend_from_slice(name.as_bytes())?;
    out.extend_from_slice(b"=\"")
}

#[tactic(auto, using(crate::proofs::Texts::escaped_points))]
fn put_value(out: &mut Vec<u8>, attribute: Attribute) -> Result<(), AllocError>
    ensures { OnOk result (out.new.items ≡ out.old.items ++ escaped (attribute_of attribute.entry).value) }
{
    match attribute {
        Attribute::Word(_, value) => put_text(out, value.as_bytes()),
        Attribute::Number(_, number) => put_number(out, number),
        Attribute::Path(_, places) => put_points(out, places),
    }
}

fn name_of(attribute: Attribute) -> &'static str
    ensures { result.now ≡ (attribute_of attribute.entry).name }
{
    match attribute {
        Attribute::Word(name, _) | Attribute::Number(name, _) | Attribute::Path(name, _) => name,
    }
}

#[tactic(auto, using(std::proofs::Common::append_assoc), unfolding(crate::specs::Trees::attribute))]
fn put_attribute(out: &mut Vec<u8>, given: Attribute) -> Result<(), AllocError>
    ensures { OnOk result (out.new.items ≡ out.old.items ++ attribute (attribute_of given.entry)) }
{
    put_name(out, name_of(given))?;
    put_value(out, given)?;
    out.extend_from_slice(b"\"")
}

#[tactic(auto, using(std::proofs::Common::append_assoc))]
fn put_attributes(out: &mut Vec<u8>, given: &[Attribute]) -> Result<(), AllocError>
    ensures { OnOk result (out.new.items ≡ out.old.items ++ attributes (map attribute_of given.now)) }
{
    for one in given {
        put_attribute(out, *one)?;
    }
    Ok(())
}

/// Appends the tag that begins an element.
#[tactic(auto, using(std::proofs::Common::append_assoc))]
pub fn put_open(out: &mut Vec<u8>, name: &str, given: &[Attribute]) -> Result<(), AllocError>
    ensures { OnOk result (out.new.items ≡ out.old.items ++ opening name.now (map attribute_of given.now)) }
{
    out.extend_from_slice(b"<")?;
    out.extend_from_slice(name.as_bytes())?;
    put_attributes(out, given)?;
    out.extend_from_slice(b">")
}

/// Appends the tag that ends an element.
#[tactic(auto, using(std::proofs::Common::append_assoc))]
pub fn put_close(out: &mut Vec<u8>, name: &str) -> Result<(), AllocError>
    ensures { OnOk result (out.new.items ≡ out.old.items ++ closing name.now) }
{
    out.extend_from_slice(b"</")?;
    out.extend_from_slice(name.as_bytes())?;
    out.extend_from_slice(b">")
}

/// Appends an element that holds nothing.
#[tactic(auto, using(std::proofs::Common::append_assoc))]
pub fn put_empty(out: &mut Vec<u8>, name: &str, given: &[Attribute]) -> Result<(), AllocError>
    ensures { OnOk result (out.new.items ≡ out.old.items ++ printed (Contents.Empty name.now (map attribute_of given.now))) }
{
    out.extend_from_slice(b"<")?;
    out.extend_from_slice(name.as_bytes())?;
    put_attributes(out, given)?;
    out.extend_from_slice(b"/>")
}

/// Appends a line break between elements.
pub fn put_break(out: &mut Vec<u8>) -> Result<(), AllocError>
    ensures { OnOk result (out.new.items ≡ out.old.items ++ printed Contents.Break) }
{
    out.extend_from_slice(b"\n")
}
