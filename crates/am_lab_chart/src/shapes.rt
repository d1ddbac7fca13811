//! The shapes of the signs and the arrow heads, in the scale of a picture.

ghost use Rattle.std.specs.Prelude.{◌≡◌, ◌++◌, OnOk};
ghost use Rattle.am_lab_chart.specs.Drawing.{definitions};
ghost use Rattle.am_lab_chart.specs.Shapes.{scaled, spelled, spelled_byte};
ghost use Rattle.am_lab_xml.specs.Trees.{printed};

use crate::tables::DEFINITIONS;
use am_lab_picture::Picture;
use am_lab_picture::layout::has_text;
use std::alloc::AllocError;

// What stands between a shape's name and its area.
#[tactic(auto, unfolding(crate::specs::Shapes::scaled))]
fn scaled(picture: &Picture) -> &'static str
    ensures { result.now ≡ scaled picture.now }
{
    if has_text(picture) {
        "\" transform=\"scale(1)\"><path class=\"area\" d=\""
    } else {
        "\" transform=\"scale(.4)\"><path class=\"area\" d=\""
    }
}

#[tactic(auto, unfolding(crate::specs::Shapes::spelled_byte))]
fn put_spelled_byte(out: &mut Vec<u8>, front: &str, byte: u8) -> Result<(), AllocError>
    ensures { OnOk result (out.new.items ≡ out.old.items ++ spelled_byte front.now byte) }
{
    match byte {
        b'[' => out.extend_from_slice(b"<g id=\""),
        b'(' => out.extend_from_slice(front.as_bytes()),
        b')' => out.extend_from_slice(b"\"/><path class=\"edge\" d=\""),
        b']' => out.extend_from_slice(b"\"/></g>"),
        b'{' => out.extend_from_slice(b"<marker id=\""),
        b':' => out.extend_from_slice(b"\" class=\""),
        b'}' => out.extend_from_slice(
            b"\" viewBox=\"0 0 8 8\" refX=\"7\" refY=\"4\" markerWidth=\"5\" markerHeight=\"5\" orient=\"auto\">\
            <path class=\"area\" d=\"M0 0L8 4L0 8z\"/></marker>",
        ),
        _ => out.extend_from_slice(&[byte]),
    }
}

// Appends what a text spells.
#[tactic(auto, unfolding(crate::specs::Shapes::spelled))]
fn put_spelled(out: &mut Vec<u8>, front: &str, text: &[u8]) -> Result<(), AllocError>
    ensures { OnOk result (out.new.items ≡ out.old.items ++ spelled front.now text.now) }
{
    for byte in text {
        put_spelled_byte(out, front, *byte)?;
    }
    Ok(())
}

/// Appends the shapes of all signs, and the arrow heads.
#[tactic(auto, using(crate::proofs::Spelled::definitions_spelled))]
pub(crate) fn put_definitions(out: &mut Vec<u8>, picture: &Picture) -> Result<(), AllocError>
    ensures { OnOk result (out.new.items ≡ out.old.items ++ printed (definitions picture.now)) }
{
    put_spelled(out, scaled(picture), DEFINITIONS.as_bytes())
}
