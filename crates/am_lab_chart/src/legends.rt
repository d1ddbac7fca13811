//! The legend.

ghost use Rattle.std.specs.Prelude.{◌≡◌, ◌≤◌, ◌+◌, ◌++◌, IfOk, OnOk, length, map};
ghost use Rattle.am_lab_chart.specs.Legends as legends;
ghost use Rattle.am_lab_xml.specs.Trees.{printed};

use crate::captions::put_caption;
use crate::known::occurs;
use am_lab_picture::Picture;
use am_lab_xml::Attribute::{Number, Word};
use am_lab_xml::put_empty;
use am_office_text::LinePiece;
use std::alloc::{AllocError, Global};

/// A sign of the legend, how many pixels it takes with its text and the gap behind it, and what it stands for.
#[derive(Clone, Copy)]
pub enum Meaning {
    /// The class of a fate, and its sign.
    Fate(&'static str, &'static str, u8, &'static str),
    /// The class of a bar.
    Bar(&'static str, u8, &'static str),
    /// A sign that is known by itself, in dark grey.
    Sign(&'static str, u8, &'static str),
    /// How a packet's line is dashed.
    Way(&'static str, u8, &'static str),
}

/// The same, as it is drawn.
#[derive(Clone, Copy)]
pub struct Explanation {
    /// The word by which it is known whether it occurs.
    pub key: &'static str,
    pub sign: &'static str,
    pub class: &'static str,
    pub dashes: &'static str,
    pub width: u8,
    pub text: &'static str,
}

fn explain(meaning: Meaning) -> Explanation
    ensures { legends.explained_as result ≡ legends.meant_by meaning }
{
    match meaning {
        Meaning::Fate(class, sign, width, text) => Explanation {
            key: class,
            sign,
            class,
            dashes: "none",
            width,
            text,
        },
        Meaning::Bar(class, width, text) => Explanation {
            key: class,
            sign: "#box",
            class,
            dashes: "none",
            width,
            text,
        },
        Meaning::Sign(sign, width, text) => Explanation {
            key: sign,
            sign,
            class: "plain",
            dashes: "none",
            width,
            text,
        },
        Meaning::Way(dashes, width, text) => Explanation {
            key: dashes,
            sign: "#way",
            class: "plain",
            dashes,
            width,
            text,
        },
    }
}

#[tactic(auto, using(std::proofs::Common::append_assoc), unfolding(crate::specs::Legends::meaning))]
fn put_meaning(
    out: &mut Vec<u8>,
    alloc: Global,
    x: u64,
    y: u64,
    meaning: Explanation,
) -> Result<(), AllocError>
    requires near { x ≤ 60000 }
    requires low { y ≤ 60000 }
    ensures { OnOk result (out.new.items ≡ out.old.items ++ printed (legends.meaning x y (legends.explained_as meaning))) }
{
    put_empty(
        out,
        "use",
        &[
            Word("href", meaning.sign),
            Number("x", x),
            Number("y", y),
            Word("class", meaning.class),
            Word("stroke-dasharray", meaning.dashes),
        ],
    )?;
    let given = [
        Number("x", x + 16),
        Number("y", y + 3),
        Word("class", "plain"),
    ];
    put_caption(out, alloc, &given, &[LinePiece::Text(meaning.text)])
}

/// Appends a line of the legend at this height: what those of the signs stand for that occur in the picture. The answer
/// is the height of the next line.
pub(crate) fn put_meanings(
    out: &mut Vec<u8>,
    alloc: Global,
    picture: &Picture,
    y: u64,
    meanings: &[Meaning],
) -> Result<u64, AllocError>
    requires few { length meanings.now ≤ 9 }
    requires low { y ≤ 60000 }
    ensures drawn { OnOk result (out.new.items ≡ out.old.items ++ printed (legends.meanings picture.now 20 y (map legends.meant_by meanings.now))) }
    ensures next { IfOk result (λ next. next ≡ legends.below picture.now y (map legends.meant_by meanings.now)) }
    ensures low { IfOk result (λ next. next ≤ y + 24) }
{
    let mut x = 20;
    let mut has_some = false;
    for meaning in meanings {
        let shown = explain(*meaning);
        if !occurs(picture, shown.key) {
            continue;
        }
        put_meaning(out, alloc, x, y, shown)?;
        x += u64::from(shown.width);
        has_some = true;
    }
    Ok(if has_some { y + 24 } else { y })
}
