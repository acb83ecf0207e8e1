//! The elements of a picture: a line, a box, words.

ghost use Rattle.std.specs.Prelude.{◌≡◌, ◌++◌, OnOk};
ghost use Rattle.svg_text.specs.Pieces.{line_text, box_text, words_text};

use crate::escaping::put_escaped;
use crate::numbers::{Name, put_start, sized};
use crate::styles::{Anchor, Face, Fill, Stroke};
use std::alloc::AllocError;

/// A point, in pixels from the upper left corner.
#[derive(Clone, Copy, PartialEq, Eq)]
pub struct Point {
    /// To the right.
    pub x: u64,
    /// Downwards.
    pub y: u64,
}

/// The size of a box or of the whole picture, in pixels.
#[derive(Clone, Copy, PartialEq, Eq)]
pub struct Size {
    pub width: u64,
    pub height: u64,
}

/// Appends a line.
#[tactic(auto, unfolding(crate::specs::Pieces::line_text), using(input_text::proofs::Joining::lists_join))]
pub(crate) fn put_line(
    out: &mut Vec<u8>,
    stroke: Stroke,
    from: Point,
    to: Point,
) -> Result<(), AllocError>
    ensures { OnOk result (out.new.items ≡ out.old.items ++ line_text stroke from to) }
{
    let ends = [
        sized(Name::X1, from.x),
        sized(Name::Y1, from.y),
        sized(Name::X2, to.x),
        sized(Name::Y2, to.y),
    ];
    put_start(out, b"line", stroke.style(), &ends)?;
    out.extend_from_slice(b"/>\n")?;
    Ok(())
}

/// Appends a box.
#[tactic(auto, unfolding(crate::specs::Pieces::box_text), using(input_text::proofs::Joining::lists_join))]
pub(crate) fn put_box(
    out: &mut Vec<u8>,
    fill: Fill,
    corner: Point,
    size: Size,
) -> Result<(), AllocError>
    ensures { OnOk result (out.new.items ≡ out.old.items ++ box_text fill corner size) }
{
    let sides = [
        sized(Name::X, corner.x),
        sized(Name::Y, corner.y),
        sized(Name::Width, size.width),
        sized(Name::Height, size.height),
    ];
    put_start(out, b"rect", fill.style(), &sides)?;
    out.extend_from_slice(b"/>\n")?;
    Ok(())
}

/// Appends words.
#[tactic(auto, unfolding(crate::specs::Pieces::words_text), using(crate::proofs::Joining::five_join))]
pub(crate) fn put_words(
    out: &mut Vec<u8>,
    face: Face,
    anchor: Anchor,
    at: Point,
    words: &[u8],
) -> Result<(), AllocError>
    ensures { OnOk result (out.new.items ≡ out.old.items ++ words_text face anchor at words.now) }
{
    let place = [sized(Name::X, at.x), sized(Name::Y, at.y)];
    put_start(out, b"text", face.style(), &place)?;
    out.extend_from_slice(anchor.style())?;
    out.extend_from_slice(b">")?;
    put_escaped(out, words)?;
    out.extend_from_slice(b"</text>\n")?;
    Ok(())
}
