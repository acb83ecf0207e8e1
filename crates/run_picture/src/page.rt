//! Shapes that several parts of the picture draw.

use crate::lanes::Side;
use crate::measures::{ASCENT, DESCENT, back, on, width_of};
use std::alloc::AllocError;
use svg_text::{Anchor, Drawing, Face, Fill, Point, Size, Stroke};

/// Half the width of a cross.
const CROSS: u64 = 6;
/// Between a lifeline and the words beside it.
const BESIDE: u64 = 16;

/// Draws a cross.
pub(crate) fn draw_cross(drawing: &mut Drawing, x: u64, y: u64) -> Result<(), AllocError> {
    let (left, right) = (back(x, CROSS), on(x, CROSS));
    let (top, bottom) = (back(y, CROSS), on(y, CROSS));
    drawing.line(
        Stroke::Broad,
        Point { x: left, y: top },
        Point {
            x: right,
            y: bottom,
        },
    )?;
    drawing.line(
        Stroke::Broad,
        Point { x: left, y: bottom },
        Point { x: right, y: top },
    )
}

/// Writes words beside a lifeline, on a blank box, so that no line shows between them.
pub(crate) fn write_beside(
    drawing: &mut Drawing,
    side: Side,
    x: u64,
    y: u64,
    words: &[u8],
) -> Result<(), AllocError> {
    let width = width_of(words.len());
    let x = beside(side, x, BESIDE);
    let at = Point { x, y };
    match side {
        Side::Left => {
            draw_blank(drawing, back(x, width), y, width)?;
            drawing.words(Face::Edged, Anchor::End, at, words)
        }
        Side::Right => {
            draw_blank(drawing, x, y, width)?;
            drawing.words(Face::Edged, Anchor::Start, at, words)
        }
    }
}

/// Draws a blank box after words of this width whose left end is here.
fn draw_blank(drawing: &mut Drawing, left: u64, y: u64, width: u64) -> Result<(), AllocError> {
    let corner = Point {
        x: left,
        y: back(y, ASCENT),
    };
    let size = Size {
        width,
        height: ASCENT + DESCENT,
    };
    drawing.rect(Fill::Blank, corner, size)
}

/// A place this far from a lifeline.
pub(crate) fn beside(side: Side, x: u64, by: u64) -> u64 {
    match side {
        Side::Left => back(x, by),
        Side::Right => on(x, by),
    }
}

/// The other side.
pub(crate) fn other(side: Side) -> Side {
    match side {
        Side::Left => Side::Right,
        Side::Right => Side::Left,
    }
}
