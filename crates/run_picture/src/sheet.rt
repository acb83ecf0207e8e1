//! The whole picture.

ghost use Rattle.std.specs.Prelude.{IfOk};
ghost use Rattle.run_picture.specs.Drawn.{IsDrawn};

use crate::Mark;
use crate::arrows::draw_arrows;
use crate::extent::Extent;
use crate::foot::Foot;
use crate::frame::{description_of, heading_of, heading_width, write_heading};
use crate::lifelines::{draw_lifelines, draw_names};
use crate::measures::{MARGIN, on};
use crate::plan::Plan;
use crate::rowing::{draw_bands, draw_doings, draw_rules, write_rows};
use std::alloc::{AllocError, Global};
use svg_text::{Drawing, Fill, Frame, Point, Size};
use world_core::World;
use world_setup::Event;

/// The file of the picture of a run: these events with their marks led to this world.
pub fn picture(
    alloc: Global,
    world: &World,
    events: &[Event],
    marks: &[Mark],
    extent: Extent,
) -> Result<Vec<u8>, AllocError>
    // A text of the elements that svg_text draws, with whatever words.
    ensures { IfOk result (λ file. IsDrawn file.items) }
{
    let plan = Plan::of(alloc, world, events, marks, extent)?;
    let foot = Foot::of(&plan, world)?;
    let heading = heading_of(&plan)?;
    let description = description_of(&plan)?;
    let size = Size {
        width: on(plan.columns.width(), MARGIN)
            .max(foot.width())
            .max(heading_width(heading.as_slice())),
        height: on(plan.rows.end(), foot.height()),
    };
    let mut drawing = Drawing::new(alloc);
    drawing.rect(Fill::Blank, Point { x: 0, y: 0 }, size)?;
    write_heading(&mut drawing, heading.as_slice())?;
    draw_all(&mut drawing, &plan)?;
    foot.write(&mut drawing, plan.rows.end())?;
    let frame = Frame {
        size,
        title: heading.as_slice(),
        description: description.as_slice(),
    };
    drawing.file(&frame)
}

/// Draws the rows from the back to the front.
fn draw_all(drawing: &mut Drawing, plan: &Plan<'_>) -> Result<(), AllocError> {
    draw_rules(drawing, plan)?;
    draw_lifelines(drawing, plan)?;
    draw_arrows(drawing, plan)?;
    draw_doings(drawing, plan)?;
    draw_names(drawing, plan)?;
    write_rows(drawing, plan)?;
    draw_bands(drawing, plan)
}
