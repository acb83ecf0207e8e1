//! Lifelines: whole while a node is up, dotted while it is stopped.

use crate::Mark;
use crate::lettering::kind_of;
use crate::measures::{NAME_HEIGHT, NAME_WIDTH, NAMES, back, on};
use crate::plan::Plan;
use schedule::put_node;
use std::alloc::AllocError;
use svg_text::{Anchor, Drawing, Face, Fill, Point, Size, Stroke};
use world_setup::Node;

/// How far a lifeline is drawn, and whether its node is up there.
#[derive(Clone, Copy)]
struct Reach {
    y: u64,
    up: bool,
}

/// Draws the lifelines of all nodes.
pub(crate) fn draw_lifelines(drawing: &mut Drawing, plan: &Plan<'_>) -> Result<(), AllocError> {
    let mut reaches = Vec::new(plan.alloc);
    let begin = Reach {
        y: on(NAMES, NAME_HEIGHT),
        up: true,
    };
    reaches.resize(plan.lanes.len(), begin)?;
    for mark in plan.marks {
        match *mark {
            Mark::Stopped { event, node } => {
                turn(drawing, plan, reaches.as_mut_slice(), node, event, false)?
            }
            Mark::Started { event, node } => {
                turn(drawing, plan, reaches.as_mut_slice(), node, event, true)?
            }
            _ => {}
        }
    }
    for (column, reach) in reaches.iter().enumerate() {
        draw_part(drawing, plan.columns.x(column), *reach, plan.rows.end())?;
    }
    Ok(())
}

/// Draws a lifeline down to where its node stops or starts.
fn turn(
    drawing: &mut Drawing,
    plan: &Plan<'_>,
    reaches: &mut [Reach],
    node: Node,
    event: u64,
    up: bool,
) -> Result<(), AllocError> {
    let column = plan.lanes.of(node);
    let Some(reach) = reaches.get_mut(column) else {
        return Ok(());
    };
    let y = plan.y(event);
    draw_part(drawing, plan.columns.x(column), *reach, y)?;
    *reach = Reach { y, up };
    Ok(())
}

/// Draws a part of a lifeline.
fn draw_part(drawing: &mut Drawing, x: u64, from: Reach, to: u64) -> Result<(), AllocError> {
    if to <= from.y {
        return Ok(());
    }
    let stroke = if from.up {
        Stroke::Solid
    } else {
        Stroke::Dotted
    };
    drawing.line(stroke, Point { x, y: from.y }, Point { x, y: to })
}

/// Draws the boxes with the names of all nodes.
pub(crate) fn draw_names(drawing: &mut Drawing, plan: &Plan<'_>) -> Result<(), AllocError> {
    for column in 0..plan.lanes.len() {
        draw_name(
            drawing,
            plan,
            plan.lanes.node(column),
            plan.columns.x(column),
        )?;
    }
    Ok(())
}

/// Draws the box with the name of a node.
fn draw_name(drawing: &mut Drawing, plan: &Plan<'_>, node: Node, x: u64) -> Result<(), AllocError> {
    let corner = Point {
        x: back(x, NAME_WIDTH / 2),
        y: NAMES,
    };
    let size = Size {
        width: NAME_WIDTH,
        height: NAME_HEIGHT,
    };
    drawing.rect(Fill::Bordered, corner, size)?;
    let mut name = Vec::new(plan.alloc);
    put_node(&mut name, node)?;
    let first = Point {
        x,
        y: on(NAMES, 17),
    };
    drawing.words(Face::Bold, Anchor::Middle, first, name.as_slice())?;
    let second = Point {
        x,
        y: on(NAMES, 34),
    };
    drawing.words(Face::Plain, Anchor::Middle, second, kind_of(node))
}
