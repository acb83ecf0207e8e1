//! What is drawn and written in the rows of events.

use crate::Mark;
use crate::events::{begun_by, caption_of, note_of, refusal_of};
use crate::extent::Gap;
use crate::lanes::Side;
use crate::measures::{BAND, BAR, MARGIN, ROW_TOP, back, on};
use crate::page::{draw_cross, write_beside};
use crate::plan::Plan;
use crate::rows::{Row, refused_packet};
use input_text::put_decimal;
use std::alloc::AllocError;
use svg_text::{Anchor, Drawing, Face, Fill, Point, Size, Stroke};
use world_setup::{Fault, Node};

/// From the line of an arrow to the words on it.
const BASE: u64 = 5;
/// From the line on which an arrow begins up to the words at it.
const ABOVE: u64 = 6;

/// Draws the pale lines between rows.
pub(crate) fn draw_rules(drawing: &mut Drawing, plan: &Plan<'_>) -> Result<(), AllocError> {
    let right = plan.columns.width();
    for number in 1..=plan.events.len() as u64 {
        if let Some(row) = plan.rows.row(number) {
            if row.drawn {
                let y = back(row.y, ROW_TOP);
                drawing.line(Stroke::Pale, Point { x: MARGIN, y }, Point { x: right, y })?;
            }
        }
    }
    Ok(())
}

/// Draws the bars of nodes that do something, the ends of lifelines, and the crosses of refusals without an arrow.
pub(crate) fn draw_doings(drawing: &mut Drawing, plan: &Plan<'_>) -> Result<(), AllocError> {
    for mark in plan.marks {
        match *mark {
            Mark::Submitted { event, pharmacy } | Mark::Ticked { event, pharmacy } => {
                draw_bar(drawing, plan, event, Node::Pharmacy(pharmacy))?
            }
            Mark::Revised { event, node } => draw_bar(drawing, plan, event, node)?,
            Mark::Arrived { event, packet } => {
                if let Some(departure) = plan.rows.departure(packet) {
                    draw_bar(drawing, plan, event, departure.to)?;
                }
            }
            Mark::Stopped { event, node } | Mark::Started { event, node } => {
                draw_turn(drawing, plan, event, node)?
            }
            Mark::Refused { event, fault } => draw_refusal(drawing, plan, event, fault)?,
            Mark::Sent { .. } => {}
        }
    }
    Ok(())
}

/// The row of an event that is drawn.
fn drawn_row(plan: &Plan<'_>, event: u64) -> Option<Row> {
    let row = plan.rows.row(event)?;
    if row.drawn { Some(row) } else { None }
}

/// Draws the bar of a node, from the line of its event to that of the last packet that it sends.
fn draw_bar(
    drawing: &mut Drawing,
    plan: &Plan<'_>,
    event: u64,
    node: Node,
) -> Result<(), AllocError> {
    let Some(row) = drawn_row(plan, event) else {
        return Ok(());
    };
    let corner = Point {
        x: back(plan.x(node), BAR),
        y: back(row.y, BAR),
    };
    let size = Size {
        width: BAR * 2,
        height: on(back(row.bottom, row.y), BAR * 2),
    };
    drawing.rect(Fill::Bordered, corner, size)
}

/// Draws a broad line across a lifeline, where its node stops or starts.
fn draw_turn(
    drawing: &mut Drawing,
    plan: &Plan<'_>,
    event: u64,
    node: Node,
) -> Result<(), AllocError> {
    let Some(row) = drawn_row(plan, event) else {
        return Ok(());
    };
    let (x, y) = (plan.x(node), row.y);
    let reach = BAR * 2;
    drawing.line(
        Stroke::Broad,
        Point {
            x: back(x, reach),
            y,
        },
        Point { x: on(x, reach), y },
    )
}

/// Draws the cross of a refusal at the lifeline of its node, where no arrow has one.
fn draw_refusal(
    drawing: &mut Drawing,
    plan: &Plan<'_>,
    event: u64,
    fault: Fault,
) -> Result<(), AllocError> {
    if !plan.is_drawn(event) || refused_packet(plan.events, event, fault).is_some() {
        return Ok(());
    }
    match plan.refusal_at(event, fault) {
        Some((node, _)) => draw_cross(drawing, plan.x(node), plan.y(event)),
        None => Ok(()),
    }
}

/// Writes the words of all rows that are drawn.
pub(crate) fn write_rows(drawing: &mut Drawing, plan: &Plan<'_>) -> Result<(), AllocError> {
    for mark in plan.marks {
        if plan.is_drawn(mark.event()) {
            write_caption(drawing, plan, mark)?;
            write_mark(drawing, plan, mark)?;
        }
    }
    Ok(())
}

/// Writes what stands at the left of the row that a mark begins.
fn write_caption(drawing: &mut Drawing, plan: &Plan<'_>, mark: &Mark) -> Result<(), AllocError> {
    let Some((event, refused)) = begun_by(mark) else {
        return Ok(());
    };
    let at = Point {
        x: MARGIN,
        y: on(plan.y(event), BASE),
    };
    let caption = caption_of(plan, event, refused)?;
    drawing.words(Face::Plain, Anchor::Start, at, caption.as_slice())
}

/// Writes the words of a mark.
fn write_mark(drawing: &mut Drawing, plan: &Plan<'_>, mark: &Mark) -> Result<(), AllocError> {
    match *mark {
        Mark::Sent {
            packet,
            from,
            to,
            ..
        } => write_label(drawing, plan, packet, from, to),
        Mark::Stopped { event, node } => write_at(drawing, plan, event, node, b"stops"),
        Mark::Started { event, node } => write_at(drawing, plan, event, node, b"starts"),
        Mark::Revised { event, node } => {
            let note = note_of(plan.alloc, plan.events, event)?;
            write_at(drawing, plan, event, node, note.as_slice())
        }
        Mark::Refused { event, fault } => write_refusal(drawing, plan, event, fault),
        _ => Ok(()),
    }
}

/// Writes words at the right of the lifeline of a node, in the row of an event.
fn write_at(
    drawing: &mut Drawing,
    plan: &Plan<'_>,
    event: u64,
    node: Node,
    words: &[u8],
) -> Result<(), AllocError> {
    let y = on(plan.y(event), BASE);
    write_beside(drawing, Side::Right, plan.x(node), y, words)
}

/// Writes why an event was refused, at its node, or after the event where there is none.
fn write_refusal(
    drawing: &mut Drawing,
    plan: &Plan<'_>,
    event: u64,
    fault: Fault,
) -> Result<(), AllocError> {
    let Some((node, side)) = plan.refusal_at(event, fault) else {
        return Ok(());
    };
    let words = refusal_of(plan.alloc, fault)?;
    let y = on(plan.y(event), BASE);
    write_beside(drawing, side, plan.x(node), y, words.as_slice())
}

/// Writes the label of a packet at its sending.
fn write_label(
    drawing: &mut Drawing,
    plan: &Plan<'_>,
    packet: u64,
    from: Node,
    to: Node,
) -> Result<(), AllocError> {
    let Some(departure) = plan.rows.departure(packet) else {
        return Ok(());
    };
    let side = plan.lanes.side(from, to);
    let y = back(departure.y, ABOVE);
    write_beside(drawing, side, plan.x(from), y, plan.label(packet))
}

/// Draws the bands that stand for events that are not drawn.
pub(crate) fn draw_bands(drawing: &mut Drawing, plan: &Plan<'_>) -> Result<(), AllocError> {
    if let Some(y) = plan.rows.early_band() {
        draw_band(drawing, plan, y, plan.hidden.early)?;
    }
    match plan.rows.late_band() {
        Some(y) => draw_band(drawing, plan, y, plan.hidden.late),
        None => Ok(()),
    }
}

/// Draws the band with its middle here that stands for events that are not drawn, and says which.
fn draw_band(drawing: &mut Drawing, plan: &Plan<'_>, y: u64, gap: Gap) -> Result<(), AllocError> {
    let width = plan.columns.width();
    let corner = Point {
        x: MARGIN,
        y: back(y, BAND / 2),
    };
    let size = Size {
        width: back(width, MARGIN),
        height: BAND,
    };
    drawing.rect(Fill::DashedBorder, corner, size)?;
    let words = band_words(plan, gap)?;
    let at = Point {
        x: on(MARGIN, MARGIN),
        y: on(y, BASE),
    };
    drawing.words(Face::Bold, Anchor::Start, at, words.as_slice())
}

/// Which events a band stands for.
fn band_words(plan: &Plan<'_>, gap: Gap) -> Result<Vec<u8>, AllocError> {
    let mut words = Vec::new(plan.alloc);
    words.extend_from_slice(b"events ")?;
    put_decimal(&mut words, gap.first)?;
    words.extend_from_slice(b" to ")?;
    put_decimal(&mut words, gap.last)?;
    words.extend_from_slice(b" are not drawn; `claimpicture all` draws them")?;
    Ok(words)
}
