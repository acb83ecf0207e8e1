//! Arrows from the sending of a packet to each of its deliveries, and what ends in a cross.

use crate::Mark;
use crate::lanes::Side;
use crate::measures::{BAR, on};
use crate::page::{beside, draw_cross, other};
use crate::plan::Plan;
use crate::rows::{Departure, refused_packet};
use std::alloc::AllocError;
use svg_text::{Drawing, Point, Stroke};

/// How far from a lifeline a refused packet ends.
const REFUSED: u64 = 12;
/// How far from its sender a packet is drawn that reaches nobody.
const LOST: u64 = 60;
/// How far below its sending such a packet ends.
const LOST_BELOW: u64 = 6;

/// Draws an arrow for each delivery, made or refused, and one for each packet that was never delivered.
pub(crate) fn draw_arrows(drawing: &mut Drawing, plan: &Plan<'_>) -> Result<(), AllocError> {
    for mark in plan.marks {
        match *mark {
            Mark::Arrived { event, packet } => draw_taken(drawing, plan, packet, event)?,
            Mark::Refused { event, fault } => {
                if let Some(packet) = refused_packet(plan.events, event, fault) {
                    draw_refused(drawing, plan, packet, event)?;
                }
            }
            _ => {}
        }
    }
    for departure in plan.rows.departures() {
        if departure.drawn && !departure.met {
            draw_lost(drawing, plan, departure)?;
        }
    }
    Ok(())
}

/// Where the arrows of a packet begin, and on which side of its sender.
fn start(plan: &Plan<'_>, departure: &Departure) -> (Point, Side) {
    let side = plan.lanes.side(departure.from, departure.to);
    let x = beside(side, plan.x(departure.from), BAR);
    (Point { x, y: departure.y }, side)
}

/// Draws the arrow of a delivery that was made. Nothing is drawn where neither of its ends is.
fn draw_taken(
    drawing: &mut Drawing,
    plan: &Plan<'_>,
    packet: u64,
    event: u64,
) -> Result<(), AllocError> {
    let Some(departure) = plan.rows.departure(packet) else {
        return Ok(());
    };
    if !departure.drawn && !plan.is_drawn(event) {
        return Ok(());
    }
    let (from, side) = start(plan, &departure);
    let to = Point {
        x: beside(other(side), plan.x(departure.to), BAR),
        y: plan.y(event),
    };
    drawing.line(Stroke::Arrow, from, to)
}

/// Draws the line of a packet to the node that refused it, with a cross at its end.
fn draw_refused(
    drawing: &mut Drawing,
    plan: &Plan<'_>,
    packet: u64,
    event: u64,
) -> Result<(), AllocError> {
    let Some(departure) = plan.rows.departure(packet) else {
        return Ok(());
    };
    if !plan.is_drawn(event) {
        return Ok(());
    }
    let (from, side) = start(plan, &departure);
    let x = beside(other(side), plan.x(departure.to), REFUSED);
    let y = plan.y(event);
    drawing.line(Stroke::Dashed, from, Point { x, y })?;
    draw_cross(drawing, x, y)
}

/// Draws a short line with a cross at its end, for a packet that was never delivered.
fn draw_lost(
    drawing: &mut Drawing,
    plan: &Plan<'_>,
    departure: &Departure,
) -> Result<(), AllocError> {
    let (from, side) = start(plan, departure);
    let x = beside(side, plan.x(departure.from), LOST);
    let y = on(from.y, LOST_BELOW);
    drawing.line(Stroke::Dashed, from, Point { x, y })?;
    draw_cross(drawing, x, y)
}
