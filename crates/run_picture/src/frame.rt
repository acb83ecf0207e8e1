//! What stands above the rows, and what a screen reader is told.

use crate::Mark;
use crate::measures::{MARGIN, on, width_of};
use crate::plan::Plan;
use input_text::put_decimal;
use std::alloc::AllocError;
use svg_text::{Anchor, Drawing, Face, Point};

/// The lines of the legend.
const LEGEND: [&[u8]; 3] = [
    b"An arrow is a packet, from its sending to a delivery. A packet that is delivered twice has two arrows.",
    b"A cross ends one that was refused or never delivered. Dots: the node is stopped. B1 bills, B2 reverses.",
    b"P: paid. D: paid before. A: reversed. R: rejected, with its codes. The lines below the rows sum up.",
];
/// Where the heading and the legend stand.
const HEADING: u64 = 32;

const LEGEND_TOP: u64 = 58;

const LEGEND_LINE: u64 = 20;

/// How many of each kind a run has.
#[derive(Clone, Copy)]
struct Counts {
    sent: u64,
    taken: u64,
    refused: u64,
}

/// The heading: how many events, packets, deliveries and refusals there are.
pub(crate) fn heading_of(plan: &Plan<'_>) -> Result<Vec<u8>, AllocError> {
    let mut counts = Counts {
        sent: 0,
        taken: 0,
        refused: 0,
    };
    for mark in plan.marks {
        match mark {
            Mark::Sent { .. } => counts.sent = on(counts.sent, 1),
            Mark::Arrived { .. } => counts.taken = on(counts.taken, 1),
            Mark::Refused { .. } => counts.refused = on(counts.refused, 1),
            _ => {}
        }
    }
    let mut heading = Vec::new(plan.alloc);
    heading.extend_from_slice(b"Replay: ")?;
    put_count(&mut heading, plan.events.len() as u64, b"event")?;
    heading.extend_from_slice(b", ")?;
    put_count(&mut heading, counts.refused, b"refusal")?;
    heading.extend_from_slice(b", ")?;
    put_count(&mut heading, counts.sent, b"packet")?;
    heading.extend_from_slice(b", ")?;
    put_count(&mut heading, counts.taken, b"arrow")?;
    Ok(heading)
}

/// Appends a count and what is counted.
fn put_count(out: &mut Vec<u8>, count: u64, noun: &[u8]) -> Result<(), AllocError> {
    put_decimal(out, count)?;
    out.extend_from_slice(b" ")?;
    out.extend_from_slice(noun)?;
    if count != 1 {
        out.extend_from_slice(b"s")?;
    }
    Ok(())
}

/// What a screen reader is told after the title.
pub(crate) fn description_of(plan: &Plan<'_>) -> Result<Vec<u8>, AllocError> {
    let mut description = Vec::new(plan.alloc);
    description.extend_from_slice(
        b"A sequence diagram: a lifeline for each node, pharmacies left, switches in the middle, payers right; time runs downwards.",
    )?;
    for line in LEGEND {
        description.extend_from_slice(b" ")?;
        description.extend_from_slice(line)?;
    }
    Ok(description)
}

/// Writes the heading and the legend.
pub(crate) fn write_heading(drawing: &mut Drawing, heading: &[u8]) -> Result<(), AllocError> {
    let at = Point {
        x: MARGIN,
        y: HEADING,
    };
    drawing.words(Face::Heading, Anchor::Start, at, heading)?;
    let mut y = LEGEND_TOP;
    for line in LEGEND {
        drawing.words(Face::Plain, Anchor::Start, Point { x: MARGIN, y }, line)?;
        y = on(y, LEGEND_LINE);
    }
    Ok(())
}

/// How wide the heading and the legend are.
pub(crate) fn heading_width(heading: &[u8]) -> u64 {
    let mut width = on(width_of(heading.len()), width_of(heading.len()) / 3);
    for line in LEGEND {
        width = width_of(line.len()).max(width);
    }
    on(width, MARGIN * 2)
}
