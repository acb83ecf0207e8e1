//! Where lifelines stand from left to right: as far apart as the words between them need.

use crate::Mark;
use crate::events::{begun_by, caption_of, note_of, refusal_of};
use crate::lanes::{Lanes, Side};
use crate::measures::{LEAST_GAP, MARGIN, NAME_WIDTH, on, width_of};
use crate::plan::Plan;
use std::alloc::{AllocError, Global};
use world_setup::Node;

/// Room on both sides of words between lifelines.
const ROOM: u64 = 40;

/// The places of lifelines, and how wide the picture is with them.
#[derive(Drop)]
pub(crate) struct Columns {
    xs: Vec<u64>,
    width: u64,
}

/// The widths that words need: before the first lifeline, between two of them, and after the last.
#[derive(Drop)]
struct Gaps {
    lanes: Lanes,
    captions: u64,
    widths: Vec<u64>,
}

impl Columns {
    /// No columns yet.
    pub(crate) fn empty(alloc: Global) -> Columns {
        Columns {
            xs: Vec::new(alloc),
            width: 0,
        }
    }

    /// The columns that the words of a plan need.
    pub(crate) fn of(plan: &Plan<'_>) -> Result<Columns, AllocError> {
        let mut gaps = Gaps::least(plan.alloc, plan.lanes)?;
        for mark in plan.marks {
            if plan.is_drawn(mark.event()) {
                gaps.take_caption(plan, mark)?;
                gaps.take(plan, mark)?;
            }
        }
        gaps.columns(plan.alloc)
    }

    /// The place of a column.
    pub(crate) fn x(&self, column: usize) -> u64 {
        self.xs.as_slice().get(column).copied().unwrap_or(0)
    }

    /// How wide the picture is with all columns and the words beside them.
    pub(crate) fn width(&self) -> u64 {
        self.width
    }
}

impl Gaps {
    /// The gaps between lifelines without words.
    fn least(alloc: Global, lanes: Lanes) -> Result<Gaps, AllocError> {
        let mut widths = Vec::new(alloc);
        widths.push(NAME_WIDTH)?;
        for _ in 1..lanes.len() {
            widths.push(LEAST_GAP)?;
        }
        widths.push(NAME_WIDTH)?;
        Ok(Gaps {
            lanes,
            captions: 0,
            widths,
        })
    }

    /// Makes room for the words that a mark of an event that is drawn has between lifelines.
    fn take(&mut self, plan: &Plan<'_>, mark: &Mark) -> Result<(), AllocError> {
        match *mark {
            Mark::Sent {
                packet,
                from,
                to,
                ..
            } => {
                let side = plan.lanes.side(from, to);
                self.want(from, side, plan.label(packet).len());
            }
            Mark::Refused { event, fault } => {
                if let Some((node, side)) = plan.refusal_at(event, fault) {
                    self.want(node, side, refusal_of(plan.alloc, fault)?.len());
                }
            }
            Mark::Revised { event, node } => {
                let note = note_of(plan.alloc, plan.events, event)?;
                self.want(node, Side::Right, note.len());
            }
            _ => {}
        }
        Ok(())
    }

    /// Makes room for the words at the left of the row that a mark begins.
    fn take_caption(&mut self, plan: &Plan<'_>, mark: &Mark) -> Result<(), AllocError> {
        if let Some((event, refused)) = begun_by(mark) {
            let caption = caption_of(plan, event, refused)?;
            self.captions = self.captions.max(width_of(caption.len()));
        }
        Ok(())
    }

    /// Makes room for this many characters beside the lifeline of a node.
    fn want(&mut self, node: Node, side: Side, characters: usize) {
        let column = self.lanes.of(node);
        let gap = match side {
            Side::Left => column,
            Side::Right => column.saturating_add(1),
        };
        let wanted = on(width_of(characters), ROOM);
        if let Some(width) = self.widths.as_mut_slice().get_mut(gap) {
            *width = wanted.max(*width);
        }
    }

    /// The columns with these gaps.
    fn columns(self, alloc: Global) -> Result<Columns, AllocError> {
        let mut x = on(MARGIN, self.captions);
        let mut xs = Vec::new(alloc);
        for width in self.widths.as_slice() {
            x = on(x, *width);
            xs.push(x)?;
        }
        Ok(Columns { xs, width: x })
    }
}
