//! All that a picture is drawn from.

use crate::Mark;
use crate::columns::Columns;
use crate::extent::{Extent, Hidden};
use crate::labels::labels_of;
use crate::lanes::{Lanes, Side};
use crate::rows::{Rows, event_of, refused_packet};
use std::alloc::{AllocError, Global};
use world_core::World;
use world_setup::{Event, Fault, Node};

/// The events of a run, its marks, and where they stand on the page.
#[derive(Drop)]
pub(crate) struct Plan<'a> {
    pub(crate) alloc: Global,
    pub(crate) events: &'a [Event],
    pub(crate) marks: &'a [Mark],
    pub(crate) hidden: Hidden,
    pub(crate) lanes: Lanes,
    pub(crate) labels: Vec<Vec<u8>>,
    pub(crate) rows: Rows,
    pub(crate) columns: Columns,
}

impl<'a> Plan<'a> {
    /// The plan of a run that led to this world.
    pub(crate) fn of(
        alloc: Global,
        world: &World,
        events: &'a [Event],
        marks: &'a [Mark],
        extent: Extent,
    ) -> Result<Plan<'a>, AllocError> {
        let hidden = extent.hidden(events.len() as u64);
        let lanes = Lanes::of_world(world);
        let labels = labels_of(alloc, lanes, world.packets())?;
        let rows = Rows::of(alloc, events, marks, hidden)?;
        let mut plan = Plan {
            alloc,
            events,
            marks,
            hidden,
            lanes,
            labels,
            rows,
            columns: Columns::empty(alloc),
        };
        let columns = Columns::of(&plan)?;
        plan.columns = columns;
        Ok(plan)
    }

    /// The label of a packet.
    pub(crate) fn label(&self, packet: u64) -> &[u8] {
        match self
            .labels
            .as_slice()
            .get(packet.saturating_sub(1) as usize)
        {
            Some(label) => label.as_slice(),
            None => b"",
        }
    }

    /// Whether an event is drawn.
    pub(crate) fn is_drawn(&self, event: u64) -> bool {
        !self.hidden.has(event)
    }

    /// The line of an event.
    pub(crate) fn y(&self, event: u64) -> u64 {
        self.rows.row(event).map_or(0, |row| row.y)
    }

    /// The line of the lifeline of a node.
    pub(crate) fn x(&self, node: Node) -> u64 {
        self.columns.x(self.lanes.of(node))
    }

    /// The node at which an event was refused, and the side of its lifeline that is free of the arrow. None where there
    /// is no such node or no such packet.
    pub(crate) fn refusal_at(&self, event: u64, fault: Fault) -> Option<(Node, Side)> {
        if let Some(packet) = refused_packet(self.events, event, fault) {
            let departure = self.rows.departure(packet)?;
            let side = self.lanes.side(departure.from, departure.to);
            return Some((departure.to, side));
        }
        let node = node_of(event_of(self.events, event)?)?;
        if self.lanes.of(node) < self.lanes.len() {
            Some((node, Side::Right))
        } else {
            None
        }
    }
}

/// The node on which an event other than a delivery calls.
fn node_of(event: &Event) -> Option<Node> {
    match event {
        Event::Submit { pharmacy, .. } => Some(Node::Pharmacy(*pharmacy)),
        Event::Tick { pharmacy } => Some(Node::Pharmacy(*pharmacy)),
        Event::Deliver { .. } | Event::Adjudicate { .. } => None,
        Event::Stop(node) => Some(*node),
        Event::Start(node) => Some(*node),
        Event::Plan { payer, .. } | Event::Terms { payer, .. } => Some(Node::Payer(*payer)),
        Event::Retry { pharmacy, .. } => Some(Node::Pharmacy(*pharmacy)),
        Event::Cap { switch, .. } => Some(Node::Switch(*switch)),
    }
}
