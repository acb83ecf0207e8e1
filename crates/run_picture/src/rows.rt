//! Where events and sendings stand from top to bottom.

use crate::Mark;
use crate::extent::Hidden;
use crate::measures::{BAND, FIRST_ROW, LINE, MARGIN, ROW_REST, ROW_TOP, SLIM_REST, on};
use std::alloc::{AllocError, Global};
use world_setup::{Event, Fault, Node, Refusal};

/// The row of an event.
#[derive(Clone, Copy)]
pub(crate) struct Row {
    /// The line on which an arrow ends.
    pub(crate) y: u64,
    /// The line on which the last arrow begins.
    pub(crate) bottom: u64,
    /// Whether the event is drawn.
    pub(crate) drawn: bool,
}

/// The sending of a packet.
#[derive(Clone, Copy)]
pub(crate) struct Departure {
    pub(crate) from: Node,
    pub(crate) to: Node,
    /// The line on which its arrows begin.
    pub(crate) y: u64,
    /// Whether the event that sent it is drawn.
    pub(crate) drawn: bool,
    /// Whether it reached its addressee, which took it or refused it.
    pub(crate) met: bool,
}

/// The rows of all events, and the sendings of all packets.
#[derive(Drop)]
pub(crate) struct Rows {
    rows: Vec<Row>,
    departures: Vec<Departure>,
    early: Option<u64>,
    late: Option<u64>,
    next: u64,
}

impl Rows {
    /// The rows of these marks.
    pub(crate) fn of(
        alloc: Global,
        events: &[Event],
        marks: &[Mark],
        hidden: Hidden,
    ) -> Result<Rows, AllocError> {
        let mut rows = Rows {
            rows: Vec::new(alloc),
            departures: Vec::new(alloc),
            early: None,
            late: None,
            next: FIRST_ROW,
        };
        for mark in marks {
            rows.add(events, mark, hidden)?;
        }
        Ok(rows)
    }

    /// The row of an event.
    pub(crate) fn row(&self, event: u64) -> Option<Row> {
        let place = place_of(event)?;
        self.rows.as_slice().get(place).copied()
    }

    /// The sending of a packet.
    pub(crate) fn departure(&self, packet: u64) -> Option<Departure> {
        let place = place_of(packet)?;
        self.departures.as_slice().get(place).copied()
    }

    /// The sendings of all packets, in order of their numbers.
    pub(crate) fn departures(&self) -> &[Departure] {
        self.departures.as_slice()
    }

    /// The middle of the band that stands for the first events that are not drawn.
    pub(crate) fn early_band(&self) -> Option<u64> {
        self.early
    }

    /// The middle of the band that stands for later ones.
    pub(crate) fn late_band(&self) -> Option<u64> {
        self.late
    }

    /// Where the rows end.
    pub(crate) fn end(&self) -> u64 {
        on(self.next, MARGIN)
    }

    /// Adds what a mark needs.
    fn add(&mut self, events: &[Event], mark: &Mark, hidden: Hidden) -> Result<(), AllocError> {
        match *mark {
            Mark::Arrived { event, packet } => {
                self.meet(Some(packet));
                self.add_row(event, ROW_REST, hidden)
            }
            Mark::Refused { event, fault } => {
                self.meet(refused_packet(events, event, fault));
                self.add_row(event, SLIM_REST, hidden)
            }
            Mark::Sent {
                event,
                from,
                to,
                ..
            } => self.add_departure(hidden.has(event), from, to),
            _ => self.add_row(mark.event(), ROW_REST, hidden),
        }
    }

    /// Adds the row of the next event.
    fn add_row(&mut self, event: u64, rest: u64, hidden: Hidden) -> Result<(), AllocError> {
        if hidden.has(event) {
            let y = self.band_line(hidden.early.has(event));
            return Ok(
                self.rows.push(Row {
                    y,
                    bottom: y,
                    drawn: false,
                })?,
            );
        }
        let y = on(self.next, ROW_TOP);
        self.rows.push(Row {
            y,
            bottom: y,
            drawn: true,
        })?;
        self.next = on(y, rest);
        Ok(())
    }

    /// The middle of the early band or of the late one, which is put in at its first event.
    fn band_line(&mut self, early: bool) -> u64 {
        let there = if early { self.early } else { self.late };
        if let Some(y) = there {
            return y;
        }
        let y = on(self.next, on(BAND / 2, MARGIN));
        self.next = on(y, on(BAND / 2, MARGIN));
        if early {
            self.early = Some(y);
        } else {
            self.late = Some(y);
        }
        y
    }

    /// Adds the sending of the next packet, by the last event.
    fn add_departure(&mut self, hidden: bool, from: Node, to: Node) -> Result<(), AllocError> {
        let mut y = self.next;
        if let Some(row) = self.rows.as_mut_slice().last_mut() {
            if !hidden {
                row.bottom = on(row.bottom, on(LINE, 4));
                self.next = on(row.bottom, ROW_TOP);
            }
            y = row.bottom;
        }
        Ok(
            self.departures.push(Departure {
                from,
                to,
                y,
                drawn: !hidden,
                met: false,
            })?,
        )
    }

    /// Notes that a packet reached its addressee.
    fn meet(&mut self, packet: Option<u64>) {
        let Some(packet) = packet else {
            return;
        };
        let Some(place) = place_of(packet) else {
            return;
        };
        if let Some(departure) = self.departures.as_mut_slice().get_mut(place) {
            departure.met = true;
        }
    }
}

/// The event of a number, from 1.
pub(crate) fn event_of(events: &[Event], number: u64) -> Option<&Event> {
    let place = place_of(number)?;
    events.get(place)
}

/// The packet that an event was to deliver, where its addressee refused it.
pub(crate) fn refused_packet(events: &[Event], number: u64, fault: Fault) -> Option<u64> {
    match (event_of(events, number), fault) {
        (_, Fault::Refused(Refusal::NoSuchPacket)) => None,
        (Some(Event::Deliver { packet }), _) => Some(*packet),
        (Some(Event::Adjudicate { packet, .. }), _) => Some(*packet),
        _ => None,
    }
}

/// The place of a number that counts from 1.
fn place_of(number: u64) -> Option<usize> {
    let place = number.checked_sub(1)?;
    usize::try_from(place).ok()
}
