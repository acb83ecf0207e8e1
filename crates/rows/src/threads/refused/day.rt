//! A day: settings, events, and the lines of the nodes after them. What is refused memory is asked again.

use schedule::{divide, read_schedule};
use std::alloc::Global;
use world_core::World;
use world_report::put_nodes;
use world_settings::read_settings;
use world_setup::{Event, WorldSettings};

/// What a day spells.
#[derive(Drop)]
pub(crate) struct Day<'a> {
    pub(crate) settings: WorldSettings,
    pub(crate) events: Vec<Event>,
    /// The lines of the report on the nodes after all events.
    nodes: &'a [u8],
}

/// The day of an input and what is written of it; none where it spells none.
pub(crate) fn day_at_last<'a>(alloc: Global, input: &[u8], outcome: &'a [u8]) -> Option<Day<'a>> {
    match day_of(alloc, input, outcome) {
        Some(day) => Some(day),
        None => day_of(alloc, input, outcome),
    }
}

/// The same; none where memory is refused as well.
fn day_of<'a>(alloc: Global, input: &[u8], outcome: &'a [u8]) -> Option<Day<'a>> {
    match divide(alloc, input) {
        Ok(division) => match read_settings(alloc, division.settings.as_slice()) {
            Ok(settings) => with_events(alloc, settings, division.schedule, outcome),
            Err(_) => None,
        },
        Err(_) => None,
    }
}

/// The day of these settings.
fn with_events<'a>(
    alloc: Global,
    settings: WorldSettings,
    schedule: &[u8],
    outcome: &'a [u8],
) -> Option<Day<'a>> {
    match read_schedule(alloc, schedule) {
        Ok(events) => {
            let nodes = behind_lines(outcome, events.len());
            Some(Day {
                settings,
                events,
                nodes,
            })
        }
        Err(_) => None,
    }
}

/// What stands after this many lines of a text.
fn behind_lines(text: &[u8], lines: usize) -> &[u8] {
    let mut count = 0usize;
    for (place, byte) in text.iter().enumerate() {
        if count == lines {
            return text.get(place..).unwrap_or(b"");
        }
        if *byte == b'\n' {
            count = count.saturating_add(1);
        }
    }
    b""
}

/// The world of a day as it opens; none where memory is refused.
pub(crate) fn opened(alloc: Global, day: &Day<'_>) -> Option<World> {
    match day.settings.copy() {
        Ok(settings) => World::new(alloc, settings).ok(),
        Err(_) => None,
    }
}

/// The same, asked again where memory was refused.
pub(crate) fn opened_at_last(alloc: Global, day: &Day<'_>) -> Option<World> {
    match opened(alloc, day) {
        Some(world) => Some(world),
        None => opened(alloc, day),
    }
}

/// The report's lines of the nodes of a world; none where memory is refused.
pub(crate) fn lines_of(alloc: Global, world: &World) -> Option<Vec<u8>> {
    let mut lines = Vec::new(alloc);
    let done = put_nodes(&mut lines, alloc, world).is_ok();
    if done { Some(lines) } else { None }
}

/// Whether a world has the nodes that a day ends with.
pub(crate) fn has_nodes(alloc: Global, day: &Day<'_>, world: &World) -> bool {
    match lines_of(alloc, world) {
        Some(lines) => lines.as_slice() == day.nodes,
        None => match lines_of(alloc, world) {
            Some(lines) => lines.as_slice() == day.nodes,
            None => false,
        },
    }
}
