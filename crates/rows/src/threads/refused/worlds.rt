//! Days of a world, event by event and as one run.

use crate::threads::refused::day::{Day, has_nodes, lines_of, opened, opened_at_last};
use std::alloc::Global;
use world_core::World;
use world_setup::{Event, Fault};

/// A day event by event, in two worlds side by side: what was refused memory gives the same when it is made again.
pub(crate) fn in_steps(alloc: Global, day: &Day<'_>) -> bool {
    match opened_at_last(alloc, day) {
        Some(world) => beside(alloc, day, world),
        None => false,
    }
}

/// The same beside a twin.
fn beside(alloc: Global, day: &Day<'_>, mut world: World) -> bool {
    match opened_at_last(alloc, day) {
        Some(mut twin) => {
            are_same_steps(alloc, &mut world, &mut twin, &day.events)
                && has_nodes(alloc, day, &world)
        }
        None => false,
    }
}

/// Whether all events give the same in a world as in its twin.
fn are_same_steps(alloc: Global, world: &mut World, twin: &mut World, events: &[Event]) -> bool {
    for event in events {
        if !is_same_step(alloc, world, twin, event) {
            return false;
        }
    }
    true
}

/// Whether an event gives the same in a world as in its twin, which stands before it. Where memory is refused the world is
/// still like its twin, and the event is made again.
fn is_same_step(alloc: Global, world: &mut World, twin: &mut World, event: &Event) -> bool {
    let mut same = true;
    let answer = match world.step(event) {
        Err(Fault::OutOfMemory) => {
            same = are_alike(alloc, world, twin);
            world.step(event)
        }
        answer => answer,
    };
    let other = match twin.step(event) {
        Err(Fault::OutOfMemory) => twin.step(event),
        other => other,
    };
    same && answer == other
}

/// Whether two worlds tell the same of all nodes, and have sent the same packets. Memory was refused before.
fn are_alike(alloc: Global, world: &World, twin: &World) -> bool {
    match lines_of(alloc, world) {
        Some(lines) => match lines_of(alloc, twin) {
            Some(others) => lines == others && world.packets() == twin.packets(),
            None => false,
        },
        None => false,
    }
}

/// A day as one run. Where memory was refused, the world is that of the events before, and the rest is run later.
pub(crate) fn in_runs(alloc: Global, day: &Day<'_>) -> bool {
    match opened_at_last(alloc, day) {
        Some(mut world) => {
            let done = match world.run(&day.events) {
                Ok(()) => true,
                Err((place, _)) => goes_on_from(alloc, day, &mut world, place),
            };
            done && has_nodes(alloc, day, &world)
        }
        None => false,
    }
}

/// Whether a world stands before the event of a place, and the rest is run.
fn goes_on_from(alloc: Global, day: &Day<'_>, world: &mut World, place: usize) -> bool {
    match day.events.split_at_checked(place) {
        Some((front, rest)) => is_after(alloc, day, world, front) && world.run(rest).is_ok(),
        None => false,
    }
}

/// Whether a world is like that of these events.
fn is_after(alloc: Global, day: &Day<'_>, world: &World, front: &[Event]) -> bool {
    match opened(alloc, day) {
        Some(mut twin) => twin.run(front).is_ok() && are_alike(alloc, world, &twin),
        None => false,
    }
}
