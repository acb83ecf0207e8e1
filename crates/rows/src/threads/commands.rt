//! Events, commands and faults of links, as the lines of schedules have them.

use input_text::put_printed;
use schedule::{Command, read_run, read_schedule};
use std::alloc::Global;
use world_setup::{Event, LinkFault};

/// The event that bytes spell as a line of a schedule; none where they spell none, or memory is refused.
pub(crate) fn event_of(alloc: Global, line: &[u8]) -> Option<Event> {
    match read_schedule(alloc, printed(alloc, line).as_slice()) {
        Ok(mut events) => events.pop(),
        Err(_) => None,
    }
}

/// The command that bytes spell as a line of a run.
pub(crate) fn command_of(alloc: Global, line: &[u8]) -> Option<Command> {
    match read_run(alloc, printed(alloc, line).as_slice()) {
        Ok(mut run) => run.commands.pop(),
        Err(_) => None,
    }
}

/// The fault of a link that bytes spell as a line of a run.
pub(crate) fn fault_of(alloc: Global, line: &[u8]) -> Option<LinkFault> {
    match read_run(alloc, line) {
        Ok(mut run) => run.faults.pop(),
        Err(_) => None,
    }
}

/// Bytes in printed form; fewer where memory is refused.
fn printed(alloc: Global, bytes: &[u8]) -> Vec<u8> {
    let mut text = Vec::new(alloc);
    let _short = put_printed(&mut text, bytes);
    text
}
