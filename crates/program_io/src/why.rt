//! What is wrong in a schedule, or in the settings before it, that a program refused, for people.

use crate::fault::{InputFault, ProgramFault};
use input_text::Lines;
use schedule::{command_fault, divide, event_fault, living_event_fault};
use std::alloc::{AllocError, Global};
use std::fmt::Display;
use world_settings::{living_settings_fault, settings_fault};

/// What the lines of a schedule spell.
#[derive(Clone, Copy, Debug, PartialEq, Eq)]
pub enum Spelled {
    /// Events, as `replay` makes them.
    Events,
    /// Events under wide settings, whose payers may ask, as pictures show them.
    LivingEvents,
    /// Faults of links and commands, as `run` does them.
    Commands,
}

/// What is wrong in the settings or in the line that a program refused: what it is and what is wanted there. `None` for
/// the faults that the input is not the cause of.
pub fn why_refused(
    alloc: Global,
    spelled: Spelled,
    input: &[u8],
    fault: ProgramFault,
) -> Result<Option<String>, AllocError> {
    match fault {
        ProgramFault::Input(InputFault::Settings) => {
            let parts = divide(alloc, input)?;
            settings_told(alloc, spelled, parts.settings.as_slice())
        }
        ProgramFault::Input(InputFault::Line(number)) => {
            let schedule = divide(alloc, input)?.schedule;
            line_told(alloc, spelled, line_at(schedule, number))
        }
        ProgramFault::OutOfMemory | ProgramFault::Read | ProgramFault::Write => Ok(None),
    }
}

/// What is wrong in settings.
fn settings_told(
    alloc: Global,
    spelled: Spelled,
    text: &[u8],
) -> Result<Option<String>, AllocError> {
    match spelled {
        Spelled::Events | Spelled::Commands => settings_fault(alloc, text),
        Spelled::LivingEvents => living_settings_fault(alloc, text),
    }
}

/// What is wrong in a line.
fn line_told(alloc: Global, spelled: Spelled, line: &[u8]) -> Result<Option<String>, AllocError> {
    match spelled {
        Spelled::Events => told(alloc, event_fault(alloc, line)?),
        Spelled::LivingEvents => told(alloc, living_event_fault(alloc, line)?),
        Spelled::Commands => told(alloc, command_fault(alloc, line)?),
    }
}

/// The text of a fault.
fn told<F: Display + Drop>(alloc: Global, fault: Option<F>) -> Result<Option<String>, AllocError> {
    match fault {
        Some(fault) => Ok(Some(format!(in alloc; "{fault}")?)),
        None => Ok(None),
    }
}

/// The line of this number, from 1; an empty one where there is none.
pub fn line_at(text: &[u8], number: u64) -> &[u8] {
    for line in Lines::new(text) {
        if line.number as u64 == number {
            return line.text;
        }
    }
    b""
}
