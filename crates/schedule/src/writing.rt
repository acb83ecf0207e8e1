//! Events as the lines of a schedule: the inverse of reading them.

mod lines;
mod same_events;

ghost use Rattle.std.specs.Prelude.{◌≡◌, true, Ok, IfOk, IsTrue};
ghost use Rattle.std.specs.Str.Lines.{lines};
ghost use Rattle.schedule.specs.Events.{have_no_advice};
ghost use Rattle.schedule.specs.Reading.{events_of, living_events_of};

use crate::fault::{ScheduleFault, TextFault};
use crate::reading::read_living_schedule;
use crate::writing::lines::put_event;
use crate::writing::same_events::are_same;
use std::alloc::{AllocError, Global};
use world_setup::Event;

/// The lines of a schedule that spell these events, one after another. What is written is read again, and given only
/// where it is read as the same events; also by programs that do not live, if no event is an adjudication or a change of terms or of a rule of retries.
///
/// # Errors
/// `NoLine` where an event has none; `OutOfMemory`.
#[tactic(auto, using(crate::proofs::Plain::plain_lines))]
pub fn events_text(alloc: Global, events: &[Event]) -> Result<Vec<u8>, TextFault>
    ensures read { IfOk result (λ text. living_events_of (lines text.items) ≡ Ok events.now) }
    ensures plain { IfOk result (λ text. have_no_advice events.now ≡ true
        → events_of (lines text.items) ≡ Ok events.now) }
{
    let text = written(alloc, events)?;
    if is_text_of(alloc, text.as_slice(), events)? {
        Ok(text)
    } else {
        Err(TextFault::NoLine)
    }
}

/// The line of each event.
fn written(alloc: Global, events: &[Event]) -> Result<Vec<u8>, AllocError> {
    let mut text = Vec::new(alloc);
    for event in events {
        put_event(&mut text, event)?;
    }
    Ok(text)
}

/// Whether a text is read as these events.
fn is_text_of(alloc: Global, text: &[u8], events: &[Event]) -> Result<bool, AllocError>
    ensures { IfOk result (λ yes. IsTrue yes → living_events_of (lines text.now) ≡ Ok events.now) }
{
    match read_living_schedule(alloc, text) {
        Ok(read) => Ok(are_same(read.as_slice(), events)),
        Err(ScheduleFault::OutOfMemory) => Err(AllocError),
        Err(ScheduleFault::Line(_)) => Ok(false),
    }
}
