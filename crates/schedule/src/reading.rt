//! The events that the lines of a schedule spell.

ghost use Rattle.std.specs.Prelude.{◌≡◌, Ok, IfOk, IfErr};
ghost use Rattle.std.specs.Str.Lines.{lines};
ghost use Rattle.schedule.specs.Reading.{RefusedFor, events_by, events_of, living_events_of};

use crate::events::line_event;
use crate::fault::ScheduleFault;
use input_text::{Lines, is_skipped};
use std::alloc::Global;
use world_setup::Event;

/// The events of the lines of a schedule, in order. Empty lines and lines that begin with `#` are skipped.
///
/// A line is `submit ph1 TEXT`, `tick ph1`, `deliver 3`, `stop sw1`, `start sw1` or `plan pr1 PRODUCT PRICE`, its words
/// parted by exactly one space. `ph`, `sw` and `pr` with 1 to 5 digits name a pharmacy, a switch and a payer; a number
/// that no node can have is read as 0, which is nobody's. TEXT is printed bytes to the end of the line, PRODUCT one or
/// more printed bytes without a space; a packet's number has 1 to 18 digits, and so has PRICE, of 32 bits, or it is
/// `none`.
///
/// # Errors
/// `Line` of the first line that spells no event, where lines that are skipped are counted; `OutOfMemory`.
pub fn read_schedule(alloc: Global, text: &[u8]) -> Result<Vec<Event>, ScheduleFault>
    ensures read { IfOk result (λ events. events_of (lines text.now) ≡ Ok events.items) }
    ensures refused { IfErr result (λ fault. RefusedFor fault (events_of (lines text.now))) }
{
    read_events(alloc, false, text)
}

/// The same for programs that live: a line may also be `adjudicate 3 ADVICE`, where ADVICE is printed bytes to the end of the
/// line, `terms pr1 FEE COPAY`, where FEE and COPAY are cents of 1 to 10 digits and of 32 bits, or
/// `retry ph1 SWITCHES AGAIN TRIES`, where SWITCHES are 1 to 4,096 names of switches joined by commas, and AGAIN and TRIES
/// are numbers of 1 to 10 digits and of 32 bits.
///
/// # Errors
/// Those of `read_schedule`.
pub fn read_living_schedule(alloc: Global, text: &[u8]) -> Result<Vec<Event>, ScheduleFault>
    ensures read { IfOk result (λ events. living_events_of (lines text.now) ≡ Ok events.items) }
    ensures refused { IfErr result (λ fault. RefusedFor fault (living_events_of (lines text.now))) }
{
    read_events(alloc, true, text)
}

/// The events of the lines of a schedule, in order, for programs that live or do not.
fn read_events(alloc: Global, living: bool, text: &[u8]) -> Result<Vec<Event>, ScheduleFault>
    ensures read { IfOk result (λ events. events_by living (lines text.now) ≡ Ok events.items) }
    ensures refused { IfErr result (λ fault. RefusedFor fault (events_by living (lines text.now))) }
{
    let mut events = Vec::new(alloc);
    for line in Lines::new(text) {
        if !is_skipped(line.text) {
            match line_event(alloc, living, line.text)? {
                Some(event) => events.push(event)?,
                None => return Err(ScheduleFault::Line(line.number as u64)),
            }
        }
    }
    Ok(events)
}
