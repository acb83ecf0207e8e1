//! A legal run as the input of a replay.

ghost use Rattle.std.specs.Prelude.{◌≡◌, ◌++◌, true, Ok, map, IsTrue, IfOk};
ghost use Rattle.std.specs.List.{list_any};
ghost use Rattle.std.specs.Str.Lines.{lines};
ghost use Rattle.schedule.specs.Division.{ends_in_newline};
ghost use Rattle.schedule.specs.Events.{have_no_advice};
ghost use Rattle.schedule.specs.Reading.{events_of, living_events_of};
ghost use Rattle.world_setup.specs.Seen.{event_seen};
ghost use Rattle.log_audit.specs.Telling.{divider, is_return, whole, IsDivided, IsSchedule, KeepsSettings};

use crate::fault::AuditFault;
use schedule::{TextFault, divide, events_text};
use std::alloc::{AllocError, Global};
use world_setup::Event;

/// The input of a replay of these events: the settings, a line `---`, and a line for each event. It is divided again, and
/// given only where the lines after the settings are its schedule, and the settings before them are these.
///
/// # Errors
/// `NoLine` where there is no such text; `OutOfMemory`.
pub(crate) fn scheduled(
    alloc: Global,
    settings: &[u8],
    events: &[Event],
) -> Result<Vec<u8>, AuditFault>
    ensures { IfOk result (λ text. IsSchedule settings.now (map event_seen events.now) text.items) }
{
    let written = lines_of(alloc, events)?;
    let text = joined(alloc, settings, written.as_slice())?;
    if is_divided(alloc, text.as_slice(), settings, written.as_slice())? {
        Ok(text)
    } else {
        Err(AuditFault::NoLine)
    }
}

/// A line for each event.
fn lines_of(alloc: Global, events: &[Event]) -> Result<Vec<u8>, AuditFault>
    ensures read { IfOk result (λ text. living_events_of (lines text.items) ≡ Ok events.now) }
    ensures plain { IfOk result (λ text. have_no_advice events.now ≡ true
        → events_of (lines text.items) ≡ Ok events.now) }
{
    match events_text(alloc, events) {
        Ok(text) => Ok(text),
        Err(TextFault::OutOfMemory) => Err(AuditFault::OutOfMemory),
        Err(TextFault::NoLine) => Err(AuditFault::NoLine),
    }
}

/// Settings, a line that divides, and lines.
fn joined(alloc: Global, settings: &[u8], written: &[u8]) -> Result<Vec<u8>, AllocError>
    ensures { IfOk result (λ text. text.items ≡ settings.now ++ (divider settings.now ++ written.now)) }
{
    let mut text = Vec::new(alloc);
    text.extend_from_slice(settings)?;
    text.extend_from_slice(divider(settings))?;
    text.extend_from_slice(written)?;
    Ok(text)
}

/// The line that divides, after settings that may lack their last newline.
fn divider(settings: &[u8]) -> &'static [u8]
    ensures { result.now ≡ divider settings.now }
{
    if ends_in_newline(settings) {
        b"---\n"
    } else {
        b"\n---\n"
    }
}

/// Whether the last byte is a newline.
fn ends_in_newline(text: &[u8]) -> bool
    ensures { result ≡ ends_in_newline text.now }
{
    text.last() == Some(&b'\n')
}

/// Whether an input is divided so that these lines are its schedule, and its settings are kept.
fn is_divided(
    alloc: Global,
    text: &[u8],
    settings: &[u8],
    written: &[u8],
) -> Result<bool, AllocError>
    ensures { IfOk result (λ yes. IsTrue yes → IsDivided text.now settings.now written.now) }
{
    let parts = divide(alloc, text)?;
    let kept = is_kept(alloc, parts.settings.as_slice(), settings)?;
    Ok(kept && parts.schedule == written)
}

/// Whether settings are kept after a division: they are the same bytes, with a newline after the last line. Those with
/// carriage returns are not compared, since a division drops the ones that end lines.
fn is_kept(alloc: Global, divided: &[u8], settings: &[u8]) -> Result<bool, AllocError>
    ensures { IfOk result (λ yes. IsTrue yes → KeepsSettings divided.now settings.now) }
{
    if has_return(settings) {
        return Ok(true);
    }
    let whole = whole(alloc, settings)?;
    Ok(divided == whole.as_slice())
}

/// Whether a carriage return is among bytes.
fn has_return(text: &[u8]) -> bool
    ensures { result ≡ list_any is_return text.now }
{
    text.iter().any(|byte| *byte == b'\r')
}

/// Settings with a newline after their last line.
fn whole(alloc: Global, settings: &[u8]) -> Result<Vec<u8>, AllocError>
    ensures { IfOk result (λ text. text.items ≡ whole settings.now) }
{
    let mut text = Vec::new(alloc);
    text.extend_from_slice(settings)?;
    if !ends_in_newline(settings) {
        text.push(b'\n')?;
    }
    Ok(text)
}
