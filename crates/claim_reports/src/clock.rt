//! What clocks in UTC show.

ghost use Rattle.std.specs.Prelude.{◌≡◌, ◌*◌, ◌↔◌, pos, IsSome, IfSome, IfOk};
ghost use Rattle.std.specs.List.{flat_map};
ghost use Rattle.jiff_core.specs.DateTime.{civil_nanos};
ghost use Rattle.jiff.specs.Words.{IsTimestampNanos};
ghost use Rattle.claim_reports.specs.Digits.{part_text, time_text, day_text};

use crate::numbers::filled_text;
use jiff::Timestamp;
use jiff::civil::DateTime;
use jiff::tz::Offset;
use std::alloc::{AllocError, Global};

/// A number of a date or a time, how many digits it has, and the letter after it.
#[derive(Clone, Copy)]
struct Part {
    number: u64,
    width: usize,
    mark: u8,
}

/// What a clock in UTC shows this many milliseconds after 1970 began; nothing where that is after the last year of four digits.
pub(crate) fn shown_at(milliseconds: u64) -> Option<DateTime>
    ensures known { IsSome result ↔ IsTimestampNanos (pos (milliseconds * 1_000_000)) }
    ensures shown { IfSome result (λ shown. civil_nanos shown ≡ pos (milliseconds * 1_000_000)) }
{
    if milliseconds > i64::MAX as u64 {
        return None;
    }
    match Timestamp::from_millisecond(milliseconds as i64) {
        Ok(timestamp) => Some(Offset::UTC.to_datetime(timestamp)),
        Err(_) => None,
    }
}

/// A date and a time, `CCYY-MM-DDThh:mm:ssZ`.
#[tactic(auto, unfolding(crate::specs::Digits::time_text))]
pub(crate) fn time_text(alloc: Global, shown: DateTime) -> Result<Vec<u8>, AllocError>
    ensures { IfOk result (λ text. text.items ≡ time_text shown) }
{
    let plain = shown.to_plain();
    let parts = [
        Part::of(plain.date.year.unsigned_abs() as u64, 4, b'-'),
        Part::of(plain.date.month as u64, 2, b'-'),
        Part::of(plain.date.day as u64, 2, b'T'),
        Part::of(plain.time.hour as u64, 2, b':'),
        Part::of(plain.time.minute as u64, 2, b':'),
        Part::of(plain.time.second as u64, 2, b'Z'),
    ];
    parts_text(alloc, &parts)
}

/// The text of numbers, each with the letter after it.
fn parts_text(alloc: Global, parts: &[Part]) -> Result<Vec<u8>, AllocError>
    ensures { IfOk result (λ text. text.items ≡ flat_map part_text parts.now) }
{
    let mut text = Vec::new(alloc);
    for part in parts {
        let digits = filled_text(alloc, part.number, part.width)?;
        text.extend_from_slice(digits.as_slice())?;
        text.push(part.mark)?;
    }
    Ok(text)
}

/// The day of it, CCYYMMDD.
#[tactic(auto, unfolding(crate::specs::Digits::day_text))]
pub(crate) fn day_text(alloc: Global, shown: DateTime) -> Result<Vec<u8>, AllocError>
    ensures { IfOk result (λ text. text.items ≡ day_text shown) }
{
    let plain = shown.to_plain();
    let month = filled_text(alloc, plain.date.month as u64, 2)?;
    let day = filled_text(alloc, plain.date.day as u64, 2)?;
    let mut text = filled_text(alloc, plain.date.year.unsigned_abs() as u64, 4)?;
    text.extend_from_slice(month.as_slice())?;
    text.extend_from_slice(day.as_slice())?;
    Ok(text)
}

impl Part {
    /// A number of this many digits, and the letter after it.
    fn of(number: u64, width: usize, mark: u8) -> Part
        ensures { result ≡ record { number = number; width = width; mark = mark } }
    {
        Part {
            number,
            width,
            mark,
        }
    }
}
