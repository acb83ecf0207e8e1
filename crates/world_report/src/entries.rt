//! The lines of entries.

ghost use Rattle.std.specs.Prelude.{◌∷◌, [], codes, decimal, map, OnOk};
ghost use Rattle.world_report.specs.Adding.{AddsLine, AddsLines};
ghost use Rattle.world_report.specs.Rulings.{ruling_words};
ghost use Rattle.world_report.specs.Places.{entry_lines, told_at, places_told, open_places};

use crate::places::{Place, put_mark};
use crate::rulings::put_ruling;
use crate::words::{end_line, put_word};
use claim_profile::Ruling;
use input_text::put_decimal;
use pharmacy_journal::EntryView;
use std::alloc::AllocError;

/// Appends the lines of an entry of a journal: one for each place of its request.
pub fn put_entry(out: &mut Vec<u8>, entry: &EntryView) -> Result<(), AllocError>
    ensures { OnOk result (AddsLines out.old out.new (entry_lines entry.now)) }
{
    let rulings = entry.rulings();
    if rulings.is_empty() {
        put_open(out, entry)
    } else {
        put_told(out, entry, rulings)
    }
}

/// Appends the lines of an entry without an answer.
fn put_open(out: &mut Vec<u8>, entry: &EntryView) -> Result<(), AllocError>
    ensures { OnOk result (AddsLines out.old out.new (places_told entry.now (open_places entry.now.count))) }
{
    let (number, code) = (entry.number(), entry.code());
    let count = u64::from(entry.count());
    for passed in 0..count {
        let place = Place {
            count,
            number: passed + 1,
            code,
        };
        put_open_place(out, number, &place)?;
    }
    Ok(())
}

/// Appends the line of a place without an answer.
fn put_open_place(out: &mut Vec<u8>, number: u64, place: &Place) -> Result<(), AllocError>
    ensures { OnOk result (AddsLine out.old out.new (told_at (decimal number) place.now (codes "open" ∷ []))) }
{
    put_decimal(out, number)?;
    put_mark(out, place.count, place.number)?;
    put_word(out, &place.code)?;
    put_word(out, b"open")?;
    end_line(out)
}

/// Appends the lines of an entry with these rulings.
fn put_told(out: &mut Vec<u8>, entry: &EntryView, rulings: &[Ruling]) -> Result<(), AllocError>
    ensures { OnOk result (AddsLines out.old out.new (places_told entry.now (map ruling_words rulings.now))) }
{
    let (number, code) = (entry.number(), entry.code());
    let count = u64::from(entry.count());
    for (passed, ruling) in rulings.iter().enumerate() {
        let place = Place {
            count,
            number: passed as u64 + 1,
            code,
        };
        put_told_place(out, number, &place, ruling)?;
    }
    Ok(())
}

/// Appends the line of a place with its ruling.
fn put_told_place(
    out: &mut Vec<u8>,
    number: u64,
    place: &Place,
    ruling: &Ruling,
) -> Result<(), AllocError>
    ensures { OnOk result (AddsLine out.old out.new (told_at (decimal number) place.now (ruling_words ruling.now))) }
{
    put_decimal(out, number)?;
    put_mark(out, place.count, place.number)?;
    put_word(out, &place.code)?;
    put_ruling(out, ruling)?;
    end_line(out)
}
