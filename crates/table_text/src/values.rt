//! Values in each of the styles.

ghost use Rattle.std.specs.Prelude.{◌≡◌, ◌++◌, decimal, OnOk};
ghost use Rattle.input_text.specs.Printing.{printed};
ghost use Rattle.table_text.specs.Adding.{Adds};
ghost use Rattle.table_text.specs.Seen.{cell_seen};
ghost use Rattle.table_text.specs.Values.{flag_text, csv_value, json_value, json_named};

use crate::fields::Cell;
use crate::quoting::{put_csv_text, put_json_letters, put_json_text};
use input_text::{put_decimal, put_printed};
use std::alloc::AllocError;

/// Appends a value as a field of CSV.
pub fn put_csv_value(out: &mut Vec<u8>, cell: Cell<'_>) -> Result<(), AllocError>
    ensures { OnOk result (Adds out.old out.new (csv_value (cell_seen cell.entry))) }
{
    match cell {
        Cell::Number(number) => put_decimal(out, number),
        Cell::Text(bytes) => put_csv_text(out, bytes),
        Cell::Word(word) => put_csv_text(out, word),
        Cell::Named(letters, number) => put_named(out, letters, number),
        Cell::Flag(holds) => out.extend_from_slice(flag_text(holds)),
        Cell::Nothing => Ok(()),
    }
}

/// Appends a value as JSON.
pub fn put_json_value(out: &mut Vec<u8>, cell: Cell<'_>) -> Result<(), AllocError>
    ensures { OnOk result (Adds out.old out.new (json_value (cell_seen cell.entry))) }
{
    match cell {
        Cell::Number(number) => put_decimal(out, number),
        Cell::Text(bytes) => put_json_text(out, bytes),
        Cell::Word(word) => put_json_text(out, word),
        Cell::Named(letters, number) => put_json_named(out, letters, number),
        Cell::Flag(holds) => out.extend_from_slice(flag_text(holds)),
        Cell::Nothing => out.extend_from_slice(b"null"),
    }
}

/// Appends letters, and a number after them.
fn put_named(out: &mut Vec<u8>, letters: &[u8], number: u64) -> Result<(), AllocError>
    ensures { OnOk result (Adds out.old out.new (printed letters.now ++ decimal number)) }
{
    put_printed(out, letters)?;
    put_decimal(out, number)
}

/// The same as a text of JSON.
#[tactic(auto, unfolding(crate::specs::Values::json_named))]
fn put_json_named(out: &mut Vec<u8>, letters: &[u8], number: u64) -> Result<(), AllocError>
    ensures { OnOk result (Adds out.old out.new (json_named letters.now number)) }
{
    out.push(b'"')?;
    put_json_letters(out, letters)?;
    put_decimal(out, number)?;
    out.push(b'"')?;
    Ok(())
}

/// A truth as it is written in both styles.
fn flag_text(holds: bool) -> &'static [u8]
    ensures { result.now ≡ flag_text holds }
{
    if holds { b"true" } else { b"false" }
}
