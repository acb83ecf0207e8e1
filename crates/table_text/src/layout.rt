//! Rows, the line of names before them, and lists of them.

ghost use Rattle.std.specs.Prelude.{◌≡◌, ◌-◌, length, map, take, OnOk};
ghost use Rattle.table_text.specs.Adding.{Adds, AddsRow};
ghost use Rattle.table_text.specs.Seen.{field_seen};
ghost use Rattle.table_text.specs.Quoting.{csv_text};
ghost use Rattle.table_text.specs.Rows.{separated, csv_member, json_member, csv_row, json_row, head_text, list_text, behind_commas};

use crate::fields::Field;
use crate::quoting::{put_csv_text, put_json_text};
use crate::values::{put_csv_value, put_json_value};
use std::alloc::AllocError;

/// How rows are written.
#[derive(Clone, Copy, PartialEq, Eq)]
pub enum Style {
    /// A line for each row: its values with commas between them.
    Csv,
    /// An object for each row, on a line of its own, and a comma after it. `put_list` makes a list of them.
    Json,
}

/// Appends a row.
pub fn put_row(out: &mut Vec<u8>, style: Style, fields: &[Field<'_>]) -> Result<(), AllocError>
    ensures { OnOk result (AddsRow style out.old out.new (map field_seen fields.now)) }
{
    match style {
        Style::Csv => put_csv_row(out, fields),
        Style::Json => put_json_row(out, fields),
    }
}

/// Appends the line of the names of columns that stands before the rows in CSV.
#[tactic(auto, unfolding(crate::specs::Rows::head_text))]
pub fn put_head(out: &mut Vec<u8>, names: &[&[u8]]) -> Result<(), AllocError>
    ensures { OnOk result (Adds out.old out.new (head_text (map (λ name. name.now) names.now))) }
{
    put_names(out, names)?;
    out.push(b'\n')?;
    Ok(())
}

/// Appends rows that were written as JSON, as a list.
#[tactic(auto, unfolding(crate::specs::Rows::list_text))]
pub fn put_list(out: &mut Vec<u8>, rows: &[u8]) -> Result<(), AllocError>
    ensures { OnOk result (Adds out.old out.new (list_text rows.now)) }
{
    out.push(b'[')?;
    out.extend_from_slice(without_last(rows))?;
    out.extend_from_slice(b"\n]")
}

/// Bytes without the last of them.
fn without_last(bytes: &[u8]) -> &[u8]
    ensures { result.now ≡ take (length bytes.now - 1) bytes.now }
{
    &bytes[..bytes.len().saturating_sub(1)]
}

/// Appends the names of columns with commas between them.
fn put_names(out: &mut Vec<u8>, names: &[&[u8]]) -> Result<(), AllocError>
    ensures { OnOk result (Adds out.old out.new (separated csv_text (map (λ name. name.now) names.now))) }
{
    let [first, others @ ..] = names else {
        return Ok(());
    };
    put_csv_text(out, first)?;
    put_more_names(out, others)
}

/// Appends names with a comma before each.
fn put_more_names(out: &mut Vec<u8>, names: &[&[u8]]) -> Result<(), AllocError>
    ensures { OnOk result (Adds out.old out.new (behind_commas csv_text (map (λ name. name.now) names.now))) }
{
    for name in names {
        out.push(b',')?;
        put_csv_text(out, name)?;
    }
    Ok(())
}

/// Appends a row as a line of CSV.
#[tactic(auto, unfolding(crate::specs::Rows::csv_row))]
fn put_csv_row(out: &mut Vec<u8>, fields: &[Field<'_>]) -> Result<(), AllocError>
    ensures { OnOk result (Adds out.old out.new (csv_row (map field_seen fields.now))) }
{
    put_csv_fields(out, fields)?;
    out.push(b'\n')?;
    Ok(())
}

/// Appends fields with commas between them.
fn put_csv_fields(out: &mut Vec<u8>, fields: &[Field<'_>]) -> Result<(), AllocError>
    ensures { OnOk result (Adds out.old out.new (separated csv_member (map field_seen fields.now))) }
{
    let [first, others @ ..] = fields else {
        return Ok(());
    };
    put_csv_value(out, first.cell)?;
    put_more_csv(out, others)
}

/// Appends fields with a comma before each.
fn put_more_csv(out: &mut Vec<u8>, fields: &[Field<'_>]) -> Result<(), AllocError>
    ensures { OnOk result (Adds out.old out.new (behind_commas csv_member (map field_seen fields.now))) }
{
    for field in fields {
        out.push(b',')?;
        put_csv_value(out, field.cell)?;
    }
    Ok(())
}

/// Appends a row as an object of JSON.
#[tactic(auto, unfolding(crate::specs::Rows::json_row))]
fn put_json_row(out: &mut Vec<u8>, fields: &[Field<'_>]) -> Result<(), AllocError>
    ensures { OnOk result (Adds out.old out.new (json_row (map field_seen fields.now))) }
{
    out.extend_from_slice(b"\n{")?;
    put_json_fields(out, fields)?;
    out.extend_from_slice(b"},")
}

/// Appends members with commas between them.
fn put_json_fields(out: &mut Vec<u8>, fields: &[Field<'_>]) -> Result<(), AllocError>
    ensures { OnOk result (Adds out.old out.new (separated json_member (map field_seen fields.now))) }
{
    let [first, others @ ..] = fields else {
        return Ok(());
    };
    put_json_member(out, first)?;
    put_more_json(out, others)
}

/// Appends members with a comma before each.
fn put_more_json(out: &mut Vec<u8>, fields: &[Field<'_>]) -> Result<(), AllocError>
    ensures { OnOk result (Adds out.old out.new (behind_commas json_member (map field_seen fields.now))) }
{
    for field in fields {
        out.push(b',')?;
        put_json_member(out, field)?;
    }
    Ok(())
}

/// Appends a field as a member of an object of JSON.
#[tactic(auto, unfolding(crate::specs::Rows::json_member))]
fn put_json_member(out: &mut Vec<u8>, field: &Field<'_>) -> Result<(), AllocError>
    ensures { OnOk result (Adds out.old out.new (json_member (field_seen field.now))) }
{
    put_json_text(out, field.name)?;
    out.push(b':')?;
    put_json_value(out, field.cell)
}
