//! Appending the fields of framed bytes.

ghost use Rattle.std.specs.Prelude.{◌≡◌, [], ◌∷◌, ◌++◌, OnOk};
ghost use Rattle.d0_segments.specs.Texts.{field_text, fields_text};
ghost use Rattle.d0_segments.specs.Views.{field_parts};
ghost use Rattle.d0_segments.specs.Pieces.{shared_of};
ghost use Rattle.d0_segments.specs.Inside.{fields_left};
ghost use Rattle.d0_segments.specs.Cursors.{segment_at};
ghost use Rattle.claim_profile.specs.Fields.{fields_of};
ghost use Rattle.carried_fields.specs.Merging.{further_fields};

use crate::names::{is_own, is_same};
use d0_segments::{Cursor, FIELD_SEPARATOR, Field, SegmentAt};
use std::alloc::AllocError;

/// Appends the fields that are left of a segment.
pub fn put_fields(text: &mut Vec<u8>, from: Cursor<'_>) -> Result<(), AllocError>
    ensures { OnOk result (text.new.items ≡ text.old.items ++ fields_text (fields_left from.entry.bytes.now)) }
{
    let mut rest = from;
    while let Some((field, behind)) = rest.field() {
        put_field(text, &field)?;
        rest = behind;
    }
    Ok(())
}

/// Appends the fields that a book does not write itself, of all segments of this identification in a group.
pub fn put_further_fields(
    text: &mut Vec<u8>,
    id: [u8; 2],
    group: Cursor<'_>,
) -> Result<(), AllocError>
    ensures { OnOk result (text.new.items ≡ text.old.items
        ++ fields_text (further_fields id (fields_of id (shared_of group.entry.bytes.now)))) }
{
    let mut rest = group;
    while let Some(segment) = rest.segment() {
        put_further_of(text, id, &segment)?;
        rest = segment.fields();
    }
    Ok(())
}

/// Appends the fields of a segment that a book does not write itself, where it has this identification.
fn put_further_of(
    text: &mut Vec<u8>,
    id: [u8; 2],
    segment: &SegmentAt<'_>,
) -> Result<(), AllocError>
    ensures { OnOk result (text.new.items ≡ text.old.items
        ++ fields_text (further_fields id (fields_of id (segment_at segment.now ∷ [])))) }
{
    if is_same(segment.id(), id) {
        return put_further_from(text, id, segment.fields());
    }
    Ok(())
}

/// Appends the fields that are left of a segment of this identification, and that a book does not write itself.
fn put_further_from(text: &mut Vec<u8>, id: [u8; 2], from: Cursor<'_>) -> Result<(), AllocError>
    ensures { OnOk result (text.new.items ≡ text.old.items
        ++ fields_text (further_fields id (fields_left from.entry.bytes.now))) }
{
    let mut rest = from;
    while let Some((field, behind)) = rest.field() {
        put_unless_own(text, id, &field)?;
        rest = behind;
    }
    Ok(())
}

/// Appends a field, unless a book writes it itself.
fn put_unless_own(text: &mut Vec<u8>, id: [u8; 2], field: &Field<'_>) -> Result<(), AllocError>
    ensures { OnOk result (text.new.items ≡ text.old.items
        ++ fields_text (further_fields id (field_parts field.now ∷ []))) }
{
    if is_own(id, field.id()) {
        return Ok(());
    }
    put_field(text, field)
}

/// Appends a field: its separator, its identifier and its value.
pub fn put_field(text: &mut Vec<u8>, field: &Field<'_>) -> Result<(), AllocError>
    ensures { OnOk result (text.new.items ≡ text.old.items ++ field_text (field_parts field.now)) }
{
    text.push(FIELD_SEPARATOR)?;
    text.extend_from_slice(&field.id())?;
    text.extend_from_slice(field.value())
}
