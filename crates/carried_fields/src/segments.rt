//! Appending the segments of framed bytes.

ghost use Rattle.std.specs.Prelude.{◌≡◌, [], ◌∷◌, ◌++◌, codes, OnOk};
ghost use Rattle.d0_segments.specs.Texts.{field_text, segment_text, segments_text};
ghost use Rattle.d0_segments.specs.Pieces.{shared_of};
ghost use Rattle.d0_segments.specs.Cursors.{segment_at};
ghost use Rattle.carried_fields.specs.Merging.{has_segment, further_segments};

use crate::fields::put_fields;
use crate::names::is_same;
use d0_segments::{Cursor, FIELD_SEPARATOR, SEGMENT_SEPARATOR, SegmentAt};
use std::alloc::AllocError;

/// Appends the segments up to the next group.
pub fn put_segments(text: &mut Vec<u8>, from: Cursor<'_>) -> Result<(), AllocError>
    ensures { OnOk result (text.new.items ≡ text.old.items ++ segments_text (shared_of from.entry.bytes.now)) }
{
    let mut rest = from;
    while let Some(segment) = rest.segment() {
        put_segment(text, &segment)?;
        rest = segment.fields();
    }
    Ok(())
}

/// Appends the segments of a group whose identification none of another group's has.
pub fn put_further_segments(
    text: &mut Vec<u8>,
    own: Cursor<'_>,
    said: Cursor<'_>,
) -> Result<(), AllocError>
    ensures { OnOk result (text.new.items ≡ text.old.items
        ++ segments_text (further_segments (shared_of own.entry.bytes.now) (shared_of said.entry.bytes.now))) }
{
    let mut rest = said;
    while let Some(segment) = rest.segment() {
        put_unless_there(text, own, &segment)?;
        rest = segment.fields();
    }
    Ok(())
}

/// Appends a segment, unless a group has one of its identification.
fn put_unless_there(
    text: &mut Vec<u8>,
    own: Cursor<'_>,
    segment: &SegmentAt<'_>,
) -> Result<(), AllocError>
    ensures { OnOk result (text.new.items ≡ text.old.items
        ++ segments_text (further_segments (shared_of own.entry.bytes.now) (segment_at segment.now ∷ []))) }
{
    if has_segment(own, segment.id()) {
        return Ok(());
    }
    put_segment(text, segment)
}

/// Whether a segment of this identification is in a group.
fn has_segment(group: Cursor<'_>, id: [u8; 2]) -> bool
    ensures { result ≡ has_segment (shared_of group.entry.bytes.now) id }
{
    let mut rest = group;
    while let Some(segment) = rest.segment() {
        if is_same(segment.id(), id) {
            return true;
        }
        rest = segment.fields();
    }
    false
}

/// Appends a segment: its separator, the field `AM`, and its further fields.
fn put_segment(text: &mut Vec<u8>, segment: &SegmentAt<'_>) -> Result<(), AllocError>
    ensures { OnOk result (text.new.items ≡ text.old.items ++ segment_text (segment_at segment.now)) }
{
    put_name(text, segment.id())?;
    put_fields(text, segment.fields())
}

/// Appends a segment's separator and the field `AM`.
pub fn put_name(text: &mut Vec<u8>, id: [u8; 2]) -> Result<(), AllocError>
    ensures { OnOk result (text.new.items ≡ text.old.items ++ (30 ∷ field_text (record { id = codes "AM"; value = id }))) }
{
    text.extend_from_slice(&[SEGMENT_SEPARATOR, FIELD_SEPARATOR, b'A', b'M'])?;
    text.extend_from_slice(&id)
}
