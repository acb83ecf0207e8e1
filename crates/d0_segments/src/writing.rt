//! Writing a transmission.

ghost use Rattle.std.specs.Prelude.{◌≡◌, ◌++◌, map, IfOk, OnOk};
ghost use Rattle.d0_segments.specs.Texts.{field_text, fields_text, segment_text, segments_text, group_text, groups_text};
ghost use Rattle.d0_segments.specs.Views.{field_parts, segment_parts, segments_parts, groups_parts};
ghost use Rattle.d0_segments.specs.Transmissions.{transmission_parts};
ghost use Rattle.d0_segments.specs.Framing.{transmission_text, IsFramed};

use crate::field::Field;
use crate::header::Header;
use crate::segment::Segment;
use crate::separator::{FIELD_SEPARATOR, GROUP_SEPARATOR, SEGMENT_SEPARATOR};
use crate::transmission::Transmission;
use std::alloc::{AllocError, Global};

/// The text of a transmission: its header, its shared segments and its groups, in order.
#[tactic(auto, using(crate::proofs::Typed::segments_typed, crate::proofs::Typed::groups_length))]
pub fn write<H: Header>(
    alloc: Global,
    transmission: &Transmission<'_, H>,
) -> Result<Vec<u8>, AllocError>
    ensures text { IfOk result (λ text. text.items ≡ transmission_text H.kind (transmission_parts transmission.now)) }
    // What is written can be read again.
    ensures framed { IfOk result (λ text. IsFramed H.sound H.kind (transmission_parts transmission.now)) }
{
    let mut text = Vec::new(alloc);
    transmission.header().append_to(&mut text)?;
    put_segments(&mut text, transmission.shared())?;
    put_groups(&mut text, transmission.groups())?;
    Ok(text)
}

/// Appends groups.
fn put_groups(text: &mut Vec<u8>, groups: &[Vec<Segment<'_>>]) -> Result<(), AllocError>
    ensures { OnOk result (text.new.items ≡ text.old.items ++ groups_text (groups_parts groups.now)) }
{
    for group in groups {
        text.push(GROUP_SEPARATOR)?;
        put_segments(text, group)?;
    }
    Ok(())
}

/// Appends segments.
fn put_segments(text: &mut Vec<u8>, segments: &[Segment<'_>]) -> Result<(), AllocError>
    ensures { OnOk result (text.new.items ≡ text.old.items ++ segments_text (segments_parts segments.now)) }
{
    for segment in segments {
        put_segment(text, segment)?;
    }
    Ok(())
}

/// Appends a segment: its separator, the field `AM`, and its further fields.
fn put_segment(text: &mut Vec<u8>, segment: &Segment<'_>) -> Result<(), AllocError>
    ensures { OnOk result (text.new.items ≡ text.old.items ++ segment_text (segment_parts segment.now)) }
{
    text.extend_from_slice(&[SEGMENT_SEPARATOR, FIELD_SEPARATOR, b'A', b'M'])?;
    text.extend_from_slice(&segment.id())?;
    put_fields(text, segment.fields())
}

/// Appends fields.
fn put_fields(text: &mut Vec<u8>, fields: &[Field<'_>]) -> Result<(), AllocError>
    ensures { OnOk result (text.new.items ≡ text.old.items ++ fields_text (map field_parts fields.now)) }
{
    for field in fields {
        put_field(text, field)?;
    }
    Ok(())
}

/// Appends a field: its separator, its identifier and its value.
fn put_field(text: &mut Vec<u8>, field: &Field<'_>) -> Result<(), AllocError>
    ensures { OnOk result (text.new.items ≡ text.old.items ++ field_text (field_parts field.now)) }
{
    text.push(FIELD_SEPARATOR)?;
    text.extend_from_slice(&field.id())?;
    text.extend_from_slice(field.value())
}
