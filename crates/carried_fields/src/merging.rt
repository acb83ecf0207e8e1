//! Appending the groups of a book's answer with what an advice's groups have beside them.

ghost use Rattle.std.specs.Prelude.{◌≡◌, ◌++◌, length, OnOk};
ghost use Rattle.d0_segments.specs.Texts.{segment_text, segments_text, group_text, groups_text};
ghost use Rattle.d0_segments.specs.Pieces.{shared_of, groups_of};
ghost use Rattle.d0_segments.specs.Cursors.{segment_at};
ghost use Rattle.carried_fields.specs.Agreeing.{agreed};
ghost use Rattle.carried_fields.specs.Merging.{merged_segment, merged_segments, merged, carried_group, carried_groups};

use crate::agreeing::agrees;
use crate::fields::put_further_fields;
use crate::occurrences::put_own_fields;
use crate::segments::{put_further_segments, put_name, put_segments};
use claim_profile::Ruling;
use d0_header::ResponseHeader;
use d0_segments::{Cursor, Framed, GROUP_SEPARATOR, SegmentAt};
use std::alloc::AllocError;

/// Appends the groups of a book's answer, in each place where the advice rules the same with what its group has beside it.
pub fn put_groups(
    text: &mut Vec<u8>,
    rulings: &[Ruling],
    advised: &[Ruling],
    own: &Framed<'_, ResponseHeader>,
    said: &Framed<'_, ResponseHeader>,
) -> Result<(), AllocError>
    requires rulings { length advised.now ≡ length rulings.now }
    requires own { length (groups_of own.now.body.bytes.now) ≡ length rulings.now }
    requires said { length (groups_of said.now.body.bytes.now) ≡ length rulings.now }
    ensures { OnOk result (text.new.items ≡ text.old.items ++ groups_text (carried_groups
        (agreed rulings.now advised.now) (groups_of own.now.body.bytes.now) (groups_of said.now.body.bytes.now))) }
{
    for place in 0..rulings.len() {
        let agree = agrees(&rulings[place], &advised[place]);
        put_group(text, agree, own.group(place), said.group(place))?;
    }
    Ok(())
}

/// Appends a group of a book's answer, with what the advice's group has beside it where they agree.
fn put_group(
    text: &mut Vec<u8>,
    agree: bool,
    own: Cursor<'_>,
    said: Cursor<'_>,
) -> Result<(), AllocError>
    ensures { OnOk result (text.new.items ≡ text.old.items
        ++ group_text (carried_group agree (shared_of own.entry.bytes.now) (shared_of said.entry.bytes.now))) }
{
    text.push(GROUP_SEPARATOR)?;
    if agree {
        return put_merged(text, own, said);
    }
    put_segments(text, own)
}

/// Appends the segments of a book's group with what the advice's group has beside them.
fn put_merged(text: &mut Vec<u8>, own: Cursor<'_>, said: Cursor<'_>) -> Result<(), AllocError>
    ensures { OnOk result (text.new.items ≡ text.old.items
        ++ segments_text (merged (shared_of own.entry.bytes.now) (shared_of said.entry.bytes.now))) }
{
    put_own_segments(text, own, said)?;
    put_further_segments(text, own, said)
}

/// Appends the segments of a book's group, each with the further fields of the advice's.
fn put_own_segments(text: &mut Vec<u8>, own: Cursor<'_>, said: Cursor<'_>) -> Result<(), AllocError>
    ensures { OnOk result (text.new.items ≡ text.old.items
        ++ segments_text (merged_segments (shared_of said.entry.bytes.now) (shared_of own.entry.bytes.now))) }
{
    let mut rest = own;
    while let Some(segment) = rest.segment() {
        put_merged_segment(text, &segment, said)?;
        rest = segment.fields();
    }
    Ok(())
}

/// Appends a segment of a book's group, behind each of its codes where that occurs, and after its fields the further ones of
/// the advice's segments of its identification.
fn put_merged_segment(
    text: &mut Vec<u8>,
    segment: &SegmentAt<'_>,
    said: Cursor<'_>,
) -> Result<(), AllocError>
    ensures { OnOk result (text.new.items ≡ text.old.items
        ++ segment_text (merged_segment (shared_of said.entry.bytes.now) (segment_at segment.now))) }
{
    put_name(text, segment.id())?;
    put_own_fields(text, segment.id(), segment.fields(), said)?;
    put_further_fields(text, segment.id(), said)
}
