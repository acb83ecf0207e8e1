//! Appending a book's fields, and behind its reject codes where they occur, as an advice tells it.

ghost use Rattle.std.specs.Prelude.{◌≡◌, List, [], ◌∷◌, ◌++◌, drop, MatchOption, IfOk, IfErr, OnOk};
ghost use Rattle.d0_segments.specs.Parts.{FieldParts};
ghost use Rattle.d0_segments.specs.Texts.{fields_text};
ghost use Rattle.d0_segments.specs.Pieces.{shared_of};
ghost use Rattle.d0_segments.specs.Inside.{fields_left};
ghost use Rattle.d0_segments.specs.Cursors.{segment_at};
ghost use Rattle.carried_fields.specs.Occurrences.{leading, behind_codes, behind_codes_in, first_occurrence, beside};

use crate::fields::put_field;
use crate::names::{is_code, is_occurrence, is_same};
use d0_segments::{Cursor, SegmentAt};
use std::alloc::AllocError;

/// Appends the fields that are left of a book's segment of this identification, and behind each code where the code in its
/// place of an advice's group occurs.
pub fn put_own_fields(
    text: &mut Vec<u8>,
    id: [u8; 2],
    from: Cursor<'_>,
    said: Cursor<'_>,
) -> Result<(), AllocError>
    ensures { OnOk result (text.new.items ≡ text.old.items
        ++ fields_text (beside (behind_codes_in id (shared_of said.entry.bytes.now)) (fields_left from.entry.bytes.now))) }
{
    let mut codes = 0;
    let mut rest = from;
    while let Some((field, behind)) = rest.field() {
        put_field(text, &field)?;
        if is_code(&field) {
            put_occurrence(text, id, codes, said)?;
            codes += 1;
        }
        rest = behind;
    }
    Ok(())
}

/// Appends where a code occurs: the one behind this many others in the segments of this identification in a group.
fn put_occurrence(
    text: &mut Vec<u8>,
    id: [u8; 2],
    others: usize,
    group: Cursor<'_>,
) -> Result<(), AllocError>
    ensures { OnOk result (text.new.items ≡ text.old.items
        ++ fields_text (first_occurrence (drop others (behind_codes_in id (shared_of group.entry.bytes.now))))) }
{
    match find_code(id, others, group) {
        Some(behind) => put_leading(text, behind),
        None => Ok(()),
    }
}

/// Appends the next field, if it tells where a code occurs.
fn put_leading(text: &mut Vec<u8>, from: Cursor<'_>) -> Result<(), AllocError>
    ensures { OnOk result (text.new.items ≡ text.old.items ++ fields_text (leading (fields_left from.entry.bytes.now))) }
{
    match from.field() {
        Some((field, _)) if is_occurrence(&field) => put_field(text, &field),
        _ => Ok(()),
    }
}

/// The place behind a code: the one behind this many others in the segments of this identification in a group.
fn find_code<'a>(id: [u8; 2], others: usize, group: Cursor<'a>) -> Option<Cursor<'a>>
    ensures { MatchOption result
        (first_occurrence (drop others (behind_codes_in id (shared_of group.entry.bytes.now))) ≡ [])
        (λ c. first_occurrence (drop others (behind_codes_in id (shared_of group.entry.bytes.now)))
        ≡ leading (fields_left c.bytes.now)) }
{
    let mut left = others;
    let mut rest = group;
    while let Some(segment) = rest.segment() {
        match find_code_of(id, left, &segment) {
            Ok(behind) => return Some(behind),
            Err(still) => left = still,
        }
        rest = segment.fields();
    }
    None
}

/// The place behind a code of a segment that has this identification, the one behind this many others, or how many others
/// are left after the segment.
fn find_code_of<'a>(
    id: [u8; 2],
    others: usize,
    segment: &SegmentAt<'a>,
) -> Result<Cursor<'a>, usize>
    ensures found { IfOk result (λ c. (later : List (List FieldParts)) →
        first_occurrence (drop others (behind_codes_in id (segment_at segment.now ∷ []) ++ later))
        ≡ leading (fields_left c.bytes.now)) }
    ensures left { IfErr result (λ n. (later : List (List FieldParts)) →
        drop others (behind_codes_in id (segment_at segment.now ∷ []) ++ later) ≡ drop n later) }
{
    if is_same(segment.id(), id) {
        return find_code_from(others, segment.fields());
    }
    Err(others)
}

/// The place behind a code of the fields that are left of a segment, the one behind this many others, or how many others
/// are left after these fields.
fn find_code_from<'a>(others: usize, from: Cursor<'a>) -> Result<Cursor<'a>, usize>
    ensures found { IfOk result (λ c. (later : List (List FieldParts)) →
        first_occurrence (drop others (behind_codes (fields_left from.entry.bytes.now) ++ later))
        ≡ leading (fields_left c.bytes.now)) }
    ensures left { IfErr result (λ n. (later : List (List FieldParts)) →
        drop others (behind_codes (fields_left from.entry.bytes.now) ++ later) ≡ drop n later) }
{
    let mut left = others;
    let mut rest = from;
    while let Some((field, behind)) = rest.field() {
        if is_code(&field) {
            if left == 0 {
                return Ok(behind);
            }
            left -= 1;
        }
        rest = behind;
    }
    Err(left)
}
