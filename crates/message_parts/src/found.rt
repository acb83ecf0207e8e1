//! The values of one field of an order, wherever they stand in the segments of its identification.

ghost use Rattle.std.specs.Prelude.{◌≡◌, ◌≤◌, [], ◌∷◌, length, filter};
ghost use Rattle.d0_segments.specs.Views.{field_parts};
ghost use Rattle.d0_segments.specs.Pieces.{shared_of};
ghost use Rattle.d0_segments.specs.Inside.{fields_left};
ghost use Rattle.d0_segments.specs.Cursors.{segment_at};
ghost use Rattle.claim_profile.specs.Fields.{is_filled, texts_in, values_in};
ghost use Rattle.claim_profile.specs.Tally.{Absent, tallied};
ghost use Rattle.message_parts.specs.Found.{found_seen, reading, after_fields, after_segments};

use claim_profile::trimmed;
use d0_segments::{Cursor, Field, SegmentAt};

/// What stands in the place of a field: nothing, one value or several. Empty values do not count.
#[derive(Clone, Copy)]
pub enum Found<'a> {
    /// No value.
    Nothing,
    /// One value; a text has lost the spaces at its end.
    One(&'a [u8]),
    /// Two values or more.
    Several,
}

/// A field by the identification of its segments and its own, and whether it is a text, which loses the spaces at
/// its end.
#[derive(Clone, Copy)]
pub(crate) struct Sought {
    pub(crate) segment: [u8; 2],
    pub(crate) field: [u8; 2],
    pub(crate) is_text: bool,
}

impl<'a> Found<'a> {
    /// What stands in the place of a text.
    pub(crate) fn text(from: Cursor<'a>, segment: [u8; 2], field: [u8; 2]) -> Found<'a>
        ensures { found_seen result ≡ tallied Absent (texts_in segment field (shared_of from.entry.bytes.now)) }
    {
        let is_text = true;
        Found::of(
            from,
            Sought {
                segment,
                field,
                is_text,
            },
        )
    }

    /// What stands in the place of a field that is no text.
    pub(crate) fn value(from: Cursor<'a>, segment: [u8; 2], field: [u8; 2]) -> Found<'a>
        ensures { found_seen result ≡ tallied Absent (values_in segment field (shared_of from.entry.bytes.now)) }
    {
        let is_text = false;
        Found::of(
            from,
            Sought {
                segment,
                field,
                is_text,
            },
        )
    }

    /// What stands in the place of a field in the segments that follow up to the next group.
    #[tactic(auto, using(crate::proofs::Counting::segment_next, crate::proofs::Counting::no_segment))]
    pub(crate) fn of(from: Cursor<'a>, sought: Sought) -> Found<'a>
        ensures { found_seen result ≡ after_segments sought Absent (shared_of from.entry.bytes.now) }
    {
        let mut found = Found::Nothing;
        let mut rest = from;
        while let Some(segment) = rest.segment() {
            let (more, behind) = found.count_in(sought, segment);
            found = more;
            rest = behind;
        }
        found
    }

    /// Counts the fields of a segment, where it is one of those sought, and gives a place from which the same
    /// segments follow.
    #[tactic(auto, using(crate::proofs::Counting::segment_here, crate::proofs::Counting::segment_elsewhere))]
    fn count_in(self, sought: Sought, segment: SegmentAt<'a>) -> (Found<'a>, Cursor<'a>)
        ensures values { found_seen result.0
            ≡ after_segments sought (found_seen self.entry) (segment_at segment.entry ∷ []) }
        ensures segments { shared_of segment.entry.fields.bytes.now ≡ shared_of result.1.bytes.now }
        ensures shorter { length result.1.bytes.now ≤ length segment.entry.fields.bytes.now }
    {
        if segment.id() == sought.segment {
            return self.count_fields(sought, segment.fields());
        }
        (self, segment.fields())
    }

    /// Counts the fields that are left of a segment, and gives the place after them.
    #[tactic(auto, using(claim_profile::proofs::Counting::counted_nothing, crate::proofs::Counting::field_next))]
    fn count_fields(self, sought: Sought, inside: Cursor<'a>) -> (Found<'a>, Cursor<'a>)
        ensures values { found_seen result.0
            ≡ after_fields sought (found_seen self.entry) (fields_left inside.entry.bytes.now) }
        ensures segments { shared_of inside.entry.bytes.now ≡ shared_of result.1.bytes.now }
        ensures shorter { length result.1.bytes.now ≤ length inside.entry.bytes.now }
    {
        let mut found = self;
        let mut rest = inside;
        while let Some((field, behind)) = rest.field() {
            found = found.count(sought, field);
            rest = behind;
        }
        (found, rest)
    }

    /// Counts a field, where it is the one sought.
    #[tactic(auto, unfolding(claim_profile::specs::Fields::values, claim_profile::specs::Tally::tallied))]
    fn count(self, sought: Sought, field: Field<'a>) -> Found<'a>
        ensures { found_seen result ≡ after_fields sought (found_seen self.entry) (field_parts field.entry ∷ []) }
    {
        if field.id() != sought.field {
            return self;
        }
        self.add(read_as(sought.is_text, field.value()))
    }

    /// One value more, unless it is empty.
    #[tactic(auto, unfolding(claim_profile::specs::Tally::tallied))]
    fn add(self, value: &'a [u8]) -> Found<'a>
        ensures { found_seen result ≡ tallied (found_seen self.entry) (filter is_filled (value.now ∷ [])) }
    {
        if value.is_empty() {
            return self;
        }
        match self {
            Found::Nothing => Found::One(value),
            Found::One(_) | Found::Several => Found::Several,
        }
    }
}

/// A value as it is read: a text without the spaces at its end, any other as it stands.
fn read_as(is_text: bool, value: &[u8]) -> &[u8]
    ensures { result.now ≡ reading is_text value.now }
{
    if is_text { trimmed(value) } else { value }
}
