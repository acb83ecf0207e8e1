//! Going over framed bytes in place.

ghost use Rattle.std.specs.Prelude.{◌≡◌, ◌≤◌, ◌<◌, [], ◌∷◌, ◌++◌, true, length, IfSome, IfNone};
ghost use Rattle.d0_segments.specs.Separators.{begins_with, ends_segment};
ghost use Rattle.d0_segments.specs.Texts.{field_text};
ghost use Rattle.d0_segments.specs.Views.{field_parts};
ghost use Rattle.d0_segments.specs.Pieces.{shared_of};
ghost use Rattle.d0_segments.specs.Inside.{is_inside};
ghost use Rattle.memchr.specs.Find.{IsFirstByte, is_byte};

use crate::field::Field;
use crate::separator::{FIELD_SEPARATOR, GROUP_SEPARATOR, SEGMENT_SEPARATOR, begins_with, split};
use crate::tail::{behind, byte_at};
use memchr::memchr;

/// A place after the header of framed bytes: where a field, a segment or a group begins, or the end.
/// It lends the fields from there on and takes no memory.
#[derive(Clone, Copy)]
pub struct Cursor<'a> {
    bytes: &'a [u8],
    pub ghost framed: { is_inside bytes.now ≡ true },
}

/// A segment in place: its identification, and where its fields begin. The segments after it follow
/// from there too.
#[derive(Clone, Copy)]
pub struct SegmentAt<'a> {
    first: u8,
    second: u8,
    fields: Cursor<'a>,
}

impl<'a> SegmentAt<'a> {
    /// The segment identification, as `07` of the claim segment.
    #[inline(always)]
    pub fn id(&self) -> [u8; 2]
        ensures { result ≡ self.now.first ∷ self.now.second ∷ [] }
    {
        [self.first, self.second]
    }

    /// The place after the identification, where its fields begin.
    #[inline(always)]
    pub fn fields(&self) -> Cursor<'a>
        ensures { result ≡ self.now.fields }
    {
        self.fields
    }
}

impl<'a> Cursor<'a> {
    ghost use Rattle.d0_segments.specs.Cursors.{FindsField, FindsSegment, FindsGroup, segment_at};

    /// The place at which these bytes begin.
    #[inline(always)]
    pub(crate) fn at(bytes: &'a [u8]) -> Cursor<'a>
        requires { is_inside bytes.now ≡ true }
        ensures { result.bytes ≡ bytes.entry }
    {
        Cursor { bytes }
    }

    /// The next field of the segment and the place after it; None after the last one.
    #[inline(always)]
    #[tactic(auto, using(crate::proofs::Faultless::no_field, crate::proofs::Left::no_fields))]
    pub fn field(self) -> Option<(Field<'a>, Cursor<'a>)>
        ensures fields { FindsField self.entry.bytes.now result }
        // The segments after are the same from both places.
        ensures segments { IfSome result (λ x. shared_of self.entry.bytes.now ≡ shared_of x.1.bytes.now) }
        ensures shorter { IfSome result (λ x. length x.1.bytes.now < length self.entry.bytes.now) }
        ensures ends { IfNone result (ends_segment self.entry.bytes.now ≡ true) }
    {
        if begins_with(self.bytes, FIELD_SEPARATOR) {
            return Some(self.take_field());
        }
        None
    }

    /// The field that begins here, and the place after it.
    #[inline(always)]
    #[tactic(auto, using(crate::proofs::Faultless::field_start, crate::proofs::Faultless::behind_field))]
    fn take_field(self) -> (Field<'a>, Cursor<'a>)
        requires { begins_with 28 self.bytes.now ≡ true }
        ensures { self.entry.bytes.now ≡ field_text (field_parts result.0) ++ result.1.bytes.now }
    {
        let first = byte_at(self.bytes, 1);
        let second = byte_at(self.bytes, 2);
        let (value, rest) = split(behind(self.bytes, 3));
        let field = Field::of_plain([first, second], value);
        (field, Cursor::at(rest))
    }

    /// The next segment of the group; None after the last one.
    #[inline(always)]
    #[tactic(auto, using(crate::proofs::Left::no_segments))]
    pub fn segment(self) -> Option<SegmentAt<'a>>
        ensures segments { FindsSegment self.entry.bytes.now result }
        ensures shorter { IfSome result (λ s. length s.fields.bytes.now < length self.entry.bytes.now) }
    {
        let rest = self.behind_fields();
        if begins_with(rest.bytes, SEGMENT_SEPARATOR) {
            return Some(rest.take_segment());
        }
        None
    }

    /// The place after the fields that are left of a segment.
    #[inline(always)]
    fn behind_fields(self) -> Cursor<'a>
        ensures ends { ends_segment result.bytes.now ≡ true }
        ensures segments { shared_of self.entry.bytes.now ≡ shared_of result.bytes.now }
        ensures shorter { length result.bytes.now ≤ length self.entry.bytes.now }
    {
        let mut rest = self;
        while let Some((_, behind)) = rest.field() {
            rest = behind;
        }
        rest
    }

    /// The segment that begins here.
    #[inline(always)]
    #[tactic(auto, using(crate::proofs::Faultless::segment_here, crate::proofs::Faultless::behind_name, crate::proofs::Left::segments_behind_name))]
    fn take_segment(self) -> SegmentAt<'a>
        requires { begins_with 30 self.bytes.now ≡ true }
        ensures segments { shared_of self.entry.bytes.now ≡ segment_at result ∷ shared_of result.fields.bytes.now }
        ensures shorter { length result.fields.bytes.now < length self.entry.bytes.now }
    {
        let first = byte_at(self.bytes, 4);
        let second = byte_at(self.bytes, 5);
        let fields = Cursor::at(behind(self.bytes, 6));
        SegmentAt {
            first,
            second,
            fields,
        }
    }

    /// The place where the segments of the next group begin; None after the last one.
    #[tactic(auto, using(crate::proofs::Faultless::behind_group, crate::proofs::Left::groups_behind, crate::proofs::Left::no_groups))]
    pub fn group(self) -> Option<Cursor<'a>>
        ensures groups { FindsGroup self.entry.bytes.now result }
        ensures shorter { IfSome result (λ x. length x.bytes.now < length self.entry.bytes.now) }
    {
        match next_group(self.bytes) {
            Some(place) => Some(Cursor::at(behind(self.bytes, place + 1))),
            None => None,
        }
    }
}

/// The place of the next group separator. Where no segments stand in front of the first group, it is the first byte.
#[inline(always)]
#[tactic(auto, using(crate::proofs::Left::first_here))]
fn next_group(bytes: &[u8]) -> Option<usize>
    ensures { IsFirstByte (is_byte 29) bytes.now result }
{
    if begins_with(bytes, GROUP_SEPARATOR) {
        return Some(0);
    }
    memchr(GROUP_SEPARATOR, bytes)
}
