//! Reading a transmission from left to right.

ghost use Rattle.std.specs.Prelude.{◌≡◌, ◌<◌, ◌-◌, [], ◌∷◌, true, map, IfOk, IfErr, Some, IsTrue, ◌↔◌};
ghost use Rattle.d0_segments.specs.Separators.{is_id, ends_here, ends_segment, ends_group, begins_with};
ghost use Rattle.d0_segments.specs.Parts.{TransmissionParts, is_group, are_groups};
ghost use Rattle.d0_segments.specs.Texts.{field_text, fields_text, segment_text, segments_text, group_text, groups_text, body_text};
ghost use Rattle.d0_segments.specs.Views.{field_parts, segment_parts, segments_parts, groups_parts};
ghost use Rattle.d0_segments.specs.Transmissions.{transmission_parts, LiesAt, IsReadAs};
ghost use Rattle.d0_segments.specs.Faults.{Fails};
ghost use Rattle.d0_segments.specs.Address.{beyond};
ghost use Rattle.d0_segments.specs.Lending.{FieldsLie, SegmentsLie, GroupsLie, BodyLies};
ghost use Rattle.d0_segments.specs.Framing.{request_kind, response_kind, transmission_text, transmission_of, framing_fault, IsFramed, IsRequestFramed, IsResponseFramed, SpellsRequest, SpellsResponse};
ghost use Rattle.d0_header.specs.Request.{Request};
ghost use Rattle.d0_header.specs.Response.{Response};
ghost use Rattle.d0_segments.specs.Taking.{Takes, IsIdentified, fault_in, fault_behind_header};

use crate::fault::FramingFault;
use crate::field::Field;
use crate::header::Header;
use crate::laws::{request_laws, response_laws};
use crate::segment::Segment;
use crate::separator::{
    FIELD_SEPARATOR, GROUP_SEPARATOR, SEGMENT_SEPARATOR, is_at_end, is_separator, split,
};
use crate::tail::Tail;
use crate::transmission::Transmission;
use d0_header::{RequestHeader, ResponseHeader};
use std::alloc::Global;

/// Reads the request that all of the bytes spell. Its fields are slices of these bytes.
pub fn read_request(
    alloc: Global,
    bytes: &[u8],
) -> Result<Transmission<'_, RequestHeader>, FramingFault>
    // What is read is well formed, and the bytes are its text.
    ensures found { IfOk result (λ t. SpellsRequest bytes.now (transmission_parts t)) }
    // Whatever well-formed transmission the bytes are the text of is read, unless memory runs out.
    ensures only { (t : TransmissionParts Request) → IsRequestFramed t → bytes.now ≡ transmission_text request_kind t
        → IsReadAs result t }
    // The same as one function of the bytes, which gives none where they have a fault.
    ensures parts { IfOk result (λ t. transmission_of request_kind bytes.now ≡ Some (transmission_parts t)) }
    // Which fault it is: the first one, unless memory ran out.
    ensures fault { IfErr result (λ e. Fails e (framing_fault request_kind bytes.now)) }
    // Each field is a slice of these very bytes, where it stands in them.
    ensures lent { IfOk result (λ t. LiesAt (beyond bytes.entry.ref_ptr 56) t) }
{
    request_laws();
    read(alloc, bytes)
}

/// Reads the response that all of the bytes spell. Its fields are slices of these bytes.
pub fn read_response(
    alloc: Global,
    bytes: &[u8],
) -> Result<Transmission<'_, ResponseHeader>, FramingFault>
    // What is read is well formed, and the bytes are its text.
    ensures found { IfOk result (λ t. SpellsResponse bytes.now (transmission_parts t)) }
    // Whatever well-formed transmission the bytes are the text of is read, unless memory runs out.
    ensures only { (t : TransmissionParts Response) → IsResponseFramed t → bytes.now ≡ transmission_text response_kind t
        → IsReadAs result t }
    // The same as one function of the bytes, which gives none where they have a fault.
    ensures parts { IfOk result (λ t. transmission_of response_kind bytes.now ≡ Some (transmission_parts t)) }
    // Which fault it is: the first one, unless memory ran out.
    ensures fault { IfErr result (λ e. Fails e (framing_fault response_kind bytes.now)) }
    // Each field is a slice of these very bytes, where it stands in them.
    ensures lent { IfOk result (λ t. LiesAt (beyond bytes.entry.ref_ptr 31) t) }
{
    response_laws();
    read(alloc, bytes)
}

/// What stands after a header: the shared segments and the groups.
type Body<'a> = (Vec<Segment<'a>>, Vec<Vec<Segment<'a>>>);

/// Reads the transmission that all of the bytes spell.
#[tactic(auto, using(crate::proofs::Typed::segments_typed, crate::proofs::Typed::groups_length, crate::proofs::Whole::header_fails, crate::proofs::Whole::IsRead, crate::proofs::Whole::differs, crate::proofs::Whole::mismatched, crate::proofs::Whole::spelled))]
fn read<H: Header>(alloc: Global, bytes: &[u8]) -> Result<Transmission<'_, H>, FramingFault>
    ensures text { IfOk result (λ t. bytes.now ≡ transmission_text H.kind (transmission_parts t)) }
    ensures framed { IfOk result (λ t. IsFramed H.sound H.kind (transmission_parts t)) }
    ensures parts { IfOk result (λ t. transmission_of H.kind bytes.now ≡ Some (transmission_parts t)) }
    ensures fault { IfErr result (λ e. Fails e (framing_fault H.kind bytes.now)) }
    ensures lent { IfOk result (λ t. LiesAt (beyond bytes.entry.ref_ptr H.kind.size) t) }
{
    let (header, body) = match H::split_front(bytes) {
        Ok(front) => front,
        Err(fault) => return Err(FramingFault::Header(fault)),
    };
    let end = bytes.len();
    let (shared, groups) = read_body(alloc, Tail { bytes: body, end })?;
    let said = header.announced();
    let found = groups.len();
    if found != said as usize {
        return Err(FramingFault::CountMismatch { said, found });
    }
    Ok(Transmission::new(header, shared, groups))
}

/// Reads what stands after the header: the shared segments and the groups.
#[tactic(auto, using(std::proofs::lemmas::Result::err_from_is_err_and, crate::proofs::Walking::ends_segment_of, crate::proofs::Taken::behind_header, crate::proofs::Taken::segments_carry, crate::proofs::Taken::fails_along))]
fn read_body<'a>(alloc: Global, from: Tail<'a>) -> Result<Body<'a>, FramingFault>
    ensures parts { IfOk result
        (λ x. from.entry.bytes.now ≡ body_text (segments_parts x.0.items) (groups_parts x.1.items)) }
    ensures groups { IfOk result (λ x. are_groups (groups_parts x.1.items) ≡ true) }
    ensures lent { IfOk result (λ x. BodyLies from.entry.bytes.ref_ptr x.0.items x.1.items) }
    ensures fault { IfErr result (λ e. Fails e (fault_behind_header from.entry)) }
{
    expect_start(from)?;
    let (shared, rest) = read_segments(alloc, from)?;
    let groups = read_groups(alloc, rest)?;
    Ok((shared, groups))
}

/// Refuses a byte that starts neither a segment nor a group.
#[inline(always)]
pub(crate) fn expect_start(rest: Tail<'_>) -> Result<(), FramingFault>
    ensures ends { IfOk result (λ x. ends_segment rest.entry.bytes.now ≡ true) }
    ensures fault { IfErr result (λ e. fault_behind_header rest.entry ≡ Some e) }
{
    match rest.bytes {
        [first, ..] if *first != SEGMENT_SEPARATOR && *first != GROUP_SEPARATOR => {
            Err(FramingFault::NoSegmentStart(rest.place()))
        }
        _ => Ok(()),
    }
}

/// Reads groups up to the end.
#[tactic(auto, using(std::proofs::lemmas::Result::err_from_is_err_and, crate::proofs::Taken::groups_carry, crate::proofs::Taken::fails_along))]
fn read_groups<'a>(alloc: Global, from: Tail<'a>) -> Result<Vec<Vec<Segment<'a>>>, FramingFault>
    requires { ends_group from.bytes.now ≡ true }
    ensures parts { IfOk result (λ gs. from.entry.bytes.now ≡ groups_text (groups_parts gs.items)) }
    ensures groups { IfOk result (λ gs. are_groups (groups_parts gs.items) ≡ true) }
    ensures lent { IfOk result (λ gs. GroupsLie from.entry.bytes.ref_ptr gs.items) }
    ensures fault { IfErr result (λ e. Fails e (fault_in from.entry)) }
{
    let mut groups = Vec::new(alloc);
    let mut rest = from;
    while let [GROUP_SEPARATOR, ..] = rest.bytes {
        let (segments, behind) = read_group(alloc, rest)?;
        groups.push(segments)?;
        rest = behind;
    }
    Ok(groups)
}

/// Reads a group: its separator and its segments.
fn read_group<'a>(
    alloc: Global,
    from: Tail<'a>,
) -> Result<(Vec<Segment<'a>>, Tail<'a>), FramingFault>
    requires { begins_with 29 from.bytes.now ≡ true }
    ensures taken { IfOk result (λ x. Takes from.entry (group_text (segments_parts x.0.items)) x.1) }
    ensures group { IfOk result (λ x. is_group (segments_parts x.0.items) ≡ true) }
    ensures ends { IfOk result (λ x. ends_group x.1.bytes.now ≡ true) }
    ensures lent { IfOk result (λ x. SegmentsLie (beyond from.entry.bytes.ref_ptr 1) x.0.items) }
    ensures fault { IfErr result (λ e. Fails e (fault_in from.entry)) }
{
    let inside = enter_group(from)?;
    read_segments(alloc, inside)
}

/// Passes a group separator with a segment after it.
#[inline(always)]
pub(crate) fn enter_group<'a>(from: Tail<'a>) -> Result<Tail<'a>, FramingFault>
    requires { begins_with 29 from.bytes.now ≡ true }
    ensures taken { IfOk result (λ x. Takes from.entry (29 ∷ []) x) }
    ensures segment { IfOk result (λ x. begins_with 30 x.bytes.now ≡ true) }
    ensures fault { IfErr result (λ e. fault_in from.entry ≡ Some e) }
{
    match from.bytes {
        [_, SEGMENT_SEPARATOR, ..] => Ok(from.behind(1)),
        [_] | [_, GROUP_SEPARATOR, ..] => Err(FramingFault::EmptyGroup(from.place())),
        _ => Err(FramingFault::NoSegmentStart(from.place() + 1)),
    }
}

/// Reads segments as long as segment separators follow.
#[tactic(auto, using(std::proofs::lemmas::Result::err_from_is_err_and, crate::proofs::Taken::segments_carry, crate::proofs::Taken::fails_along))]
fn read_segments<'a>(
    alloc: Global,
    from: Tail<'a>,
) -> Result<(Vec<Segment<'a>>, Tail<'a>), FramingFault>
    requires { ends_segment from.bytes.now ≡ true }
    ensures taken { IfOk result (λ x. Takes from.entry (segments_text (segments_parts x.0.items)) x.1) }
    ensures ends { IfOk result (λ x. ends_group x.1.bytes.now ≡ true) }
    ensures lent { IfOk result (λ x. SegmentsLie from.entry.bytes.ref_ptr x.0.items) }
    ensures fault { IfErr result (λ e. Fails e (fault_in from.entry)) }
{
    let mut segments = Vec::new(alloc);
    let mut rest = from;
    while let [SEGMENT_SEPARATOR, ..] = rest.bytes {
        let (segment, behind) = read_segment(alloc, rest)?;
        segments.push(segment)?;
        rest = behind;
    }
    Ok((segments, rest))
}

/// Reads a segment: its separator, the field `AM` of exactly two bytes, and further fields.
#[tactic(auto, using(std::proofs::lemmas::Result::err_from_is_err_and, crate::proofs::Taken::entered_segment, crate::proofs::Taken::fails_along))]
fn read_segment<'a>(alloc: Global, from: Tail<'a>) -> Result<(Segment<'a>, Tail<'a>), FramingFault>
    requires { begins_with 30 from.bytes.now ≡ true }
    ensures taken { IfOk result (λ x. Takes from.entry (segment_text (segment_parts x.0)) x.1) }
    ensures ends { IfOk result (λ x. ends_segment x.1.bytes.now ≡ true) }
    ensures lent { IfOk result (λ x. FieldsLie (beyond from.entry.bytes.ref_ptr 6) x.0.fields.items) }
    ensures fault { IfErr result (λ e. Fails e (fault_in from.entry)) }
{
    let (first, second, inside) = enter_segment(from)?;
    let (fields, rest) = read_fields(alloc, inside)?;
    Ok((Segment::new([first, second], fields), rest))
}

/// Passes a segment separator and the field `AM` after it, whose two bytes it answers.
#[inline(always)]
#[tactic(auto, using(crate::proofs::Taken::named, crate::proofs::Taken::unnamed))]
pub(crate) fn enter_segment<'a>(from: Tail<'a>) -> Result<(u8, u8, Tail<'a>), FramingFault>
    requires { begins_with 30 from.bytes.now ≡ true }
    ensures taken { IfOk result (λ x. Takes from.entry (30 ∷ 28 ∷ 65 ∷ 77 ∷ x.0 ∷ x.1 ∷ []) x.2) }
    ensures id { IfOk result (λ x. is_id (x.0 ∷ x.1 ∷ []) ≡ true) }
    ensures ends { IfOk result (λ x. ends_here x.2.bytes.now ≡ true) }
    ensures fault { IfErr result (λ e. fault_in from.entry ≡ Some e) }
{
    if !is_identified(from.bytes) {
        return Err(FramingFault::NoSegmentId(from.place()));
    }
    Ok((from.bytes[4], from.bytes[5], from.behind(6)))
}

/// Whether the field `AM` with exactly two bytes stands after the first byte.
#[inline(always)]
fn is_identified(bytes: &[u8]) -> bool
    ensures { IsTrue result ↔ IsIdentified bytes.now }
{
    bytes.len() >= 6
        && bytes[1] == FIELD_SEPARATOR
        && bytes[2] == b'A'
        && bytes[3] == b'M'
        && !is_separator(bytes[4])
        && !is_separator(bytes[5])
        && is_at_end(&bytes[6..])
}

/// Room for as many fields as the segments of a billing have, so that their list seldom grows.
const FIELDS: usize = 8;

/// Reads fields as long as field separators follow.
#[tactic(auto, using(std::proofs::lemmas::Result::err_from_is_err_and, crate::proofs::Taken::fields_carry, crate::proofs::Taken::fails_of))]
fn read_fields<'a>(
    alloc: Global,
    from: Tail<'a>,
) -> Result<(Vec<Field<'a>>, Tail<'a>), FramingFault>
    requires { ends_here from.bytes.now ≡ true }
    ensures taken { IfOk result (λ x. Takes from.entry (fields_text (map field_parts x.0.items)) x.1) }
    ensures ends { IfOk result (λ x. ends_segment x.1.bytes.now ≡ true) }
    ensures lent { IfOk result (λ x. FieldsLie from.entry.bytes.ref_ptr x.0.items) }
    ensures fault { IfErr result (λ e. Fails e (fault_in from.entry)) }
{
    let mut fields = Vec::with_capacity(alloc, FIELDS)?;
    let mut rest = from;
    while let [FIELD_SEPARATOR, ..] = rest.bytes {
        let (field, behind) = read_field(rest)?;
        fields.push(field)?;
        rest = behind;
    }
    Ok((fields, rest))
}

/// Reads a field: its separator, two bytes of identifier, and the value up to the next separator.
#[inline(always)]
pub(crate) fn read_field<'a>(from: Tail<'a>) -> Result<(Field<'a>, Tail<'a>), FramingFault>
    requires { begins_with 28 from.bytes.now ≡ true }
    ensures taken { IfOk result (λ x. Takes from.entry (field_text (field_parts x.0)) x.1) }
    ensures ends { IfOk result (λ x. ends_here x.1.bytes.now ≡ true) }
    ensures lent { IfOk result (λ x. x.0.value.ref_ptr ≡ beyond from.entry.bytes.ref_ptr 3) }
    ensures fault { IfErr result (λ e. fault_in from.entry ≡ Some e) }
{
    let (plain, behind) = split(&from.bytes[1..]);
    match plain {
        [first, second, value @ ..] => {
            let field = Field::of_plain([*first, *second], value);
            Ok((
                field,
                Tail {
                    bytes: behind,
                    end: from.end,
                },
            ))
        }
        _ => Err(FramingFault::BadFieldId(from.place())),
    }
}
