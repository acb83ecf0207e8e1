//! Which part comes next after a header: by its separator, and by the segment that it stands in.

ghost use Rattle.std.specs.Prelude.{◌≡◌, ◌<◌, ◌≤◌, true, false, length, codes};
ghost use Rattle.d0_segments.specs.Separators.{is_separator, begins_with, ends_here, plain_length};
ghost use Rattle.d0_segments.specs.Faults.{has_segment_id, has_field_id};
ghost use Rattle.message_parts.specs.declared.part.PartKind.TheVariants.{Segment, Group};
ghost use Rattle.message_parts.specs.Known.{known_field, shared_field, claim_field, order_field, ruling_field, payment_field};
ghost use Rattle.message_parts.specs.Steps.{
  begins_segment,
  begins_field,
  begins_group,
  segment_id,
  field_id,
  part_size,
  part_kind,
  within_behind,
};

use crate::names::FieldName;
use crate::part::PartKind;
use d0_segments::{FIELD_SEPARATOR, GROUP_SEPARATOR, SEGMENT_SEPARATOR};

/// Which way a transmission goes.
#[derive(Clone, Copy, PartialEq, Eq)]
pub enum Form {
    /// From a pharmacy to a payer.
    Request,
    /// From a payer to a pharmacy.
    Answer,
}

/// Where in a transmission a part stands.
#[derive(Clone, Copy)]
pub(crate) struct Within {
    /// Before all groups.
    pub(crate) shared: bool,
    /// The identification of the segment.
    pub(crate) segment: [u8; 2],
}

/// The next part: what it is, how many bytes it has, and where the part after it stands.
#[derive(Clone, Copy)]
pub(crate) struct Step {
    pub(crate) kind: PartKind,
    pub(crate) count: usize,
    pub(crate) within: Within,
}

/// The part at the front of the bytes after a header.
#[tactic(auto, unfolding(crate::specs::Steps::part_size, crate::specs::Steps::part_kind, crate::specs::Steps::within_behind))]
pub(crate) fn next_step(form: Form, within: Within, bytes: &[u8]) -> Step
    requires { 0 < length bytes.now }
    ensures kind { result.kind ≡ part_kind form within bytes.now }
    ensures count { result.count ≡ part_size bytes.now }
    ensures some { 1 ≤ result.count }
    ensures room { result.count ≤ length bytes.now }
    ensures within { result.within ≡ within_behind within bytes.now }
{
    if begins_segment(bytes) {
        return segment_step(within, bytes);
    }
    let count = 1 + plain_length(&bytes[1..]);
    if begins_field(bytes) {
        let kind = PartKind::Field(known_field(form, within, field_id(bytes)));
        return Step {
            kind,
            count,
            within,
        };
    }
    if begins_group(bytes) {
        return group_step(count);
    }
    Step {
        kind: PartKind::Stray,
        count,
        within,
    }
}

/// The head of a segment.
fn segment_step(within: Within, bytes: &[u8]) -> Step
    requires { begins_segment bytes.now ≡ true }
    ensures kind { result.kind ≡ Segment }
    ensures count { result.count ≡ 6 }
    ensures within { result.within ≡ record { shared = within.shared; segment = segment_id bytes.now } }
{
    let segment = segment_id(bytes);
    Step {
        kind: PartKind::Segment,
        count: 6,
        within: Within {
            shared: within.shared,
            segment,
        },
    }
}

/// The beginning of a transaction.
fn group_step(count: usize) -> Step
    ensures kind { result.kind ≡ Group }
    ensures count { result.count ≡ count }
    ensures within { result.within ≡ record { shared = false; segment = codes "  " } }
{
    Step {
        kind: PartKind::Group,
        count,
        within: Within {
            shared: false,
            segment: *b"  ",
        },
    }
}

/// Whether the head of a segment begins here.
fn begins_segment(bytes: &[u8]) -> bool
    ensures { result ≡ begins_segment bytes.now }
{
    match bytes {
        [first, rest @ ..] => *first == SEGMENT_SEPARATOR && has_segment_id(rest),
        [] => false,
    }
}

/// Whether the field `AM` with exactly two bytes comes next.
fn has_segment_id(bytes: &[u8]) -> bool
    ensures { result ≡ has_segment_id bytes.now }
{
    match bytes {
        [field, a, m, first, second, rest @ ..] => {
            *field == FIELD_SEPARATOR
                && *a == b'A'
                && *m == b'M'
                && !is_separator(*first)
                && !is_separator(*second)
                && is_at_end(rest)
        }
        _ => false,
    }
}

/// Whether a field begins here.
fn begins_field(bytes: &[u8]) -> bool
    ensures { result ≡ begins_field bytes.now }
{
    match bytes {
        [first, rest @ ..] => *first == FIELD_SEPARATOR && has_field_id(rest),
        [] => false,
    }
}

/// Whether two bytes that are no separators come next.
fn has_field_id(bytes: &[u8]) -> bool
    ensures { result ≡ has_field_id bytes.now }
{
    match bytes {
        [first, second, ..] => !is_separator(*first) && !is_separator(*second),
        _ => false,
    }
}

/// Whether a transaction begins here: a group separator, and a segment after it.
fn begins_group(bytes: &[u8]) -> bool
    ensures { result ≡ begins_group bytes.now }
{
    match bytes {
        [first, rest @ ..] => *first == GROUP_SEPARATOR && begins_with(rest, SEGMENT_SEPARATOR),
        [] => false,
    }
}

/// The identification after the head of a segment.
fn segment_id(bytes: &[u8]) -> [u8; 2]
    requires { 6 ≤ length bytes.now }
    ensures { result ≡ segment_id bytes.now }
{
    [bytes[4], bytes[5]]
}

/// The two bytes that name a field.
fn field_id(bytes: &[u8]) -> [u8; 2]
    requires { 3 ≤ length bytes.now }
    ensures { result ≡ field_id bytes.now }
{
    [bytes[1], bytes[2]]
}

/// Whether a byte is one of the three separators.
fn is_separator(byte: u8) -> bool
    ensures { result ≡ is_separator byte }
{
    matches!(byte, FIELD_SEPARATOR | GROUP_SEPARATOR | SEGMENT_SEPARATOR)
}

/// Whether the bytes begin with this one.
fn begins_with(bytes: &[u8], byte: u8) -> bool
    ensures { result ≡ begins_with byte bytes.now }
{
    match bytes {
        [] => false,
        [next, ..] => *next == byte,
    }
}

/// Whether nothing stands in front of the next separator or the end.
fn is_at_end(bytes: &[u8]) -> bool
    ensures { result ≡ ends_here bytes.now }
{
    match bytes {
        [] => true,
        [next, ..] => is_separator(*next),
    }
}

/// How many bytes stand before the next separator or the end.
fn plain_length(bytes: &[u8]) -> usize
    ensures length { result ≡ plain_length bytes.now }
    ensures within { result ≤ length bytes.now }
{
    let mut place = 0;
    while place < bytes.len() && !is_separator(bytes[place]) {
        place += 1;
    }
    place
}

/// The field of these two bytes in this segment, where the product knows it there.
#[tactic(auto, unfolding(crate::specs::Known::known_field))]
fn known_field(form: Form, within: Within, field: [u8; 2]) -> Option<FieldName>
    ensures { result ≡ known_field form within field }
{
    match (form, within.shared) {
        (Form::Request, true) => known_in_shared(within.segment, field),
        (Form::Request, false) => known_in_order(within.segment, field),
        (Form::Answer, false) => known_in_ruling(within.segment, field),
        (Form::Answer, true) => None,
    }
}

/// The same in the segments before all groups of a request.
fn known_in_shared(segment: [u8; 2], field: [u8; 2]) -> Option<FieldName>
    ensures { result ≡ shared_field segment field }
{
    if segment == *b"04" && field == *b"C2" {
        return Some(FieldName::Cardholder);
    }
    None
}

/// The same in a group of a request.
fn known_in_order(segment: [u8; 2], field: [u8; 2]) -> Option<FieldName>
    ensures { result ≡ order_field segment field }
{
    match segment.as_slice() {
        b"07" => known_in_claim(field),
        b"11" => match field.as_slice() {
            b"D9" => Some(FieldName::IngredientCost),
            b"DC" => Some(FieldName::DispensingFee),
            _ => None,
        },
        _ => None,
    }
}

/// The same in a claim segment.
fn known_in_claim(field: [u8; 2]) -> Option<FieldName>
    ensures { result ≡ claim_field field }
{
    match field.as_slice() {
        b"EM" => Some(FieldName::PrescriptionQualifier),
        b"D2" => Some(FieldName::Prescription),
        b"D3" => Some(FieldName::FillNumber),
        b"E1" => Some(FieldName::ProductQualifier),
        b"D7" => Some(FieldName::Product),
        b"E7" => Some(FieldName::Quantity),
        _ => None,
    }
}

/// The same in a group of an answer.
fn known_in_ruling(segment: [u8; 2], field: [u8; 2]) -> Option<FieldName>
    ensures { result ≡ ruling_field segment field }
{
    match segment.as_slice() {
        b"21" => match field.as_slice() {
            b"AN" => Some(FieldName::ResponseStatus),
            b"F3" => Some(FieldName::Authorization),
            b"FA" => Some(FieldName::RejectCount),
            b"FB" => Some(FieldName::RejectCode),
            _ => None,
        },
        b"22" => match field.as_slice() {
            b"EM" => Some(FieldName::PrescriptionQualifier),
            b"D2" => Some(FieldName::Prescription),
            _ => None,
        },
        b"23" => known_in_payment(field),
        _ => None,
    }
}

/// The same in a response pricing segment.
fn known_in_payment(field: [u8; 2]) -> Option<FieldName>
    ensures { result ≡ payment_field field }
{
    match field.as_slice() {
        b"F5" => Some(FieldName::PatientPay),
        b"F6" => Some(FieldName::CostPaid),
        b"F7" => Some(FieldName::FeePaid),
        b"F9" => Some(FieldName::TotalPaid),
        _ => None,
    }
}
