//! The values of the fields that the answer to one transaction has.

ghost use Rattle.std.specs.Prelude.{◌≡◌, ◌≤◌, [], ◌∷◌, length, Some, codes};
ghost use Rattle.d0_segments.specs.Views.{field_parts};
ghost use Rattle.d0_segments.specs.Pieces.{shared_of};
ghost use Rattle.d0_segments.specs.Inside.{fields_left, segment_left};

use crate::found::Found;
use crate::names::is_same;
use crate::reject::{Code, FewCodes, Rejects};
use d0_segments::{Cursor, Field};

/// The reject codes (511-FB) of an answer, as far as fields were read.
#[derive(Clone, Copy)]
pub struct FoundCodes {
    codes: FewCodes,
    // Every value so far is a code, and there are at most five.
    sound: bool,
}

impl FoundCodes {
    ghost use Rattle.claim_profile.specs.RulingSeen.{codes_seen, codes_more, code_more, some_codes};
    ghost use Rattle.claim_profile.specs.Ruling.{code_of};
    ghost use Rattle.claim_profile.specs.Fields.{fields_of};

    /// The codes in the segments up to the next group.
    pub fn of(group: Cursor<'_>) -> FoundCodes
        ensures { codes_seen result ≡ codes_more (Some []) (fields_of (codes "21") (shared_of group.entry.bytes.now)) }
    {
        let mut found = FoundCodes::new();
        let mut rest = group;
        while let Some(segment) = rest.segment() {
            rest = found.count_inside(segment.id(), segment.fields());
        }
        found
    }

    /// Before any field was read.
    fn new() -> FoundCodes
        ensures { codes_seen result ≡ Some [] }
    {
        FoundCodes {
            codes: FewCodes::new(),
            sound: true,
        }
    }

    /// Counts the fields that are left of a segment, and gives a place from which the same segments follow.
    fn count_inside<'a>(&mut self, id: [u8; 2], inside: Cursor<'a>) -> Cursor<'a>
        ensures values { codes_seen self.new ≡ codes_more (codes_seen self.old)
            (fields_of (codes "21") (segment_left id inside.entry.bytes.now)) }
        ensures segments { shared_of inside.entry.bytes.now ≡ shared_of result.bytes.now }
        ensures shorter { length result.bytes.now ≤ length inside.entry.bytes.now }
    {
        if is_same(id, *b"21") {
            return self.count_status_from(inside);
        }
        inside
    }

    /// Counts the fields that are left of a response status segment (AM21).
    fn count_status_from<'a>(&mut self, inside: Cursor<'a>) -> Cursor<'a>
        ensures values { codes_seen self.new ≡ codes_more (codes_seen self.old) (fields_left inside.entry.bytes.now) }
        ensures segments { shared_of inside.entry.bytes.now ≡ shared_of result.bytes.now }
        ensures shorter { length result.bytes.now ≤ length inside.entry.bytes.now }
    {
        let mut rest = inside;
        while let Some((field, behind)) = rest.field() {
            self.count(&field);
            rest = behind;
        }
        rest
    }

    /// Counts the value of a reject code field. Empty values do not count.
    #[tactic(auto, unfolding(crate::specs::Fields::values, crate::specs::RulingSeen::codes_counted))]
    fn count(&mut self, field: &Field<'_>)
        ensures { codes_seen self.new ≡ codes_more (codes_seen self.old) (field_parts field.now ∷ []) }
    {
        let value = field.value();
        if is_same(field.id(), *b"FB") && !value.is_empty() {
            self.add(value);
        }
    }

    /// One value more.
    fn add(&mut self, value: &[u8])
        ensures { codes_seen self.new ≡ code_more (codes_seen self.old) (code_of value.now) }
    {
        match Code::read(value) {
            Some(code) if self.codes.len() < 5 => self.codes.push(code),
            _ => self.sound = false,
        }
    }

    /// The codes, where there are one to five and each is known.
    pub fn all(&self) -> Option<Rejects>
        ensures { result ≡ some_codes (codes_seen self.now) }
    {
        if self.sound { self.codes.some() } else { None }
    }
}

/// The values of the fields of an answer, as far as segments were read. Its reject codes (511-FB),
/// of which there are several, stand apart.
#[derive(Clone, Copy)]
pub struct AnswerValues<'a> {
    /// Transaction response status (112-AN).
    pub status: Found<'a>,
    /// Authorization number (503-F3).
    pub authorization: Found<'a>,
    /// Reject count (510-FA).
    pub reject_count: Found<'a>,
    /// Prescription/service reference number qualifier (455-EM).
    pub prescription_qualifier: Found<'a>,
    /// Prescription/service reference number (402-D2).
    pub prescription: Found<'a>,
    /// Patient pay amount (505-F5).
    pub copay: Found<'a>,
    /// Ingredient cost paid (506-F6).
    pub cost: Found<'a>,
    /// Dispensing fee paid (507-F7).
    pub fee: Found<'a>,
    /// Total amount paid (509-F9).
    pub total: Found<'a>,
}

impl<'a> AnswerValues<'a> {
    ghost use Rattle.claim_profile.specs.AnswerTally.{answer_seen, no_answer_seen, answer_fields_counted, answer_counted};

    /// The values in the segments up to the next group.
    pub fn of(group: Cursor<'a>) -> AnswerValues<'a>
        ensures { answer_seen result ≡ answer_counted no_answer_seen (shared_of group.entry.bytes.now) }
    {
        let mut values = AnswerValues::new();
        values.count_from(group);
        values
    }

    /// Before any segment was read.
    fn new() -> AnswerValues<'a>
        ensures { answer_seen result ≡ no_answer_seen }
    {
        AnswerValues {
            status: Found::Nothing,
            authorization: Found::Nothing,
            reject_count: Found::Nothing,
            prescription_qualifier: Found::Nothing,
            prescription: Found::Nothing,
            copay: Found::Nothing,
            cost: Found::Nothing,
            fee: Found::Nothing,
            total: Found::Nothing,
        }
    }

    /// Counts the fields of the segments up to the next group, each in its own segment.
    #[inline(always)]
    #[tactic(auto, using(crate::proofs::AnswerCounting::answer_next))]
    fn count_from(&mut self, from: Cursor<'a>)
        ensures { answer_seen self.new ≡ answer_counted (answer_seen self.old) (shared_of from.entry.bytes.now) }
    {
        let mut rest = from;
        while let Some(segment) = rest.segment() {
            rest = self.count_inside(segment.id(), segment.fields());
        }
    }

    /// Counts the fields that are left of a segment, and gives a place from which the same segments follow.
    #[inline(always)]
    fn count_inside(&mut self, id: [u8; 2], inside: Cursor<'a>) -> Cursor<'a>
        ensures values { answer_seen self.new ≡ answer_counted (answer_seen self.old)
            (segment_left id inside.entry.bytes.now) }
        ensures segments { shared_of inside.entry.bytes.now ≡ shared_of result.bytes.now }
        ensures shorter { length result.bytes.now ≤ length inside.entry.bytes.now }
    {
        if is_same(id, *b"21") {
            return self.count_status_from(inside);
        }
        if is_same(id, *b"22") {
            return self.count_claim_from(inside);
        }
        if is_same(id, *b"23") {
            return self.count_pricing_from(inside);
        }
        inside
    }

    /// Counts the fields that are left of a response status segment (AM21).
    #[inline(always)]
    fn count_status_from(&mut self, inside: Cursor<'a>) -> Cursor<'a>
        ensures values { answer_seen self.new ≡ answer_fields_counted (answer_seen self.old)
            (fields_left inside.entry.bytes.now) [] [] }
        ensures segments { shared_of inside.entry.bytes.now ≡ shared_of result.bytes.now }
        ensures shorter { length result.bytes.now ≤ length inside.entry.bytes.now }
    {
        let mut rest = inside;
        while let Some((field, behind)) = rest.field() {
            self.status.count(b"AN", &field);
            self.authorization.count(b"F3", &field);
            self.reject_count.count(b"FA", &field);
            rest = behind;
        }
        rest
    }

    /// Counts the fields that are left of a response claim segment (AM22).
    #[inline(always)]
    fn count_claim_from(&mut self, inside: Cursor<'a>) -> Cursor<'a>
        ensures values { answer_seen self.new ≡ answer_fields_counted (answer_seen self.old) []
            (fields_left inside.entry.bytes.now) [] }
        ensures segments { shared_of inside.entry.bytes.now ≡ shared_of result.bytes.now }
        ensures shorter { length result.bytes.now ≤ length inside.entry.bytes.now }
    {
        let mut rest = inside;
        while let Some((field, behind)) = rest.field() {
            self.prescription_qualifier.count_text(b"EM", &field);
            self.prescription.count(b"D2", &field);
            rest = behind;
        }
        rest
    }

    /// Counts the fields that are left of a response pricing segment (AM23).
    #[inline(always)]
    fn count_pricing_from(&mut self, inside: Cursor<'a>) -> Cursor<'a>
        ensures values { answer_seen self.new ≡ answer_fields_counted (answer_seen self.old) [] []
            (fields_left inside.entry.bytes.now) }
        ensures segments { shared_of inside.entry.bytes.now ≡ shared_of result.bytes.now }
        ensures shorter { length result.bytes.now ≤ length inside.entry.bytes.now }
    {
        let mut rest = inside;
        while let Some((field, behind)) = rest.field() {
            self.copay.count(b"F5", &field);
            self.cost.count(b"F6", &field);
            self.fee.count(b"F7", &field);
            self.total.count(b"F9", &field);
            rest = behind;
        }
        rest
    }
}
