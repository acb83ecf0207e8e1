//! The values of the fields that orders have, counted in framed bytes in place.

ghost use Rattle.std.specs.Prelude.{◌≡◌, ◌≤◌, ◌<◌, [], length};
ghost use Rattle.d0_segments.specs.Pieces.{shared_of, groups_of};
ghost use Rattle.d0_segments.specs.Inside.{fields_left, segment_left};
ghost use Rattle.d0_segments.specs.FramedParts.{shared_in, group_in};
ghost use Rattle.claim_profile.specs.OrderTally.{order_seen, nothing_seen, fields_counted, segments_counted, claim_counted};
ghost use Rattle.claim_profile.specs.declared.order_values.Level.TheVariants.{Shared, Group};

use crate::names::is_same;
use crate::order_values::{Level, OrderValues};
use d0_header::RequestHeader;
use d0_segments::{Cursor, Framed};

impl<'a> OrderValues<'a> {
    /// The values in the shared segments of a framed request and in those of a group.
    pub fn in_claim(framed: &Framed<'a, RequestHeader>, place: usize) -> OrderValues<'a>
        requires { place < length (groups_of framed.now.body.bytes.now) }
        ensures { order_seen result ≡ claim_counted (shared_in framed.now) (group_in framed.now place) }
    {
        let mut values = OrderValues::new();
        values.count_from(Level::Shared, framed.body());
        values.count_from(Level::Group, framed.group(place));
        values
    }

    /// The values in the segments of a group of a framed request.
    pub fn in_reversal(framed: &Framed<'a, RequestHeader>, place: usize) -> OrderValues<'a>
        requires { place < length (groups_of framed.now.body.bytes.now) }
        ensures { order_seen result ≡ segments_counted Group nothing_seen (group_in framed.now place) }
    {
        let mut values = OrderValues::new();
        values.count_from(Level::Group, framed.group(place));
        values
    }

    /// Counts the fields of the segments up to the next group.
    #[inline(always)]
    fn count_from(&mut self, level: Level, from: Cursor<'a>)
        ensures { order_seen self.new ≡ segments_counted level (order_seen self.old) (shared_of from.entry.bytes.now) }
    {
        let mut rest = from;
        while let Some(segment) = rest.segment() {
            rest = self.count_inside(level, segment.id(), segment.fields());
        }
    }

    /// Counts the fields that are left of a segment, and gives a place from which the same segments follow.
    #[inline(always)]
    fn count_inside(&mut self, level: Level, id: [u8; 2], inside: Cursor<'a>) -> Cursor<'a>
        ensures values { order_seen self.new ≡ segments_counted level (order_seen self.old)
            (segment_left id inside.entry.bytes.now) }
        ensures segments { shared_of inside.entry.bytes.now ≡ shared_of result.bytes.now }
        ensures shorter { length result.bytes.now ≤ length inside.entry.bytes.now }
    {
        match level {
            Level::Shared => self.count_in_shared(id, inside),
            Level::Group => self.count_in_group(id, inside),
        }
    }

    /// The same for a segment in front of all groups.
    #[inline(always)]
    fn count_in_shared(&mut self, id: [u8; 2], inside: Cursor<'a>) -> Cursor<'a>
        ensures values { order_seen self.new ≡ segments_counted Shared (order_seen self.old)
            (segment_left id inside.entry.bytes.now) }
        ensures segments { shared_of inside.entry.bytes.now ≡ shared_of result.bytes.now }
        ensures shorter { length result.bytes.now ≤ length inside.entry.bytes.now }
    {
        if is_same(id, *b"04") {
            return self.count_insurance_from(inside);
        }
        inside
    }

    /// The same for a segment of a group.
    #[inline(always)]
    fn count_in_group(&mut self, id: [u8; 2], inside: Cursor<'a>) -> Cursor<'a>
        ensures values { order_seen self.new ≡ segments_counted Group (order_seen self.old)
            (segment_left id inside.entry.bytes.now) }
        ensures segments { shared_of inside.entry.bytes.now ≡ shared_of result.bytes.now }
        ensures shorter { length result.bytes.now ≤ length inside.entry.bytes.now }
    {
        if is_same(id, *b"07") {
            return self.count_claim_from(inside);
        }
        if is_same(id, *b"11") {
            return self.count_pricing_from(inside);
        }
        inside
    }

    /// Counts the fields that are left of an insurance segment.
    #[inline(always)]
    fn count_insurance_from(&mut self, inside: Cursor<'a>) -> Cursor<'a>
        ensures values { order_seen self.new ≡ fields_counted (order_seen self.old)
            (fields_left inside.entry.bytes.now) [] [] }
        ensures segments { shared_of inside.entry.bytes.now ≡ shared_of result.bytes.now }
        ensures shorter { length result.bytes.now ≤ length inside.entry.bytes.now }
    {
        let mut rest = inside;
        while let Some((field, behind)) = rest.field() {
            self.count_insurance_field(&field);
            rest = behind;
        }
        rest
    }

    /// Counts the fields that are left of a claim segment.
    #[inline(always)]
    fn count_claim_from(&mut self, inside: Cursor<'a>) -> Cursor<'a>
        ensures values { order_seen self.new ≡ fields_counted (order_seen self.old) []
            (fields_left inside.entry.bytes.now) [] }
        ensures segments { shared_of inside.entry.bytes.now ≡ shared_of result.bytes.now }
        ensures shorter { length result.bytes.now ≤ length inside.entry.bytes.now }
    {
        let mut rest = inside;
        while let Some((field, behind)) = rest.field() {
            self.count_claim_field(&field);
            rest = behind;
        }
        rest
    }

    /// Counts the fields that are left of a pricing segment.
    #[inline(always)]
    fn count_pricing_from(&mut self, inside: Cursor<'a>) -> Cursor<'a>
        ensures values { order_seen self.new ≡ fields_counted (order_seen self.old) [] []
            (fields_left inside.entry.bytes.now) }
        ensures segments { shared_of inside.entry.bytes.now ≡ shared_of result.bytes.now }
        ensures shorter { length result.bytes.now ≤ length inside.entry.bytes.now }
    {
        let mut rest = inside;
        while let Some((field, behind)) = rest.field() {
            self.count_pricing_field(&field);
            rest = behind;
        }
        rest
    }
}
