//! The values of the fields that orders have.

ghost use Rattle.std.specs.Prelude.{◌≡◌, [], ◌∷◌, map};
ghost use Rattle.d0_segments.specs.Views.{field_parts, segment_parts, segments_parts};
ghost use Rattle.claim_profile.specs.declared.order_values.Level.TheVariants.{Shared, Group};

use crate::found::Found;
use d0_segments::{Field, Segment};

/// Where a segment stands: before all groups, or in the group of a transaction.
#[derive(Clone, Copy, PartialEq, Eq)]
pub enum Level {
    Shared,
    Group,
}

/// The values of the fields of an order, as far as segments were read.
#[derive(Clone, Copy)]
pub struct OrderValues<'a> {
    /// Cardholder ID (302-C2).
    pub cardholder: Found<'a>,
    /// Prescription/service reference number qualifier (455-EM).
    pub prescription_qualifier: Found<'a>,
    /// Prescription/service reference number (402-D2).
    pub prescription: Found<'a>,
    /// Fill number (403-D3).
    pub fill: Found<'a>,
    /// Product/service ID qualifier (436-E1).
    pub product_qualifier: Found<'a>,
    /// Product/service ID (407-D7).
    pub product: Found<'a>,
    /// Quantity dispensed (442-E7).
    pub quantity: Found<'a>,
    /// Ingredient cost submitted (409-D9).
    pub cost: Found<'a>,
    /// Dispensing fee submitted (412-DC).
    pub fee: Found<'a>,
}

impl<'a> OrderValues<'a> {
    ghost use Rattle.claim_profile.specs.OrderTally.{order_seen, nothing_seen, fields_counted, segments_counted, claim_counted};

    /// The values in the shared segments and in those of a group.
    pub fn of(shared: &[Segment<'a>], group: &[Segment<'a>]) -> OrderValues<'a>
        ensures { order_seen result ≡ claim_counted (segments_parts shared.now) (segments_parts group.now) }
    {
        let mut values = OrderValues::new();
        values.count_all(Level::Shared, shared);
        values.count_all(Level::Group, group);
        values
    }

    /// Before any segment was read.
    pub(crate) fn new() -> OrderValues<'a>
        ensures { order_seen result ≡ nothing_seen }
    {
        OrderValues {
            cardholder: Found::Nothing,
            prescription_qualifier: Found::Nothing,
            prescription: Found::Nothing,
            fill: Found::Nothing,
            product_qualifier: Found::Nothing,
            product: Found::Nothing,
            quantity: Found::Nothing,
            cost: Found::Nothing,
            fee: Found::Nothing,
        }
    }

    /// Counts the fields of all these segments, each in its own segment at its own level.
    fn count_all(&mut self, level: Level, segments: &[Segment<'a>])
        ensures { order_seen self.new ≡ segments_counted level (order_seen self.old) (segments_parts segments.now) }
    {
        for segment in segments {
            self.count_segment(level, segment);
        }
    }

    /// Counts the fields of a segment.
    #[tactic(auto, using(crate::proofs::OrderCounting::shared_here, crate::proofs::OrderCounting::shared_elsewhere, crate::proofs::OrderCounting::group_claim, crate::proofs::OrderCounting::group_pricing, crate::proofs::OrderCounting::group_elsewhere))]
    fn count_segment(&mut self, level: Level, segment: &Segment<'a>)
        ensures { order_seen self.new ≡ segments_counted level (order_seen self.old) (segment_parts segment.now ∷ []) }
    {
        let id = segment.id();
        match level {
            Level::Shared if id == *b"04" => self.count_insurance(segment.fields()),
            Level::Group if id == *b"07" => self.count_claim(segment.fields()),
            Level::Group if id == *b"11" => self.count_pricing(segment.fields()),
            Level::Shared | Level::Group => {}
        }
    }

    /// Counts the fields of an insurance segment (AM04).
    fn count_insurance(&mut self, fields: &[Field<'a>])
        ensures { order_seen self.new ≡ fields_counted (order_seen self.old) (map field_parts fields.now) [] [] }
    {
        for field in fields {
            self.count_insurance_field(field);
        }
    }

    /// Counts the fields of a claim segment (AM07).
    fn count_claim(&mut self, fields: &[Field<'a>])
        ensures { order_seen self.new ≡ fields_counted (order_seen self.old) [] (map field_parts fields.now) [] }
    {
        for field in fields {
            self.count_claim_field(field);
        }
    }

    /// Counts the fields of a pricing segment (AM11).
    fn count_pricing(&mut self, fields: &[Field<'a>])
        ensures { order_seen self.new ≡ fields_counted (order_seen self.old) [] [] (map field_parts fields.now) }
    {
        for field in fields {
            self.count_pricing_field(field);
        }
    }

    /// Counts a field of an insurance segment.
    #[inline(always)]
    pub(crate) fn count_insurance_field(&mut self, field: &Field<'a>)
        ensures { order_seen self.new ≡ fields_counted (order_seen self.old) (field_parts field.now ∷ []) [] [] }
    {
        self.cardholder.count_text(b"C2", field);
    }

    /// Counts a field of a claim segment.
    #[inline(always)]
    pub(crate) fn count_claim_field(&mut self, field: &Field<'a>)
        ensures { order_seen self.new ≡ fields_counted (order_seen self.old) [] (field_parts field.now ∷ []) [] }
    {
        self.prescription_qualifier.count_text(b"EM", field);
        self.prescription.count(b"D2", field);
        self.fill.count(b"D3", field);
        self.product_qualifier.count_text(b"E1", field);
        self.product.count_text(b"D7", field);
        self.quantity.count(b"E7", field);
    }

    /// Counts a field of a pricing segment.
    #[inline(always)]
    pub(crate) fn count_pricing_field(&mut self, field: &Field<'a>)
        ensures { order_seen self.new ≡ fields_counted (order_seen self.old) [] [] (field_parts field.now ∷ []) }
    {
        self.cost.count(b"D9", field);
        self.fee.count(b"DC", field);
    }
}
