//! A field: an identifier of two bytes and a value.

ghost use Rattle.std.specs.Prelude.{◌≡◌, ◌++◌, true, IfOk, option_map};
ghost use Rattle.std.specs.Result.{result_err};
ghost use Rattle.d0_segments.specs.Separators.{is_id, is_plain, first_separator};

use crate::fault::FieldFault;
use crate::separator::separator_in;

/// A field of a segment, whose value is lent. Neither the identifier nor the value has a separator
/// in it.
#[derive(Clone, Copy)]
pub struct Field<'a> {
    id: [u8; 2],
    value: &'a [u8],
    pub ghost plain_id: { is_id id ≡ true },
    pub ghost plain_value: { is_plain value.now ≡ true },
}

impl<'a> Field<'a> {
    /// A field of these parts, where no separator stands in them.
    #[tactic(auto, using(crate::proofs::Separating::is_id_plain, crate::proofs::Separating::plain_if_none, crate::proofs::Separating::first_in_front, crate::proofs::Separating::first_behind))]
    pub fn new(id: [u8; 2], value: &'a [u8]) -> Result<Field<'a>, FieldFault>
        ensures parts { IfOk result (λ field. (field.id ≡ id) × (field.value ≡ value.entry)) }
        ensures fault { result_err result ≡ option_map FieldFault.Separator (first_separator (id ++ value.now)) }
    {
        if let Some(place) = separator_in(&id) {
            return Err(FieldFault::Separator(place));
        }
        match separator_in(value) {
            Some(place) => Err(FieldFault::Separator(2 + place)),
            None => Ok(Field { id, value }),
        }
    }

    /// A field of parts that have no separator in them.
    pub(crate) fn of_plain(id: [u8; 2], value: &'a [u8]) -> Field<'a>
        requires id { is_id id ≡ true }
        requires value { is_plain value.now ≡ true }
        ensures id { result.id ≡ id }
        ensures value { result.value ≡ value.entry }
    {
        Field { id, value }
    }

    /// The two bytes that name the field, as `C2` of 302-C2.
    pub fn id(&self) -> [u8; 2]
        ensures { result ≡ self.now.id }
    {
        self.id
    }

    /// The bytes between the identifier and the next separator.
    pub fn value(&self) -> &'a [u8]
        ensures { result ≡ self.now.value }
    {
        self.value
    }
}
