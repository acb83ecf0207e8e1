//! A segment: an identification of two bytes and the fields after it.

ghost use Rattle.std.specs.Prelude.{◌≡◌, true};
ghost use Rattle.d0_segments.specs.Separators.{is_id};

use crate::field::Field;

/// A segment of a transmission or of a group. Its identification, the value of its first field
/// (111-AM), has no separator in it.
#[derive(Drop)]
pub struct Segment<'a> {
    id: [u8; 2],
    fields: Vec<Field<'a>>,
    pub ghost plain_id: { is_id id ≡ true },
}

impl<'a> Segment<'a> {
    /// A segment of an identification without separators and of its further fields, in order.
    pub fn new(id: [u8; 2], fields: Vec<Field<'a>>) -> Segment<'a>
        requires { is_id id ≡ true }
        ensures id { result.id ≡ id }
        ensures fields { result.fields ≡ fields.entry }
    {
        Segment { id, fields }
    }

    /// The segment identification, as `07` of the claim segment.
    pub fn id(&self) -> [u8; 2]
        ensures { result ≡ self.now.id }
    {
        self.id
    }

    /// The fields after the segment identification, in order.
    pub fn fields(&self) -> &[Field<'a>]
        ensures { result.now ≡ self.now.fields.items }
    {
        &self.fields
    }
}
