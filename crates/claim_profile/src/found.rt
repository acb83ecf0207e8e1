//! The values of one field, counted.

ghost use Rattle.std.specs.Prelude.{◌≡◌, [], ◌∷◌, filter, option_copied};
ghost use Rattle.d0_segments.specs.Views.{field_parts};
ghost use Rattle.claim_profile.specs.Fields.{trimmed, untrimmed, is_filled, values};
ghost use Rattle.claim_profile.specs.Tally.{seen, tallied, the_one};

use crate::names::is_same;
use d0_segments::Field;

/// What stands in the place of a field: nothing, one value or several. Empty values do not count.
#[derive(Clone, Copy)]
pub enum Found<'a> {
    Nothing,
    One(&'a [u8]),
    Several,
}

impl<'a> Found<'a> {
    /// Counts the value of a field of this name.
    #[tactic(auto, unfolding(crate::specs::Fields::values, crate::specs::Tally::tallied))]
    pub fn count(&mut self, name: &[u8; 2], field: &Field<'a>)
        ensures { seen self.new ≡ tallied (seen self.old) (values untrimmed name.now (field_parts field.now ∷ [])) }
    {
        if is_same(field.id(), *name) {
            self.add(field.value());
        }
    }

    /// Counts the value of a field of this name, a text: spaces at its end do not count.
    #[tactic(auto, unfolding(crate::specs::Fields::values, crate::specs::Tally::tallied))]
    pub fn count_text(&mut self, name: &[u8; 2], field: &Field<'a>)
        ensures { seen self.new ≡ tallied (seen self.old) (values trimmed name.now (field_parts field.now ∷ [])) }
    {
        if is_same(field.id(), *name) {
            self.add(trimmed(field.value()));
        }
    }

    /// The value, where there is exactly one.
    pub fn one(self) -> Option<&'a [u8]>
        ensures { option_copied result ≡ the_one (seen self.entry) }
    {
        match self {
            Found::One(value) => Some(value),
            Found::Nothing | Found::Several => None,
        }
    }

    /// One value more, unless it is empty.
    #[tactic(auto, unfolding(crate::specs::Tally::tallied))]
    fn add(&mut self, value: &'a [u8])
        ensures { seen self.new ≡ tallied (seen self.old) (filter is_filled (value.now ∷ [])) }
    {
        if value.is_empty() {
            return;
        }
        *self = match *self {
            Found::Nothing => Found::One(value),
            Found::One(_) | Found::Several => Found::Several,
        };
    }
}

/// The bytes without the spaces at their end.
#[tactic(auto, using(crate::proofs::Trimming::trimmed_space, crate::proofs::Trimming::trimmed_last, crate::proofs::Trimming::front_with_last))]
pub fn trimmed(bytes: &[u8]) -> &[u8]
    ensures { result.now ≡ trimmed bytes.now }
{
    let mut end = bytes.len();
    while end > 0 && bytes[end - 1] == b' ' {
        end -= 1;
    }
    &bytes[..end]
}
