//! Names of fields: those that a book writes itself, a reject code, and where it occurs.

ghost use Rattle.std.specs.Prelude.{◌≡◌};
ghost use Rattle.std.specs.Str.{bytes_eq};
ghost use Rattle.d0_segments.specs.Views.{field_parts};
ghost use Rattle.carried_fields.specs.Occurrences.{is_code, is_occurrence};
ghost use Rattle.carried_fields.specs.Merging.{is_own};

use d0_segments::Field;

/// Whether two names are the same.
#[inline(always)]
pub fn is_same(a: [u8; 2], b: [u8; 2]) -> bool
    ensures { result ≡ bytes_eq a b }
{
    u16::from_le_bytes(a) == u16::from_le_bytes(b)
}

/// Whether a book writes the field of this name itself, in a segment of this identification.
pub fn is_own(id: [u8; 2], name: [u8; 2]) -> bool
    ensures { result ≡ is_own id name }
{
    if is_same(id, *b"21") {
        return is_same(name, *b"AN")
            || is_same(name, *b"F3")
            || is_same(name, *b"FA")
            || is_same(name, *b"FB")
            || is_same(name, *b"4F");
    }
    if is_same(id, *b"22") {
        return is_same(name, *b"EM") || is_same(name, *b"D2");
    }
    if is_same(id, *b"23") {
        return is_same(name, *b"F5")
            || is_same(name, *b"F6")
            || is_same(name, *b"F7")
            || is_same(name, *b"F9");
    }
    false
}

/// Whether a field is a reject code: 511-FB that has a value.
pub fn is_code(field: &Field<'_>) -> bool
    ensures { result ≡ is_code (field_parts field.now) }
{
    is_same(field.id(), *b"FB") && !field.value().is_empty()
}

/// Whether a field tells where a code occurs: 546-4F.
pub fn is_occurrence(field: &Field<'_>) -> bool
    ensures { result ≡ is_occurrence (field_parts field.now) }
{
    is_same(field.id(), *b"4F")
}
