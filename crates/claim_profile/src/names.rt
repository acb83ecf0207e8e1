//! Names of two bytes: of fields, of segments, of codes.

ghost use Rattle.std.specs.Prelude.{◌≡◌};
ghost use Rattle.std.specs.Str.{bytes_eq};

/// Whether two names are the same. They are compared as numbers, which is one comparison in place of one for each byte.
#[inline(always)]
pub fn is_same(a: [u8; 2], b: [u8; 2]) -> bool
    ensures { result ≡ bytes_eq a b }
{
    u16::from_le_bytes(a) == u16::from_le_bytes(b)
}
