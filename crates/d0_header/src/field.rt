//! The bytes of fields: cut out, put in, and tested.

ghost use Rattle.std.specs.Prelude.{◌≡◌, ◌+◌, ◌≤◌, ◌++◌, length, take, drop};
ghost use Rattle.std.specs.List.{list_all};
ghost use Rattle.d0_header.specs.Field.{is_digit, is_separator, is_plain, is_count, first_separator};

/// The `N` bytes at `place`.
pub fn field_at<const N: usize>(bytes: &[u8], place: usize) -> [u8; N]
    requires { place + N ≤ length bytes.now }
    ensures { result ≡ take N (drop place bytes.now) }
{
    let mut field = [0; N];
    field.copy_from_slice(&bytes[place..place + N]);
    field
}

/// Writes a field at `place`, and answers the place after it.
pub fn put(text: &mut [u8], place: usize, field: &[u8]) -> usize
    requires { place + length field.now ≤ length text.old }
    ensures end { result ≡ place + length field.now }
    ensures front { take (place + length field.now) text.new ≡ take place text.old ++ field.now }
{
    let end = place + field.len();
    text[place..end].copy_from_slice(field);
    end
}

/// Whether every byte is a digit.
pub fn are_digits(bytes: &[u8]) -> bool
    ensures { result ≡ list_all is_digit bytes.now }
{
    bytes.iter().all(|byte| byte.is_ascii_digit())
}

/// The place of the first separator.
#[tactic(auto, using(crate::proofs::Bytes::none_from_plain))]
pub fn separator_in(bytes: &[u8]) -> Option<usize>
    ensures { result ≡ first_separator bytes.now }
{
    if are_plain(bytes) {
        return None;
    }
    bytes.iter().position(|byte| is_separator(*byte))
}

/// Whether no separator stands there. It does not stop at the first one, so that several bytes are tested at once.
fn are_plain(bytes: &[u8]) -> bool
    ensures { result ≡ list_all is_plain bytes.now }
{
    let mut plain = true;
    for byte in bytes {
        plain &= !is_separator(*byte);
    }
    plain
}

/// Whether a byte separates fields, groups or segments.
fn is_separator(byte: u8) -> bool
    ensures { result ≡ is_separator byte }
{
    matches!(byte, 0x1c..=0x1e)
}

/// Whether a byte is a transaction count (109-A9), `1` to `4`.
pub fn is_count(byte: u8) -> bool
    ensures { result ≡ is_count byte }
{
    matches!(byte, b'1'..=b'4')
}
