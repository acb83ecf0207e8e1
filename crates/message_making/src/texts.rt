//! Texts out of arrays, and into fields of fixed width.

ghost use Rattle.std.specs.Prelude.{◌≡◌, ◌+◌, ◌≤◌, ◌++◌, IfSome, length, position, take};
ghost use Rattle.message_making.specs.Texts.{is_end, padded, text_in};

/// The text of an array: up to its first zero byte.
pub(crate) fn text_in(field: &[u8]) -> &[u8]
    ensures { result.now ≡ text_in field.now }
{
    match end_of(field) {
        Some(end) => &field[..end],
        None => field,
    }
}

/// The place of the first zero byte.
fn end_of(field: &[u8]) -> Option<usize>
    ensures place { result ≡ position is_end field.now }
    ensures within { IfSome result (λ end. end ≤ length field.now) }
{
    field.iter().position(|byte| *byte == 0)
}

/// A text in a field of this width, with spaces after it.
pub(crate) fn padded<const N: usize>(text: &[u8]) -> [u8; N]
    requires { length text.now ≤ N }
    ensures { result ≡ padded N text.now }
{
    let mut field = [b' '; N];
    field[..text.len()].copy_from_slice(text);
    field
}

/// A text of just this width.
pub(crate) fn exact<const N: usize>(text: &[u8]) -> [u8; N]
    requires { length text.now ≡ N }
    ensures { result ≡ text.now }
{
    let mut field = [0; N];
    field.copy_from_slice(text);
    field
}

/// Writes a field at `place`, and answers the place after it.
pub(crate) fn put(text: &mut [u8], place: usize, field: &[u8]) -> usize
    requires { place + length field.now ≤ length text.old }
    ensures end { result ≡ place + length field.now }
    ensures front { take (place + length field.now) text.new ≡ take place text.old ++ field.now }
{
    let end = place + field.len();
    text[place..end].copy_from_slice(field);
    end
}
