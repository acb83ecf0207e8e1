//! What is left to read.

ghost use Rattle.std.specs.Prelude.{◌≡◌, ◌-◌, ◌≤◌, ◌<◌, length, drop, slice_index};
ghost use Rattle.d0_segments.specs.Address.{beyond};

/// The bytes that are left to read, and the place at which they end.
#[derive(Clone, Copy)]
pub struct Tail<'a> {
    pub bytes: &'a [u8],
    pub end: usize,
    ghost within: { length bytes.now ≤ end },
}

impl<'a> Tail<'a> {
    /// The place of the first byte that is left.
    pub fn place(self) -> usize
        ensures { result ≡ self.entry.end - length self.entry.bytes.now }
    {
        self.end - self.bytes.len()
    }

    /// What is left after this many bytes.
    pub fn behind(self, count: usize) -> Tail<'a>
        requires { count ≤ length self.bytes.now }
        ensures bytes { result.bytes.now ≡ drop count self.entry.bytes.now }
        ensures address { result.bytes.ref_ptr ≡ beyond self.entry.bytes.ref_ptr count }
        ensures end { result.end ≡ self.entry.end }
    {
        Tail {
            bytes: behind(self.bytes, count),
            end: self.end,
        }
    }
}

/// The byte at a place.
#[inline(always)]
pub fn byte_at(bytes: &[u8], place: usize) -> u8
    requires { place < length bytes.now }
    ensures { result ≡ slice_index bytes.now place }
{
    bytes[place]
}

/// The bytes after this many.
#[inline(always)]
pub fn behind(bytes: &[u8], count: usize) -> &[u8]
    requires { count ≤ length bytes.now }
    ensures bytes { result.now ≡ drop count bytes.now }
    ensures address { result.ref_ptr ≡ beyond bytes.entry.ref_ptr count }
{
    &bytes[count..]
}
