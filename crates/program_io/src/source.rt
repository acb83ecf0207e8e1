//! Where a program's input comes from.

ghost use Rattle.std.specs.Prelude.{◌≡◌, ℕ, ◌+◌, ◌-◌, ◌^◌, ◌≤◌, Bool, false, List, Option, min, length, IfOk, IsTrue, OnOk, OnErr};
ghost use Rattle.std.specs.Io.KnownBytes.{ReadConsumes};

use std::io::Read;

/// A call of a source or a sink failed.
#[derive(Clone, Copy, PartialEq, Eq)]
pub struct Failed;

/// A reader that also tells proofs how often it was called and whether a call failed.
pub trait Source {
    /// The bytes still to come, where the source tells them.
    ghost remaining: { Self → Option (List ℕ) };

    /// How many calls were made; the count stops at the largest 64-bit number.
    ghost calls: { Self → ℕ };

    /// Whether a call failed.
    ghost has_failed: { Self → Bool };

    /// Puts the next bytes into the front of the buffer, and says how many; none only at the end, or for an empty buffer.
    fn read(&mut self, buffer: &mut [u8]) -> Result<usize, Failed>
        ensures within { IfOk result (λ count. count ≤ length buffer.new) }
        ensures bytes { ReadConsumes (remaining self.old) (remaining self.new) result buffer.new }
        ensures counted { calls self.new ≡ min (calls self.old + 1) (2 ^ 64 - 1) }
        ensures works { OnOk result (has_failed self.new ≡ has_failed self.old) }
        ensures fails { OnErr result (IsTrue (has_failed self.new)) };
}

/// A standard reader as a source. An interrupted call is a failed one.
#[derive(Drop)]
pub struct ReaderSource<'a, R: Read> {
    reader: &'a mut R,
    calls: u64,
    failed: bool,
}

impl<'a, R: Read> ReaderSource<'a, R> {
    /// The reader, not yet called.
    pub fn new(reader: &'a mut R) -> ReaderSource<'a, R>
        ensures reader { result.reader.now ≡ reader.old }
        ensures uncalled { result.calls ≡ 0 }
        ensures works { result.failed ≡ false }
    {
        ReaderSource {
            reader,
            calls: 0,
            failed: false,
        }
    }
}

impl<R: Read> Source for ReaderSource<'_, R> {
    ghost remaining = { λ s. R.remaining s.reader.now };

    ghost calls = { λ s. s.calls };

    ghost has_failed = { λ s. s.failed };

    fn read(&mut self, buffer: &mut [u8]) -> Result<usize, Failed> {
        self.calls = self.calls.saturating_add(1);
        match self.reader.read(buffer) {
            Ok(count) => Ok(count),
            Err(_) => {
                self.failed = true;
                Err(Failed)
            }
        }
    }
}
