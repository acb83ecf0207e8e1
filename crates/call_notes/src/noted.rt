//! A list of notes that clauses alone read: it has no bytes in memory.

ghost use Rattle.std.specs.Prelude.{◌≡◌, List, [], ◌∷◌, ◌++◌, is_ok};
ghost use Rattle.std.specs.Borrow.{ftrue};
ghost use Rattle.call_notes.specs.Notes.{Note, answered, bytes_in};

use std::io;
use std::marker::{Model, PhantomData};

/// What was asked of a system so far, the newest first: of each call some numbers, and bytes.
#[derive(Drop)]
pub struct Noted {
    marker: PhantomData<u8>,
    pub ghost notes: { List Note },
}

impl Model for Noted {
    ghost also_owns = { λ _. ftrue };
}

impl Noted {
    /// Nothing yet.
    pub fn new() -> Noted
        ensures { result.notes ≡ [] }
    {
        Noted {
            marker: PhantomData,
        }
    }

    /// Notes one more call: its numbers, as its kind, 1 where it was done, and a size; and its bytes.
    pub fn note(&mut self, _numbers: &[u64], _bytes: &[u8])
        ensures { self.new.notes ≡ (_numbers.now, _bytes.now) ∷ self.old.notes }
    {}

    /// Notes one more call by its bytes alone.
    pub fn note_bytes(&mut self, bytes: &[u8])
        ensures { bytes_in self.new.notes ≡ bytes_in self.old.notes ++ bytes.now }
    {
        self.note(&[], bytes);
    }

    /// Notes one more call, and hands on what it answered.
    pub fn answered(
        &mut self,
        kind: u64,
        size: u64,
        bytes: &[u8],
        answer: io::Result<()>,
    ) -> io::Result<()>
        ensures noted { self.new.notes ≡ answered kind (is_ok answer) size bytes.now ∷ self.old.notes }
        ensures same { result ≡ answer }
    {
        self.note(&[kind, u64::from(answer.is_ok()), size], bytes);
        answer
    }
}
