//! A writer as the sink of a text.

ghost use Rattle.std.specs.Prelude.{◌≡◌, ◌++◌, ◌≤◌, [], length, is_some, IfOk, OnOk, OnErr};
ghost use Rattle.std.specs.Io.KnownBytes.{WriteAppends};
ghost use Rattle.call_notes.specs.Notes.{bytes_in};
ghost use Rattle.log_audit.specs.Outgoing.{Begins, Passes, TookSome};

use crate::outgoing::TextSink;
use call_notes::Noted;
use std::alloc::AllocError;
use std::io;
use std::io::{ErrorKind, Write};
use std::marker::Model;

/// A writer that takes the pieces of a text until one of its calls fails. What comes after that goes nowhere, and the text
/// is made to its end all the same: whether all was written is asked once, at the end.
#[derive(Drop)]
pub struct WriterSink<W: Write + Drop> {
    writer: W,
    failure: Option<io::Error>,
    handed: Noted,
    written: Noted,
}

impl<W: Write + Drop> Model for WriterSink<W> {
    ghost use Rattle.std.specs.Prelude.{◌≡◌, false, is_some};
    ghost use Rattle.call_notes.specs.Notes.{bytes_in};
    ghost use Rattle.log_audit.specs.Outgoing.{Begins, Passed};

    ghost Value = { Passed };

    ghost view = { λ s. record {
      handed = bytes_in s.handed.notes;
      written = bytes_in s.written.notes;
      contents = W.contents s.writer;
      failed = is_some s.failure;
    } };

    // What the writer took is a beginning of what was handed in, and all of it as long as no call failed.
    ghost invariant = { λ s. Begins (bytes_in s.written.notes) (bytes_in s.handed.notes)
        × (is_some s.failure ≡ false → bytes_in s.written.notes ≡ bytes_in s.handed.notes) };
}

impl<W: Write + Drop> WriterSink<W> {
    /// Over a writer that was not called yet.
    pub fn new(writer: W) -> WriterSink<W>
        ensures nothing { result.handed ≡ [] }
        ensures had { result.contents ≡ W.contents writer }
    {
        WriterSink {
            writer,
            failure: None,
            handed: Noted::new(),
            written: Noted::new(),
        }
    }

    /// Has what was written leave.
    ///
    /// # Errors
    /// That of the call that failed. What was written is then a beginning of the text.
    pub fn end(self) -> io::Result<()>
        ensures written { OnOk result (self.written ≡ self.handed) }
        ensures front { Begins self.written self.handed }
    {
        let WriterSink {
            mut writer,
            failure,
            handed: _,
            written: _,
        } = self;
        match failure {
            Some(error) => Err(error),
            None => writer.flush(),
        }
    }
}

impl<W: Write + Drop> TextSink for WriterSink<W> {
    ghost handed = { λ s. s.handed };

    fn take(&mut self, piece: &[u8]) -> Result<(), AllocError>
        ensures handed { OnOk result (self.new.handed ≡ self.old.handed ++ piece.now) }
        // The writer has then what it had, and after that the bytes of the piece that it took.
        ensures took { TookSome self.old.contents self.new.contents self.old.written self.new.written piece.now }
    {
        pass_piece(
            &mut self.writer,
            &mut self.written,
            &mut self.failure,
            piece,
        );
        self.handed.note_bytes(piece);
        Ok(())
    }
}

/// Writes a piece, where no call failed before.
#[tactic(auto, using(crate::proofs::WriterCalls::takes_none))]
fn pass_piece<W: Write>(
    writer: &mut W,
    written: &mut Noted,
    failure: &mut Option<io::Error>,
    piece: &[u8],
)
    ensures passes { Passes (is_some failure.old) (is_some failure.new)
        (bytes_in written.old.notes) (bytes_in written.new.notes) piece.now }
    // What is noted is what the writer took, and a beginning of the piece.
    ensures took { TookSome (W.contents writer.old) (W.contents writer.new)
        (bytes_in written.old.notes) (bytes_in written.new.notes) piece.now }
{
    if failure.is_some() {
        return;
    }
    *failure = write_piece(writer, written, piece).err();
}

/// Writes the bytes of a piece, in as many calls as the writer wants, and notes those that it took.
fn write_piece<W: Write>(writer: &mut W, written: &mut Noted, piece: &[u8]) -> io::Result<()>
    ensures all { OnOk result (bytes_in written.new.notes ≡ bytes_in written.old.notes ++ piece.now) }
    // What is noted is what the writer took, and a beginning of the piece.
    ensures took { TookSome (W.contents writer.old) (W.contents writer.new)
        (bytes_in written.old.notes) (bytes_in written.new.notes) piece.now }
{
    let mut left = piece;
    for _ in 0..u64::MAX {
        if left.is_empty() {
            return Ok(());
        }
        let count = write_some(writer, left)?;
        let (taken, others) = left.split_at(count);
        written.note_bytes(taken);
        left = others;
    }
    Err(io::Error::from(ErrorKind::WriteZero))
}

/// Writes some bytes, and says how many: none only where the call was interrupted.
#[tactic(auto, using(crate::proofs::WriterCalls::fails_with_none))]
fn write_some<W: Write>(writer: &mut W, bytes: &[u8]) -> io::Result<usize>
    ensures within { IfOk result (λ count. count ≤ length bytes.now) }
    ensures bytes { WriteAppends (W.contents writer.old) (W.contents writer.new) result bytes.now }
{
    match writer.write(bytes) {
        Ok(count) => some_of(count),
        Err(error) => unless_interrupted(error),
    }
}

/// A count of bytes that a writer took, where it took some.
fn some_of(count: usize) -> io::Result<usize>
    ensures some { IfOk result (λ n. n ≡ count) }
    ensures none { OnErr result (count ≡ 0) }
{
    if count > 0 {
        Ok(count)
    } else {
        Err(io::Error::from(ErrorKind::WriteZero))
    }
}

/// No bytes where a call was interrupted, else its error.
fn unless_interrupted(error: io::Error) -> io::Result<usize>
    ensures { IfOk result (λ n. n ≡ 0) }
{
    match error.kind() {
        ErrorKind::Interrupted => Ok(0),
        _ => Err(error),
    }
}
