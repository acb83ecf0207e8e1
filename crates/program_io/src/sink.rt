//! Where a program's output goes.

ghost use Rattle.std.specs.Prelude.{◌≡◌, ℕ, ◌<◌, ◌≤◌, Bool, true, false, List, Option, Some, length, IfOk, IsTrue, OnOk, OnErr};
ghost use Rattle.std.specs.Borrow.{GName};
ghost use Rattle.std.specs.Io.KnownBytes.{Keeps, WriteAppends};

use crate::source::Failed;
use std::io::Write;

/// A writer that also tells proofs whether a call failed, and whether it was flushed.
pub trait Sink {
    /// The bytes that it holds, where the sink tells them.
    ghost contents: { Self → Option (List ℕ) };

    /// Whether a call failed.
    ghost has_failed: { Self → Bool };

    /// Whether it was flushed since its last write.
    ghost is_flushed: { Self → Bool };

    /// The loan under which it writes, where it writes under one.
    ghost loan: { Self → Option GName };

    /// Takes bytes from the front of those that are handed in, and says how many: none only where none are handed in.
    fn write(&mut self, bytes: &[u8]) -> Result<usize, Failed>
        ensures within { IfOk result (λ count. count ≤ length bytes.now) }
        ensures some { IfOk result (λ count. 0 < length bytes.now → 0 < count) }
        ensures bytes { WriteAppends (contents self.old) (contents self.new) result bytes.now }
        ensures unflushed { is_flushed self.new ≡ false }
        ensures same_reference { loan self.new ≡ loan self.old }
        ensures works { OnOk result (has_failed self.new ≡ has_failed self.old) }
        ensures fails { OnErr result (IsTrue (has_failed self.new)) };

    /// Hands on what was taken.
    fn flush(&mut self) -> Result<(), Failed>
        ensures bytes { Keeps (contents self.old) (contents self.new) }
        ensures flushed { OnOk result (IsTrue (is_flushed self.new)) }
        ensures same_reference { loan self.new ≡ loan self.old }
        ensures works { OnOk result (has_failed self.new ≡ has_failed self.old) }
        ensures fails { OnErr result (IsTrue (has_failed self.new)) };
}

/// A standard writer as a sink. A call that takes nothing of some bytes is a failed one, and so is an interrupted call.
#[derive(Drop)]
pub struct WriterSink<'a, W: Write> {
    writer: &'a mut W,
    failed: bool,
    flushed: bool,
}

impl<'a, W: Write> WriterSink<'a, W> {
    /// The writer, not yet called.
    pub fn new(writer: &'a mut W) -> WriterSink<'a, W>
        ensures writer { result.writer.now ≡ writer.old }
        ensures same_reference { result.writer.ghost_name ≡ writer.entry.ghost_name }
        ensures works { result.failed ≡ false }
        ensures unflushed { result.flushed ≡ false }
    {
        WriterSink {
            writer,
            failed: false,
            flushed: false,
        }
    }

    /// A count of bytes that the writer took, where it took some or there were none.
    fn taken(&mut self, count: usize, nothing: bool) -> Result<usize, Failed>
        ensures ok { IfOk result (λ n. (n ≡ count) × (self.new ≡ self.old)) }
        ensures some { OnOk result (nothing ≡ false → 0 < count) }
        ensures none { OnErr result (count ≡ 0) }
        ensures failed { OnErr result (self.new ≡ record self.old { failed = true }) }
    {
        if count > 0 || nothing {
            return Ok(count);
        }
        self.failed = true;
        Err(Failed)
    }
}

impl<W: Write> Sink for WriterSink<'_, W> {
    ghost contents = { λ s. W.contents s.writer.now };

    ghost has_failed = { λ s. s.failed };

    ghost is_flushed = { λ s. s.flushed };

    ghost loan = { λ s. Some s.writer.ghost_name };

    fn write(&mut self, bytes: &[u8]) -> Result<usize, Failed> {
        self.flushed = false;
        match self.writer.write(bytes) {
            Ok(count) => self.taken(count, bytes.is_empty()),
            Err(_) => {
                self.failed = true;
                Err(Failed)
            }
        }
    }

    fn flush(&mut self) -> Result<(), Failed> {
        match self.writer.flush() {
            Ok(()) => {
                self.flushed = true;
                Ok(())
            }
            Err(_) => {
                self.failed = true;
                Err(Failed)
            }
        }
    }
}
