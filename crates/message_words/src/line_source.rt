//! The lines of an input, one at a time.

ghost use Rattle.std.specs.Prelude.{◌≡◌, ◌<◌, ◌≤◌, ◌+◌, ◌++◌, ℕ, [], length, take, drop, true, false, IfErr, IfOk, IsTrue, OnErr, OnOk, IfSome, if◌then◌else◌};
ghost use Rattle.std.specs.Io.KnownBytes.{Consumes, IsAtEnd, Keeps, ReadConsumes, prepend_known};
ghost use Rattle.message_words.specs.Spelled.{ends_with};
ghost use Rattle.message_words.specs.InputLines.{AccountsFor, AreAll, IsNextLine, LongFor, has_newline, left_in, line_length, longest, unread, without_return};

use std::alloc::{AllocError, Global};
use std::io::Read;

/// The most bytes of a line, and of an input that is one message (own): 16 MiB.
pub const LONGEST_LINE: usize = 16_777_216;

/// How many bytes are asked for in a call.
const CHUNK: usize = 65_536;

/// Why no further line was read.
#[derive(Clone, Copy, PartialEq, Eq)]
pub enum InputFault {
    /// Memory was refused.
    OutOfMemory,
    /// A read failed.
    Read,
    /// A line, or an input that is one message, has more than 16,777,216 bytes.
    TooLong,
}

/// A call of a source failed.
#[derive(Clone, Copy, PartialEq, Eq)]
pub struct ReadFailed;

/// A reader that also tells proofs whether a call of it failed.
pub trait ByteSource {
    ghost use Rattle.std.specs.Prelude.{ℕ, Bool, List, Option};

    /// The bytes still to come, where the source tells them.
    ghost remaining: { Self → Option (List ℕ) };

    /// Whether a call failed.
    ghost has_failed: { Self → Bool };

    /// Puts the next bytes into the front of the buffer, and says how many; none only at the end, or for an empty buffer.
    fn read(&mut self, buffer: &mut [u8]) -> Result<usize, ReadFailed>
        ensures within { IfOk result (λ count. count ≤ length buffer.new) }
        ensures bytes { ReadConsumes (remaining self.old) (remaining self.new) result buffer.new }
        ensures works { OnOk result (has_failed self.new ≡ has_failed self.old) }
        ensures fails { OnErr result (IsTrue (has_failed self.new)) };
}

/// A standard reader as a source. An interrupted call is a failed one.
#[derive(Drop)]
pub struct ReaderBytes<R: Read + Drop> {
    reader: R,
    failed: bool,
}

impl<R: Read + Drop> ReaderBytes<R> {
    /// The reader, not yet called.
    pub fn new(reader: R) -> ReaderBytes<R>
        ensures reader { result.reader ≡ reader }
        ensures works { result.failed ≡ false }
    {
        ReaderBytes {
            reader,
            failed: false,
        }
    }
}

impl<R: Read + Drop> ByteSource for ReaderBytes<R> {
    ghost remaining = { λ s. R.remaining s.reader };

    ghost has_failed = { λ s. s.failed };

    fn read(&mut self, buffer: &mut [u8]) -> Result<usize, ReadFailed> {
        match self.reader.read(buffer) {
            Ok(count) => Ok(count),
            Err(_) => {
                self.failed = true;
                Err(ReadFailed)
            }
        }
    }
}

/// An input that gives its lines one after another, and keeps no more than one.
#[derive(Drop)]
pub struct LineSource<R: ByteSource + Drop> {
    reader: R,
    unread: Unread,
    line: Vec<u8>,
}

/// What was read and not yet taken: the bytes from one place on, up to another.
#[derive(Drop)]
struct Unread {
    bytes: Vec<u8>,
    from: usize,
    to: usize,
}

impl From<AllocError> for InputFault {
    ghost use Rattle.std.specs.Prelude.{◌≡◌};
    ghost use Rattle.message_words.specs.declared.line_source.InputFault.TheVariants.{OutOfMemory};

    ghost from_gives = { λ _ fault. fault ≡ OutOfMemory };

    fn from(_refused: AllocError) -> InputFault {
        InputFault::OutOfMemory
    }
}

impl Unread {
    /// The bytes.
    #[tactic(auto, using(crate::proofs::InputLines::stretch_is))]
    fn as_slice(&self) -> &[u8]
        ensures { result.now ≡ unread self.now }
    {
        let end = self.to.min(self.bytes.len());
        let from = self.from.min(end);
        &self.bytes.as_slice()[from..end]
    }

    /// Leaves out the first ones, this many.
    fn pass(&mut self, count: usize)
        requires { count ≤ length (unread self.old) }
        ensures { unread self.new ≡ drop count (unread self.old) }
    {
        self.from = self.from.saturating_add(count);
    }

    /// Reads others in their place, and says whether there were any.
    fn refill<R: ByteSource>(&mut self, reader: &mut R) -> Result<bool, InputFault>
        ensures read { OnOk result (Consumes (R.remaining reader.old) (R.remaining reader.new) (unread self.new)) }
        ensures end { IfOk result (λ some. some ≡ false → IsAtEnd (R.remaining reader.new)) }
        ensures none { IfOk result (λ some. some ≡ false → unread self.new ≡ []) }
        ensures fault { IfErr result (λ e. (n : ℕ) → LongFor e n) }
        ensures kept { OnErr result (Keeps (R.remaining reader.old) (R.remaining reader.new)) }
        ensures still { OnErr result (unread self.new ≡ []) }
        ensures some { IfOk result (λ some. some ≡ true → 0 < length (unread self.new)) }
        ensures account { AccountsFor result (R.has_failed reader.old) (R.has_failed reader.new) }
    {
        self.from = 0;
        self.to = 0;
        self.make_room()?;
        let count = match reader.read(self.bytes.as_mut_slice()) {
            Ok(count) => count,
            Err(_) => return Err(InputFault::Read),
        };
        self.to = count;
        Ok(count > 0)
    }

    /// Makes room for the bytes of a call, where there is none.
    fn make_room(&mut self) -> Result<(), AllocError>
        ensures room { OnOk result (0 < length self.new.bytes.items) }
        ensures from { self.new.from ≡ self.old.from }
        ensures to { self.new.to ≡ self.old.to }
    {
        if !self.bytes.is_empty() {
            return Ok(());
        }
        self.bytes.resize(CHUNK, 0)
    }
}

impl<R: ByteSource + Drop> LineSource<R> {
    /// An input of which nothing was read.
    pub fn new(alloc: Global, reader: R) -> LineSource<R>
        ensures reader { result.reader ≡ reader }
        ensures left { left_in (R.remaining result.reader) result.unread ≡ prepend_known [] (R.remaining reader) }
        ensures line { result.line.items ≡ [] }
    {
        LineSource {
            reader,
            unread: Unread {
                bytes: Vec::new(alloc),
                from: 0,
                to: 0,
            },
            line: Vec::new(alloc),
        }
    }

    /// The line that was read last, without its end.
    pub fn line(&self) -> &[u8]
        ensures { result.now ≡ self.now.line.items }
    {
        self.line.as_slice()
    }

    /// Reads the next line, and says whether there was one. A line ends at a newline, and the last one may lack it; one
    /// carriage return right before the newline belongs to the line's end.
    ///
    /// # Errors
    /// `Read` where a read failed, `TooLong` for a line of more than 16,777,216 bytes, `OutOfMemory`.
    #[tactic(auto, using(std::proofs::lemmas::Result::err_from_is_err_and, crate::proofs::InputLines::last_now, crate::proofs::InputLines::last_fits, crate::proofs::InputLines::ended_fits, crate::proofs::InputLines::line_fault, crate::proofs::InputLines::any_fault, crate::proofs::InputLines::none_lost, crate::proofs::InputLines::none_taken_lost, crate::proofs::InputLines::line_goes_on_now, crate::proofs::InputLines::plain_on_now))]
    pub fn read_line(&mut self) -> Result<bool, InputFault>
        ensures line { IfOk result (λ some. IfSome (left_in (R.remaining self.old.reader) self.old.unread) (λ bytes.
            IsNextLine bytes some self.new.line.items (left_in (R.remaining self.new.reader) self.new.unread))) }
        // No line that is read is too long, and one that is told so is.
        ensures fits { OnOk result (IfSome (left_in (R.remaining self.old.reader) self.old.unread) (λ bytes.
            line_length bytes ≤ longest)) }
        ensures fault { IfErr result (λ e. IfSome (left_in (R.remaining self.old.reader) self.old.unread) (λ bytes.
            LongFor e (line_length bytes))) }
        // At a fault no byte is lost: what was read of the line stands there, and the others are left.
        ensures kept { OnErr result (Consumes (left_in (R.remaining self.old.reader) self.old.unread)
            (left_in (R.remaining self.new.reader) self.new.unread) self.new.line.items) }
        // It is told that a read failed only where one did.
        ensures account { AccountsFor result (R.has_failed self.old.reader) (R.has_failed self.new.reader) }
    {
        self.line.clear();
        loop {
            let some = self.fill()?;
            if !some {
                return Ok(!self.line.as_slice().is_empty());
            }
            let ended = self.take_to_newline()?;
            if ended {
                self.drop_return();
                return Ok(true);
            }
        }
    }

    /// Reads all that is left as one line.
    ///
    /// # Errors
    /// Those of `read_line`.
    #[tactic(auto, using(std::proofs::lemmas::Result::err_from_is_err_and, crate::proofs::InputLines::all_now, crate::proofs::InputLines::goes_on_now, crate::proofs::InputLines::any_fault, crate::proofs::InputLines::none_lost, crate::proofs::InputLines::none_taken_lost, crate::proofs::InputLines::all_fault))]
    pub fn read_all(&mut self) -> Result<(), InputFault>
        ensures all { OnOk result (IfSome (left_in (R.remaining self.old.reader) self.old.unread) (λ bytes.
            AreAll bytes self.new.line.items (left_in (R.remaining self.new.reader) self.new.unread))) }
        ensures fits { OnOk result (length self.new.line.items ≤ longest) }
        ensures fault { IfErr result (λ e. IfSome (left_in (R.remaining self.old.reader) self.old.unread) (λ bytes.
            LongFor e (length bytes))) }
        // At a fault no byte is lost: what was read stands there, and the others are left.
        ensures kept { OnErr result (Consumes (left_in (R.remaining self.old.reader) self.old.unread)
            (left_in (R.remaining self.new.reader) self.new.unread) self.new.line.items) }
        // It is told that a read failed only where one did.
        ensures account { AccountsFor result (R.has_failed self.old.reader) (R.has_failed self.new.reader) }
    {
        self.line.clear();
        loop {
            let some = self.fill()?;
            if !some {
                return Ok(());
            }
            self.take_all()?;
        }
    }

    /// Reads more where nothing is left of what was read, and says whether something is left then.
    fn fill(&mut self) -> Result<bool, InputFault>
        ensures line { self.new.line ≡ self.old.line }
        ensures left { Keeps (left_in (R.remaining self.old.reader) self.old.unread)
            (left_in (R.remaining self.new.reader) self.new.unread) }
        ensures end { IfOk result (λ some. some ≡ false
            → IsAtEnd (left_in (R.remaining self.new.reader) self.new.unread)) }
        ensures fault { IfErr result (λ e. (n : ℕ) → LongFor e n) }
        ensures some { IfOk result (λ some. some ≡ true → 0 < length (unread self.new.unread)) }
        ensures account { AccountsFor result (R.has_failed self.old.reader) (R.has_failed self.new.reader) }
    {
        if !self.unread.as_slice().is_empty() {
            return Ok(true);
        }
        self.unread.refill(&mut self.reader)
    }

    /// Adds what was read up to the next newline to the line, passes over the newline, and says whether there was one.
    #[tactic(auto, using(crate::proofs::InputLines::behind_newline))]
    fn take_to_newline(&mut self) -> Result<bool, InputFault>
        ensures reader { self.new.reader ≡ self.old.reader }
        ensures ended { IfOk result (λ ended. ended ≡ has_newline (unread self.old.unread)) }
        ensures line { OnOk result (self.new.line.items ≡ self.old.line.items
            ++ take (line_length (unread self.old.unread)) (unread self.old.unread)) }
        ensures left { OnOk result (unread self.new.unread ≡ (if has_newline (unread self.old.unread)
            then drop (line_length (unread self.old.unread) + 1) (unread self.old.unread) else [])) }
        ensures fits { OnOk result (length self.new.line.items ≤ longest) }
        ensures fault { IfErr result (λ e.
            LongFor e (length self.old.line.items + line_length (unread self.old.unread))) }
        ensures account { AccountsFor result (R.has_failed self.old.reader) (R.has_failed self.new.reader) }
        ensures kept { OnErr result (self.new.line.items ≡ self.old.line.items) }
        ensures still { OnErr result (unread self.new.unread ≡ unread self.old.unread) }
    {
        let unread = self.unread.as_slice();
        let count = line_length(unread);
        let ended = count < unread.len();
        self.take(count)?;
        if ended {
            self.unread.pass(1);
        }
        Ok(ended)
    }

    /// Adds all that was read to the line.
    fn take_all(&mut self) -> Result<(), InputFault>
        ensures reader { self.new.reader ≡ self.old.reader }
        ensures line { OnOk result (self.new.line.items ≡ self.old.line.items ++ unread self.old.unread) }
        ensures left { OnOk result (unread self.new.unread ≡ []) }
        ensures fits { OnOk result (length self.new.line.items ≤ longest) }
        ensures fault { IfErr result (λ e.
            LongFor e (length self.old.line.items + length (unread self.old.unread))) }
        ensures account { AccountsFor result (R.has_failed self.old.reader) (R.has_failed self.new.reader) }
        ensures kept { OnErr result (self.new.line.items ≡ self.old.line.items) }
        ensures still { OnErr result (unread self.new.unread ≡ unread self.old.unread) }
    {
        let count = self.unread.as_slice().len();
        self.take(count)
    }

    /// Adds the next bytes, this many, to the line.
    fn take(&mut self, count: usize) -> Result<(), InputFault>
        requires { count ≤ length (unread self.old.unread) }
        ensures reader { self.new.reader ≡ self.old.reader }
        ensures line { OnOk result (self.new.line.items ≡ self.old.line.items ++ take count (unread self.old.unread)) }
        ensures left { OnOk result (unread self.new.unread ≡ drop count (unread self.old.unread)) }
        ensures fits { OnOk result (length self.new.line.items ≤ longest) }
        ensures fault { IfErr result (λ e. LongFor e (length self.old.line.items + count)) }
        ensures account { AccountsFor result (R.has_failed self.old.reader) (R.has_failed self.new.reader) }
        ensures kept { OnErr result (self.new.line.items ≡ self.old.line.items) }
        ensures still { OnErr result (unread self.new.unread ≡ unread self.old.unread) }
    {
        if self.line.len().saturating_add(count) > LONGEST_LINE {
            return Err(InputFault::TooLong);
        }
        self.line
            .extend_from_slice(&self.unread.as_slice()[..count])?;
        self.unread.pass(count);
        Ok(())
    }

    /// Drops the carriage return at the end of the line.
    fn drop_return(&mut self)
        ensures reader { self.new.reader ≡ self.old.reader }
        ensures unread { self.new.unread ≡ self.old.unread }
        ensures line { self.new.line.items ≡ without_return self.old.line.items }
    {
        if ends_with(self.line.as_slice(), b'\r') {
            let count = self.line.len().saturating_sub(1);
            self.line.truncate(count);
        }
    }
}

/// How many bytes stand before the next newline or the end.
fn line_length(bytes: &[u8]) -> usize
    ensures length { result ≡ line_length bytes.now }
    ensures within { result ≤ length bytes.now }
{
    let mut place = 0;
    while place < bytes.len() && bytes[place] != b'\n' {
        place += 1;
    }
    place
}

/// Whether this byte is the last one.
fn ends_with(bytes: &[u8], byte: u8) -> bool
    ensures { result ≡ ends_with byte bytes.now }
{
    match &bytes[bytes.len().saturating_sub(1)..] {
        [last, ..] => *last == byte,
        [] => false,
    }
}
