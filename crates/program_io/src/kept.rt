//! A reader that keeps a copy of what it gives.

ghost use Rattle.std.specs.Prelude.{◌≡◌, ◌++◌, [], None, is_some, IfNone, IfSome};
ghost use Rattle.std.specs.Option.{option_map};

use std::alloc::Global;
use std::io;
use std::io::Read;

/// A reader that keeps a copy of what it gives, so that what is wrong there can be told to people.
///
/// Where memory is refused for the copy, it goes on without one.
#[derive(Drop)]
pub struct KeptReader<R: Read> {
    reader: R,
    kept: Option<Vec<u8>>,
}

impl<R: Read> KeptReader<R> {
    /// The reader; it keeps what it gives where `keeps` says so.
    pub fn new(alloc: Global, reader: R, keeps: bool) -> KeptReader<R>
        ensures reader { result.reader ≡ reader }
        ensures kept { IfSome result.kept (λ kept. kept.items ≡ []) }
        ensures keeps { is_some result.kept ≡ keeps }
    {
        let kept = if keeps { Some(Vec::new(alloc)) } else { None };
        KeptReader { reader, kept }
    }

    /// What the reader gave; `None` where it was not to be kept, or memory was refused for it.
    pub fn kept(&self) -> Option<&[u8]>
        ensures { option_map (λ kept. kept.now) result ≡ option_map (λ kept. kept.items) self.now.kept }
    {
        match &self.kept {
            Some(kept) => Some(kept.as_slice()),
            None => None,
        }
    }
}

/// Appends bytes to a copy, and lets go of it where memory is refused.
fn keep(kept: &mut Option<Vec<u8>>, bytes: &[u8])
    ensures kept { IfSome kept.old (λ before. IfSome kept.new (λ after. after.items ≡ before.items ++ bytes.now)) }
    ensures unkept { IfNone kept.old (kept.new ≡ None) }
{
    if let Some(copy) = kept {
        if copy.extend_from_slice(bytes).is_err() {
            *kept = None;
        }
    }
}

impl<R: Read> Read for KeptReader<R> {
    ghost remaining = { λ r. R.remaining r.reader };

    fn read(&mut self, buf: &mut [u8]) -> io::Result<usize> {
        let count = self.reader.read(buf)?;
        keep(&mut self.kept, &buf[..count]);
        Ok(count)
    }
}
