//! The words of calls, each of which waits until its records are on disk.

ghost use Rattle.std.specs.Prelude.{◌≡◌, ◌++◌, ◌-◌, ◌≤◌, [], ◌∷◌, length, take, drop, OnOk};
ghost use Rattle.node_handle.specs.Waiting.{all_lowered, told, untold};
ghost use Rattle.node_handle.specs.Marks.{IsPassed, sizes};

use std::alloc::{AllocError, Global};
use std::marker::Model;

/// Where the words of a call end.
#[derive(Clone, Copy, Drop)]
pub(crate) struct Mark {
    /// How many bytes of records have to be on disk before they may be told.
    pub(crate) upto: usize,
    /// How many bytes they are.
    pub(crate) size: usize,
}

/// The words of calls, in order, each with how many bytes of records have to be on disk before it may be told.
#[derive(Drop)]
pub(crate) struct WaitingWords {
    bytes: Vec<u8>,
    marks: Vec<Mark>,
}

impl Model for WaitingWords {
    ghost use Rattle.std.specs.Prelude.{◌≡◌, List, length};
    ghost use Rattle.node_handle.specs.Waiting.{Waiting};
    ghost use Rattle.node_handle.specs.Marks.{pieces, sizes};

    ghost Value = { List Waiting };

    ghost view = { λ w. pieces w.marks.items w.bytes.items };

    ghost invariant = { λ w. sizes w.marks.items ≡ length w.bytes.items };
}

impl WaitingWords {
    /// No words.
    pub(crate) fn new(alloc: Global) -> WaitingWords
        ensures { result ≡ [] }
    {
        WaitingWords {
            bytes: Vec::new(alloc),
            marks: Vec::new(alloc),
        }
    }

    /// Adds the words of a call.
    ///
    /// # Errors
    /// Memory was refused.
    pub(crate) fn add(&mut self, upto: usize, text: &[u8]) -> Result<(), AllocError>
        ensures { OnOk result (self.new ≡ self.old ++ record { mark = upto; text = text.now } ∷ []) }
    {
        self.marks.reserve(1)?;
        self.bytes.extend_from_slice(text)?;
        self.marks.push_reserved(Mark {
            upto,
            size: text.len(),
        });
        Ok(())
    }

    /// The words that may be told, where so many bytes of records are on disk.
    pub(crate) fn told(&self, kept: usize) -> &[u8]
        ensures { result.now ≡ told (all_lowered kept self.now) }
    {
        let (_, rest) = passed(self.marks.as_slice(), self.bytes.as_slice(), kept);
        front(self.bytes.as_slice(), rest)
    }

    /// Forgets the words that may be told.
    pub(crate) fn clear(&mut self, kept: usize)
        ensures { all_lowered kept self.new ≡ untold (all_lowered kept self.old) }
    {
        let (count, rest) = passed(self.marks.as_slice(), self.bytes.as_slice(), kept);
        let gone = self.bytes.len() - rest.len();
        shed(&mut self.bytes, gone);
        shed(&mut self.marks, count);
    }
}

/// The first bytes, up to those that come after them.
fn front<'a>(bytes: &'a [u8], rest: &[u8]) -> &'a [u8]
    requires { length rest.now ≤ length bytes.now }
    ensures { result.now ≡ take (length bytes.now - length rest.now) bytes.now }
{
    &bytes[..bytes.len() - rest.len()]
}

/// How many marks, the first, are of words that may be told, and the bytes after them.
fn passed<'a>(marks: &[Mark], bytes: &'a [u8], kept: usize) -> (usize, &'a [u8])
    requires { sizes marks.now ≡ length bytes.now }
    ensures { IsPassed kept marks.now bytes.now result.0 result.1.now }
{
    let mut rest = bytes;
    for place in 0..marks.len() {
        let mark = marks[place];
        if mark.upto > kept {
            return (place, rest);
        }
        rest = &rest[mark.size..];
    }
    (marks.len(), rest)
}

/// Removes the first items.
pub(crate) fn shed<T: Copy + Drop>(items: &mut Vec<T>, count: usize)
    requires { count ≤ length items.old.items }
    ensures { items.new.items ≡ drop count items.old.items }
{
    let len = items.len();
    items.copy_within(count..len, 0);
    items.truncate(len - count);
}
