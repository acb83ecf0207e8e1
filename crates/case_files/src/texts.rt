//! Long texts by name.

use input_text::read_decimal;
use std::alloc::{AllocError, Global};

/// The most repeats that `<TEXT*N>` may ask for.
const MOST_REPEATS: u64 = 1_000_000;

/// A text and its name.
#[derive(Drop)]
struct Named {
    name: Vec<u8>,
    text: Vec<u8>,
}

/// Long texts by name. `<NAME>` in a row stands for the text of that name, and `<TEXT*N>` for N times the text before
/// the star.
#[derive(Drop)]
pub(crate) struct Texts {
    alloc: Global,
    named: Vec<Named>,
}

impl Texts {
    /// No text.
    pub(crate) fn new(alloc: Global) -> Texts {
        Texts {
            alloc,
            named: Vec::new(alloc),
        }
    }

    /// How many texts there are.
    pub(crate) fn len(&self) -> usize {
        self.named.len()
    }

    /// Forgets all but the first `count` texts.
    pub(crate) fn truncate(&mut self, count: usize) {
        self.named.truncate(count);
    }

    /// Takes the line `NAME = TEXT`, in whose text names that stand already are filled in. Some where it is one.
    pub(crate) fn take(&mut self, line: &[u8]) -> Result<Option<()>, AllocError> {
        match cut(line, b" = ") {
            Some((name, text)) => match self.filled(text)? {
                Some(text) => self.keep(name, text),
                None => Ok(None),
            },
            None => Ok(None),
        }
    }

    /// Keeps a text under a name.
    fn keep(&mut self, name: &[u8], text: Vec<u8>) -> Result<Option<()>, AllocError> {
        match Vec::from_slice(self.alloc, name) {
            Ok(name) => match self.named.push(Named { name, text }) {
                Ok(()) => Ok(Some(())),
                Err(_) => Err(AllocError),
            },
            Err(_) => Err(AllocError),
        }
    }

    /// A text with each name in angle brackets filled in; None where one is no name.
    pub(crate) fn filled(&self, text: &[u8]) -> Result<Option<Vec<u8>>, AllocError> {
        let mut out = Vec::new(self.alloc);
        let mut rest = text;
        for _ in 0..text.len() {
            let Some((front, inside)) = cut(rest, b"<") else {
                break;
            };
            let Some((name, behind)) = cut(inside, b">") else {
                return Ok(None);
            };
            out.extend_from_slice(front)?;
            if self.fill(&mut out, name)?.is_none() {
                return Ok(None);
            }
            rest = behind;
        }
        out.extend_from_slice(rest)?;
        Ok(Some(out))
    }

    /// Appends the text of a name; None where there is none of it.
    fn fill(&self, out: &mut Vec<u8>, name: &[u8]) -> Result<Option<()>, AllocError> {
        if let Some((text, count)) = cut(name, b"*") {
            return repeat(out, text, count);
        }
        for named in self.named.iter().rev() {
            if named.name.as_slice() == name {
                out.extend_from_slice(named.text.as_slice())?;
                return Ok(Some(()));
            }
        }
        Ok(None)
    }
}

/// Appends a text as often as a decimal number says.
fn repeat(out: &mut Vec<u8>, text: &[u8], count: &[u8]) -> Result<Option<()>, AllocError> {
    match read_decimal(count, 7) {
        Some(count @ 0..=MOST_REPEATS) => {
            for _ in 0..count {
                out.extend_from_slice(text)?;
            }
            Ok(Some(()))
        }
        _ => Ok(None),
    }
}

/// What stands before and after the first place of a mark.
pub fn cut<'a>(text: &'a [u8], mark: &[u8]) -> Option<(&'a [u8], &'a [u8])> {
    for at in 0..text.len() {
        let (front, rest) = text.split_at(at);
        if let Some(behind) = rest.strip_prefix(mark) {
            return Some((front, behind));
        }
    }
    None
}
