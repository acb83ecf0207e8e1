//! One row of a file.

use crate::texts::{Texts, cut};
use input_text::{split_word, unprint};
use std::alloc::{AllocError, Global};

/// A call and what it has to come to.
#[derive(Drop)]
pub struct Row<'a> {
    word: &'a str,
    argument: Vec<u8>,
    outcome: Vec<u8>,
}

impl Row<'_> {
    /// The word that says which call.
    pub fn word(&self) -> &str {
        self.word
    }

    /// What is called with, its names filled in, as bytes.
    pub fn argument(&self) -> &[u8] {
        self.argument.as_slice()
    }

    /// What the call has to come to, its names filled in, as it is told.
    pub(crate) fn outcome(&self) -> &[u8] {
        self.outcome.as_slice()
    }
}

/// Reads the row `WORD ARGUMENT -> OUTCOME`, or `WORD -> OUTCOME`; None where a line is none.
pub(crate) fn read_row<'a>(
    alloc: Global,
    texts: &Texts,
    line: &'a [u8],
) -> Result<Option<Row<'a>>, AllocError> {
    let Some((call, outcome)) = cut_row(line) else {
        return Ok(None);
    };
    let (word, argument) = split_word(call).unwrap_or((call, b""));
    let Ok(word) = std::str::from_utf8(word) else {
        return Ok(None);
    };
    let Some(argument) = texts.filled(argument)? else {
        return Ok(None);
    };
    let Some(outcome) = texts.filled(outcome)? else {
        return Ok(None);
    };
    match unprint(alloc, argument.as_slice()) {
        Ok(argument) => Ok(Some(Row {
            word,
            argument,
            outcome,
        })),
        Err(_) => Ok(None),
    }
}

/// The call and the outcome of a line; an outcome of nothing has no space before it.
fn cut_row(line: &[u8]) -> Option<(&[u8], &[u8])> {
    if let Some(parts) = cut(line, b" -> ") {
        return Some(parts);
    }
    let call = line.strip_suffix(b" ->")?;
    Some((call, b""))
}
