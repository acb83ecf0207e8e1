//! What a line asks to be told.

ghost use Rattle.std.specs.Prelude.{◌≡◌};
ghost use Rattle.node_service.specs.Asking.{plain_question, question_of, question_with, range_in};

use input_text::{read_decimal, split_word};

/// The most digits of an entry's number, or of a count (own).
pub(crate) const MOST_NUMBER_DIGITS: usize = 18;

/// What is to be told of a node.
#[derive(Clone, Copy, PartialEq, Eq)]
pub(crate) enum Question {
    /// The answer to this number of a pharmacy.
    Answer(u64),
    /// How many entries, slots or rows the node has.
    Count,
    /// The entries of a pharmacy without an answer, the oldest first: from this number on, this many at most.
    Open(u64, u64),
    /// The row of this number of a payer's book, from 1.
    Row(u64),
    /// The payments of a pharmacy or a payer: from the one of this number on, this many at most.
    Payments(u64, u64),
}

/// What a line asks to be told.
#[tactic(auto, unfolding(crate::specs::Asking::question_of))]
pub(crate) fn question_of(line: &[u8]) -> Option<Question>
    ensures { result ≡ question_of line.now }
{
    match split_word(line) {
        Some((word, rest)) => question_with(word, rest),
        None => plain_question(line),
    }
}

/// The question of a word and what stands after it.
fn question_with(word: &[u8], rest: &[u8]) -> Option<Question>
    ensures { result ≡ question_with word.now rest.now }
{
    if word == b"answer".as_slice() {
        let number = read_decimal(rest, MOST_NUMBER_DIGITS)?;
        return Some(Question::Answer(number));
    }
    if word == b"row".as_slice() {
        let number = read_decimal(rest, MOST_NUMBER_DIGITS)?;
        return Some(Question::Row(number));
    }
    let (number, count) = range_in(rest)?;
    if word == b"open".as_slice() {
        return Some(Question::Open(number, count));
    }
    if word == b"payments".as_slice() {
        return Some(Question::Payments(number, count));
    }
    None
}

/// The question that is one word.
fn plain_question(line: &[u8]) -> Option<Question>
    ensures { result ≡ plain_question line.now }
{
    if line == b"count".as_slice() {
        return Some(Question::Count);
    }
    None
}

/// From which number on, and how many.
#[tactic(auto, unfolding(crate::specs::Asking::range_in))]
fn range_in(rest: &[u8]) -> Option<(u64, u64)>
    ensures { result ≡ range_in rest.now }
{
    let (first, behind) = split_word(rest)?;
    let number = read_decimal(first, MOST_NUMBER_DIGITS)?;
    let count = read_decimal(behind, MOST_NUMBER_DIGITS)?;
    Some((number, count))
}
