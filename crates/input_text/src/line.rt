//! The lines of an input, one after another.

ghost use Rattle.std.specs.Prelude.{◌≡◌, ◌∷◌, ◌<◌, length};
ghost use Rattle.std.specs.Iterator.{YieldsFirstBy, item_count};
ghost use Rattle.std.specs.Str.Lines.{lines, strip_carriage_return};
ghost use Rattle.input_text.specs.Lines.{LinesLeft, numbered_lines, is_skipped};

use crate::search::place_of;
use std::marker::Model;

/// One line of an input.
#[derive(Clone, Copy)]
pub struct Line<'a> {
    /// Which line it is, counted from 1.
    pub number: usize,
    /// Its bytes, without the line end.
    pub text: &'a [u8],
}

/// The lines of an input that are left, in order.
///
/// A line ends at a newline, and the last one may lack it. One carriage return right before the newline belongs to
/// the line end; at the end of the input it belongs to the line.
#[derive(Drop)]
pub struct Lines<'a> {
    number: usize,
    rest: &'a [u8],
}

impl<'a> Model for Lines<'a> {
    ghost use Rattle.std.specs.Prelude.{◌+◌, ◌^◌, ◌<◌, length};
    ghost use Rattle.input_text.specs.Lines.{LinesLeft};

    ghost Value = { LinesLeft };

    ghost view = { λ l. record { number = l.number; bytes = l.rest.now } };

    ghost invariant = { λ l. l.number + length l.rest.now < 2 ^ 64 };
}

impl<'a> Lines<'a> {
    /// The lines of an input, numbered from 1.
    pub fn new(input: &'a [u8]) -> Lines<'a>
        ensures { result ≡ record { number = 1; bytes = input.now } }
    {
        Lines {
            number: 1,
            rest: input,
        }
    }

    /// The bytes after the lines that were given.
    pub fn remainder(&self) -> &'a [u8]
        ensures { result.now ≡ self.now.bytes }
    {
        self.rest
    }
}

impl<'a> Iterator for Lines<'a> {
    type Item = Line<'a>;

    ghost next_gives = { YieldsFirstBy (λ l. (l.number, l.text.now)) numbered_lines };

    ghost remaining = { item_count numbered_lines };

    fn next(&mut self) -> Option<Line<'a>> {
        if self.rest.is_empty() {
            return None;
        }
        let number = self.number;
        let (text, rest) = first_line(self.rest);
        self.number = number + 1;
        self.rest = rest;
        Some(Line { number, text })
    }
}

/// The first line of some bytes, and the bytes after its end.
#[tactic(auto, using(std::proofs::lemmas::Slice::between_to_end, crate::proofs::Splitting::lines_at, crate::proofs::Splitting::lines_none))]
fn first_line(bytes: &[u8]) -> (&[u8], &[u8])
    requires { 0 < length bytes.now }
    ensures split { lines bytes.now ≡ result.0.now ∷ lines result.1.now }
    ensures shorter { length result.1.now < length bytes.now }
{
    match place_of(b'\n', bytes) {
        Some(end) => (without_carriage_return(&bytes[..end]), &bytes[end + 1..]),
        None => (bytes, &[]),
    }
}

/// A line without the one carriage return at its end, if it has one.
fn without_carriage_return(line: &[u8]) -> &[u8]
    ensures { result.now ≡ strip_carriage_return line.now }
{
    match line {
        [front @ .., b'\r'] => front,
        _ => line,
    }
}

/// Whether a line says nothing: it is empty, or begins with `#`.
pub fn is_skipped(line: &[u8]) -> bool
    ensures { result ≡ is_skipped line.now }
{
    match line {
        [] => true,
        [first, ..] => *first == b'#',
    }
}
