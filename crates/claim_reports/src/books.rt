//! The books of a payer, by their numbers: one payer of the settings each.

ghost use Rattle.std.specs.Prelude.{◌≡◌, ◌<◌, ◌≤◌, ◌+◌, ◌∷◌, ◌++◌, [], IfOk, IfSome, OnOk, drop, length, take};
ghost use Rattle.std.specs.List.{flat_map};
ghost use Rattle.claim_reports.specs.Shelves.{behind_comma, books_in, books_text, contains, first_of, has, is_behind, more_of, one_of, span_in, span_text, with_part};

use input_text::{put_decimal, read_decimal};
use std::alloc::{AllocError, Global};
use std::marker::Model;

/// The most numbers and ranges that are taken.
const MOST: usize = 32;

/// The most digits of a number.
const DIGITS: usize = 18;

/// The numbers from a first to a last one.
#[derive(Clone, Copy)]
pub struct Span {
    /// The first.
    pub first: u64,
    /// The last; of a number alone the same.
    pub last: u64,
}

/// The numbers of a payer's books: at most 32 numbers and ranges of numbers, each behind those before it.
#[derive(Clone, Copy)]
pub struct Books {
    spans: [Span; 32],
    count: usize,
}

// Clauses see the numbers and ranges. The room after them is filled with zeros.
impl Model for Books {
    ghost use Rattle.std.specs.Prelude.{◌≡◌, ◌≤◌, List, ◌++◌, length, take, drop};
    ghost use Rattle.claim_reports.specs.declared.books.Span.{Span};
    ghost use Rattle.claim_reports.specs.Shelves.{padding};
    ghost use Rattle.std.proofs.Common.{arith, ap, ◌∙◌, sym, take-append-drop, length-take-le};

    ghost Value = { List Span };

    ghost view = { λ r. take r.count r.spans };

    ghost invariant = { λ r. (r.count ≤ 32) × (length r.spans ≡ 32)
        × (drop r.count r.spans ≡ padding (take r.count r.spans)) };

    ghost inverse = { λ v. record { spans = v ++ padding v; count = length v } };

    ghost inverse_ok = { λ r h i. record {
      spans = (ap (λ (rest : List Span). take r.count r.spans ++ rest) (sym h.2) ∙ take-append-drop r.count r.spans) i;
      count = length-take-le r.count r.spans (omega (arith, h.0, h.1)) i;
    } };
}

impl Span {
    /// What a part of a text says: a number, or a first and a last one with a hyphen between them.
    fn read(part: &[u8]) -> Option<Span>
        ensures { result ≡ span_in part.now }
    {
        let Some(place) = first_of(part, b'-') else {
            let number = read_decimal(part, DIGITS)?;
            return Some(Span {
                first: number,
                last: number,
            });
        };
        let first = read_decimal(&part[..place], DIGITS)?;
        let last = read_decimal(&part[place + 1..], DIGITS)?;
        if first < last {
            Some(Span { first, last })
        } else {
            None
        }
    }

    /// Whether a number is one of them.
    fn contains(&self, number: u64) -> bool
        ensures { result ≡ contains self.now number }
    {
        self.first <= number && number <= self.last
    }

    /// Appends their text.
    fn put(&self, out: &mut Vec<u8>) -> Result<(), AllocError>
        ensures { OnOk result (out.new.items ≡ out.old.items ++ span_text self.now) }
    {
        put_decimal(out, self.first)?;
        if self.first != self.last {
            out.push(b'-')?;
            put_decimal(out, self.last)?;
        }
        Ok(())
    }
}

impl Books {
    /// The books that a text names: numbers of at most 18 digits, and ranges of them with a hyphen, with commas between them, each
    /// behind those before it. None where it says anything else, and where there are more than 32.
    pub fn read(text: &[u8]) -> Option<Books>
        ensures { result ≡ books_in text.now }
    {
        let mut books = Some(Books::new());
        let mut rest = text;
        while let Some(place) = first_of(rest, b',') {
            books = more_of(books, front_of(rest, place));
            rest = back_of(rest, place);
        }
        more_of(books, rest)
    }

    /// Whether the book of a number is one of them.
    pub fn has(&self, number: u64) -> bool
        ensures { result ≡ has self.now number }
    {
        self.as_slice().iter().any(|span| span.contains(number))
    }

    /// The number of the book, where it is one.
    pub fn one(&self) -> Option<u64>
        ensures { result ≡ one_of self.now }
    {
        match self.as_slice() {
            [span] if span.first == span.last => Some(span.first),
            _ => None,
        }
    }

    /// Their text: numbers and ranges with commas between them.
    pub(crate) fn text(&self, alloc: Global) -> Result<Vec<u8>, AllocError>
        ensures { IfOk result (λ text. text.items ≡ books_text self.now) }
    {
        let mut text = Vec::new(alloc);
        let Some((first, more)) = self.as_slice().split_first() else {
            return Ok(text);
        };
        first.put(&mut text)?;
        put_behind(&mut text, more)?;
        Ok(text)
    }

    /// No book.
    fn new() -> Books
        ensures { result ≡ [] }
    {
        Books {
            spans: [Span { first: 0, last: 0 }; 32],
            count: 0,
        }
    }

    /// The numbers and ranges.
    fn as_slice(&self) -> &[Span]
        ensures spans { result.now ≡ self.now }
        ensures few { length result.now ≤ 32 }
    {
        &self.spans[..self.count]
    }

    /// With what a part of a text says.
    fn with(self, part: &[u8]) -> Option<Books>
        ensures { result ≡ with_part self part.now }
    {
        let span = Span::read(part)?;
        let mut more = self;
        if more.as_slice().len() < MOST && more.is_before(span.first) {
            more.push(span);
            Some(more)
        } else {
            None
        }
    }

    /// Whether each is before a number.
    fn is_before(&self, number: u64) -> bool
        ensures { result ≡ is_behind self.now number }
    {
        self.as_slice().iter().all(|span| span.last < number)
    }

    /// One more.
    fn push(&mut self, span: Span)
        requires { length self.old < 32 }
        ensures { self.new ≡ self.old ++ span ∷ [] }
    {
        self.spans[self.count] = span;
        self.count += 1;
    }
}

/// Appends numbers and ranges, each behind a comma.
fn put_behind(out: &mut Vec<u8>, spans: &[Span]) -> Result<(), AllocError>
    ensures { OnOk result (out.new.items ≡ out.old.items ++ flat_map behind_comma spans.now) }
{
    for span in spans {
        out.push(b',')?;
        span.put(out)?;
    }
    Ok(())
}

/// Books with what a part of a text says, where both are.
fn more_of(books: Option<Books>, part: &[u8]) -> Option<Books>
    ensures { result ≡ more_of books part.now }
{
    books?.with(part)
}

/// What stands before a place.
fn front_of(text: &[u8], place: usize) -> &[u8]
    requires { place < length text.now }
    ensures { result.now ≡ take place text.now }
{
    &text[..place]
}

/// What stands after it.
fn back_of(text: &[u8], place: usize) -> &[u8]
    requires { place < length text.now }
    ensures back { result.now ≡ drop (place + 1) text.now }
    ensures shorter { length result.now < length text.now }
{
    &text[place + 1..]
}

/// The place of the first byte like this.
fn first_of(text: &[u8], like: u8) -> Option<usize>
    ensures place { result ≡ first_of like text.now }
    ensures bound { IfSome result (λ place. place < length text.now) }
{
    text.iter().position(|byte| *byte == like)
}
