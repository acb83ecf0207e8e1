//! Facts, and how sentences are filled with them.

ghost use Rattle.std.specs.Prelude.{◌-◌, false, [], ◌∷◌, map, slice_get};
ghost use Rattle.memchr.specs.Find.{IsFirstByte, is_byte};
ghost use Rattle.message_words.specs.Facts.{fact_at, fact_in, fact_of, fact_seen, filled, given_row, in_json, in_words, says_of};
ghost use Rattle.message_words.specs.Sayings.{Finds};
ghost use Rattle.message_words.specs.Written.{Takes};

use crate::code_lines::{put_codes_string, put_named_codes};
use crate::finding_page::FindingPage;
use crate::page::Style;
use crate::sentences::Sentence;
use crate::text::Text;
use claim_profile::Code;
use memchr::memchr;
use message_parts::{behind, front_of};

/// A fact that a sentence tells.
#[derive(Clone, Copy)]
pub(crate) enum Fact<'a> {
    /// A number, in decimal.
    Number(u64),
    /// Cents: for people as dollars.
    Dollars(u32),
    /// Thousandths: for people as units.
    Units(u64),
    /// Words, as they stand.
    Words(&'a [u8]),
    /// Bytes, as they are printed.
    Printed(&'a [u8]),
    /// Codes: for people each with its name.
    Codes(&'a [Code]),
    /// Members, and what is said in their place.
    Either(&'a [u8], &'a [u8]),
}

/// What comes before the number of a fact.
const MARK: u8 = b'$';

impl FindingPage {
    /// Writes a sentence with these facts.
    #[tactic(auto, unfolding(crate::specs::Facts::says_of), using(crate::proofs::Sayings::one_said))]
    pub(crate) fn tell(&mut self, sentence: Sentence, facts: &[Fact<'_>])
        ensures { Finds (says_of (given_row sentence.entry) (map fact_seen facts.now) ∷ []) self.old self.new }
    {
        self.begin_finding();
        fill(&mut self.members, Style::Json, facts, sentence.1.as_bytes());
        fill(&mut self.note, Style::Lines, facts, sentence.2.as_bytes());
        self.end_finding(sentence.0);
    }
}

/// Writes a text with facts in the places of their numbers.
pub(crate) fn fill(out: &mut Text, style: Style, facts: &[Fact<'_>], text: &[u8])
    ensures { Takes (filled style (map fact_seen facts.now) false text.now) out.old out.new }
{
    let mut rest = text;
    while let Some(place) = mark_in(rest) {
        out.bytes(front_of(rest, place));
        rest = behind(behind(rest, place), 1);
        put_numbered_fact(out, style, facts, rest);
        rest = behind(rest, 1);
    }
    out.bytes(rest);
}

/// The place of the first mark.
fn mark_in(text: &[u8]) -> Option<usize>
    ensures { IsFirstByte (is_byte 36) text.now result }
{
    memchr(MARK, text)
}

/// Writes the fact whose number a text begins with, if there is one.
fn put_numbered_fact(out: &mut Text, style: Style, facts: &[Fact<'_>], text: &[u8])
    ensures { Takes (fact_of style (map fact_seen facts.now) text.now) out.old out.new }
{
    match text {
        [byte, ..] => put_fact_at(out, style, facts, *byte),
        [] => out.put(""),
    }
}

/// Writes the fact of a number, if there is one.
fn put_fact_at(out: &mut Text, style: Style, facts: &[Fact<'_>], byte: u8)
    ensures { Takes (fact_at style (slice_get (map fact_seen facts.now) (byte - 48))) out.old out.new }
{
    match facts.get(usize::from(byte.saturating_sub(b'0'))) {
        Some(fact) => put_fact(out, style, *fact),
        None => out.put(""),
    }
}

/// Writes a fact.
fn put_fact(out: &mut Text, style: Style, fact: Fact<'_>)
    ensures { Takes (fact_in style (fact_seen fact.entry)) out.old out.new }
{
    match style {
        Style::Lines => put_in_words(out, fact),
        Style::Json => put_in_json(out, fact),
    }
}

/// Writes a fact for people.
fn put_in_words(out: &mut Text, fact: Fact<'_>)
    ensures { Takes (in_words (fact_seen fact.entry)) out.old out.new }
{
    match fact {
        Fact::Number(number) => out.number(number),
        Fact::Dollars(cents) => out.dollars(i64::from(cents)),
        Fact::Units(thousandths) => out.units(thousandths),
        Fact::Words(words) => out.bytes(words),
        Fact::Printed(bytes) => out.printed(bytes),
        Fact::Codes(rejects) => put_named_codes(out, rejects),
        Fact::Either(_, words) => out.bytes(words),
    }
}

/// Writes a fact as a value of JSON.
fn put_in_json(out: &mut Text, fact: Fact<'_>)
    ensures { Takes (in_json (fact_seen fact.entry)) out.old out.new }
{
    match fact {
        Fact::Number(number) => out.number(number),
        Fact::Dollars(cents) => out.number(u64::from(cents)),
        Fact::Units(thousandths) => out.number(thousandths),
        Fact::Words(words) => out.string(words),
        Fact::Printed(bytes) => out.printed_string(bytes),
        Fact::Codes(rejects) => put_codes_string(out, rejects),
        Fact::Either(members, _) => out.bytes(members),
    }
}
