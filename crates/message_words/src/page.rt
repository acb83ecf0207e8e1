//! The description of one message, as lines of text or as an object of JSON.

ghost use Rattle.std.specs.Prelude.{◌≡◌, ◌≤◌, ◌+◌, ◌++◌, ◌||◌, false, true, [], ◌-◌, length, take, drop, min, if◌then◌else◌};
ghost use Rattle.overpunch.specs.Number.{number_text};
ghost use Rattle.message_words.specs.Described.{between_text, end_text, head_text, if_dropped, is_refused, line_and_kind, size_between};
ghost use Rattle.message_parts.specs.FieldTitles.{titles};
ghost use Rattle.message_words.specs.Rows.{columns_text, comma, field_member, meaning_behind, meaning_member, name_member, place_member, row_line, row_object, row_text, value_members};
ghost use Rattle.message_words.specs.declared.page.Style.TheVariants as style;
ghost use Rattle.message_words.specs.Written.{Takes, unspelled_words};

use crate::finding_page::FindingPage;
use crate::text::Text;
use message_parts::{MessageKind, behind, front_of};
use overpunch::write_number;
use std::alloc::Global;

/// How a description is written.
#[derive(Clone, Copy, PartialEq, Eq)]
pub enum Style {
    /// Lines for people, with an empty line at the end.
    Lines,
    /// One object of JSON on one line.
    Json,
}

/// The description of one message, while it is written.
#[derive(Drop)]
pub struct Page {
    pub(crate) out: Text,
    /// What the value of the part at hand means.
    pub(crate) note: Text,
    /// What is found of the message.
    pub(crate) findings: FindingPage,
    pub(crate) style: Style,
    /// Whether a part was written.
    pub(crate) started: bool,
    /// How many transactions of the transmission at hand have begun.
    pub(crate) transactions: u64,
    /// Which of the bytes around a message were dropped: 0x02 before it, 0x03 after it.
    pub(crate) dropped: (bool, bool),
}

/// One line of parts.
#[derive(Clone, Copy)]
pub(crate) struct Row<'a> {
    /// The number of the standard, or the two letters of an unknown field; empty where there is none.
    pub(crate) number: &'a [u8],
    pub(crate) name: &'a str,
    pub(crate) key: &'a str,
    pub(crate) value: &'a [u8],
}

/// Where the number of a field begins in a line, then its name, its value and what that means.
const NUMBER: usize = 10;

const NAME: usize = 18;

const VALUE: usize = 49;

const MEANING: usize = 70;

impl Page {
    /// A page on which nothing is written.
    pub fn new(alloc: Global, style: Style) -> Page
        ensures text { result.out.bytes.items ≡ [] }
        ensures taken { is_refused result ≡ false }
        ensures style { result.style ≡ style }
        ensures dropped { result.dropped ≡ (false, false) }
    {
        Page {
            out: Text::new(alloc),
            note: Text::new(alloc),
            findings: FindingPage::new(alloc, style),
            style,
            started: false,
            transactions: 0,
            dropped: (false, false),
        }
    }

    /// Notes which of the bytes around a message were dropped, for the descriptions that follow.
    pub fn note_dropped(&mut self, before: bool, behind: bool)
        ensures { self.new ≡ record self.old { dropped = (before, behind) } }
    {
        self.dropped = (before, behind);
    }

    /// Whether memory was refused while it was written.
    pub fn is_refused(&self) -> bool
        ensures { result ≡ is_refused self.now }
    {
        self.out.is_refused() || self.note.is_refused() || self.findings.is_refused()
    }

    /// What is written.
    pub fn as_slice(&self) -> &[u8]
        ensures { result.now ≡ self.now.out.bytes.items }
    {
        self.out.as_slice()
    }

    /// Describes a line of the input that spells no message: no byte is spelled at a place of it.
    pub fn unspelled(&mut self, line: u64, place: usize)
        ensures text { self.new.out.refused ≡ false
            → self.new.out.bytes.items ≡ unspelled_words self.old.style line place }
        ensures same { self.new ≡ record self.old { out = self.new.out } }
    {
        match self.style {
            Style::Lines => self.out.unspelled_line(line, place as u64),
            Style::Json => self.out.unspelled_object(line, place as u64),
        }
    }

    /// Begins the description of a message of this many bytes on a line of the input.
    pub(crate) fn begin(&mut self, line: u64, kind: MessageKind, size: usize)
        ensures text { self.new.out.refused ≡ false → (self.old.out.refused ≡ false)
            × (self.new.out.bytes.items ≡ head_text self.old.style line kind size self.old.dropped) }
        ensures same { self.new ≡ record self.old { out = self.new.out; started = false; transactions = 0 } }
    {
        self.out.clear();
        self.started = false;
        self.transactions = 0;
        match self.style {
            Style::Lines => put_head_line(&mut self.out, line, kind, size, self.dropped),
            Style::Json => put_head_object(&mut self.out, line, kind, size, self.dropped),
        }
    }

    /// Ends the parts, and writes what is found.
    pub(crate) fn put_findings(&mut self)
        ensures text { Takes (between_text self.old.style ++ self.old.findings.out.bytes.items) self.old.out self.new.out }
        ensures same { self.new ≡ record self.old { out = self.new.out } }
    {
        self.put_between();
        self.out.bytes(self.findings.as_slice());
    }

    /// Writes what stands between the parts and what is found.
    fn put_between(&mut self)
        ensures text { Takes (between_text self.old.style) self.old.out self.new.out }
        ensures same { self.new ≡ record self.old { out = self.new.out } }
    {
        match self.style {
            Style::Lines => self.out.put(""),
            Style::Json => self.out.put("],\"findings\":["),
        }
    }

    /// Ends the description.
    pub(crate) fn end(&mut self)
        ensures text { Takes (end_text self.old.style) self.old.out self.new.out }
        ensures same { self.new ≡ record self.old { out = self.new.out } }
    {
        match self.style {
            Style::Lines => self.out.put("\n\n"),
            Style::Json => self.out.put("]}\n"),
        }
    }

    /// Puts a comma before an element of a list of JSON, but for the first one.
    pub(crate) fn separate(&mut self)
        ensures text { Takes (comma self.old.style self.old.started) self.old.out self.new.out }
        ensures same { self.new ≡ record self.old { out = self.new.out; started = true } }
    {
        put_comma(&mut self.out, self.style, self.started);
        self.started = true;
    }

    /// Writes a part whose meaning stands in the note.
    pub(crate) fn row(&mut self, place: usize, row: Row<'_>)
        ensures text { Takes (comma self.old.style self.old.started
            ++ row_text self.old.style place (titles row.entry.number.now row.entry.name.now row.entry.key.now)
            row.entry.value.now self.old.note.bytes.items) self.old.out self.new.out }
        ensures same { self.new ≡ record self.old { out = self.new.out; started = true } }
    {
        self.separate();
        let meaning = self.note.as_slice();
        match self.style {
            Style::Lines => put_row_line(&mut self.out, place, row, meaning),
            Style::Json => put_row_object(&mut self.out, place, row, meaning),
        }
    }
}

/// Writes the head of a description as a line.
fn put_head_line(out: &mut Text, line: u64, kind: MessageKind, size: usize, dropped: (bool, bool))
    ensures { Takes (head_text style.Lines line kind size dropped) out.old out.new }
{
    put_between_words(out, "line ", line, ": ", kind);
    put_size(out, " of ", size, " bytes");
    put_dropped(
        out,
        dropped,
        ", without the byte 0x02 before it",
        ", without the byte 0x03 behind it",
    );
}

/// Begins a description as an object, and the list of its parts.
fn put_head_object(out: &mut Text, line: u64, kind: MessageKind, size: usize, dropped: (bool, bool))
    ensures { Takes (head_text style.Json line kind size dropped) out.old out.new }
{
    put_between_words(out, "{\"line\":", line, ",\"kind\":\"", kind);
    put_size(out, "\",\"bytes\":", size, "");
    put_dropped(
        out,
        dropped,
        ",\"dropped_before\":\"\\\\x02\"",
        ",\"dropped_behind\":\"\\\\x03\"",
    );
    out.put(",\"parts\":[");
}

/// Writes the number of a line, and what its message is, each after words.
fn put_between_words(out: &mut Text, front: &str, line: u64, between: &str, kind: MessageKind)
    ensures { Takes (line_and_kind front.now line between.now kind) out.old out.new }
{
    out.put(front);
    out.number(line);
    out.put(between);
    out.put(kind.name());
}

/// Writes the size of a message between words.
fn put_size(out: &mut Text, front: &str, size: usize, behind: &str)
    ensures { Takes (size_between front.now size behind.now) out.old out.new }
{
    out.put(front);
    out.number(size as u64);
    out.put(behind);
}

/// Writes which of the bytes around the message were dropped.
fn put_dropped(out: &mut Text, dropped: (bool, bool), before: &str, behind: &str)
    ensures { Takes (if_dropped before.now behind.now dropped) out.old out.new }
{
    put_if(out, dropped.0, before);
    put_if(out, dropped.1, behind);
}

/// Writes words, where a condition holds.
fn put_if(out: &mut Text, holds: bool, words: &str)
    ensures { Takes (if holds then words.now else []) out.old out.new }
{
    out.put(if holds { words } else { "" });
}

/// Writes a comma before an element of a list of JSON, but for the first one.
pub(crate) fn put_comma(out: &mut Text, style: Style, started: bool)
    ensures { Takes (comma style started) out.old out.new }
{
    match (style, started) {
        (Style::Json, true) => out.put(","),
        _ => out.put(""),
    }
}

/// Writes a part as a line.
fn put_row_line(out: &mut Text, place: usize, row: Row<'_>, meaning: &[u8])
    ensures { Takes (row_line place (titles row.entry.number.now row.entry.name.now row.entry.key.now)
        row.entry.value.now meaning.now) out.old out.new }
{
    out.bytes(&columns(place, row.number, words_of(row.name)));
    let from = out.len();
    out.printed(row.value);
    put_meaning_behind(out, from, meaning);
}

/// The bytes of words.
fn words_of(words: &str) -> &[u8]
    ensures { result.now ≡ words.now }
{
    words.as_bytes()
}

/// Writes what the value means that stands in a line from a place on, where that is told.
fn put_meaning_behind(out: &mut Text, from: usize, meaning: &[u8])
    ensures { Takes (meaning_behind (length out.old.bytes.items - from) meaning.now) out.old out.new }
{
    if meaning.is_empty() {
        return;
    }
    out.pad(from, MEANING - VALUE);
    out.bytes(meaning);
}

/// Writes a part as an object.
fn put_row_object(out: &mut Text, place: usize, row: Row<'_>, meaning: &[u8])
    ensures { Takes (row_object place (titles row.entry.number.now row.entry.name.now row.entry.key.now)
        row.entry.value.now meaning.now) out.old out.new }
{
    put_place_member(out, place, row.number);
    put_name_member(out, row.key);
    put_value_members(out, row.value, meaning);
}

/// Begins an object with the place of a part, and its number.
fn put_place_member(out: &mut Text, place: usize, number: &[u8])
    ensures { Takes (place_member place number.now) out.old out.new }
{
    out.put("{\"at\":");
    out.number(place as u64);
    put_field_member(out, number);
}

/// Writes the name of a part.
fn put_name_member(out: &mut Text, key: &str)
    ensures { Takes (name_member key.now) out.old out.new }
{
    out.put(",\"name\":\"");
    out.put(key);
    out.put("\"");
}

/// Writes the value of a part and what it means, and ends its object.
fn put_value_members(out: &mut Text, value: &[u8], meaning: &[u8])
    ensures { Takes (value_members value.now meaning.now) out.old out.new }
{
    out.printed_member("value", value);
    put_meaning_member(out, meaning);
    out.put("}");
}

/// Writes the number of a field, where it has one.
fn put_field_member(out: &mut Text, number: &[u8])
    ensures { Takes (field_member number.now) out.old out.new }
{
    if number.is_empty() {
        return;
    }
    out.printed_member("field", number);
}

/// Writes what a value means, where that is told.
fn put_meaning_member(out: &mut Text, meaning: &[u8])
    ensures { Takes (meaning_member meaning.now) out.old out.new }
{
    if meaning.is_empty() {
        return;
    }
    out.word_member("meaning", meaning);
}

/// The columns of a line before the value: the place, by its last eight digits, the number and the name.
pub(crate) fn columns(place: usize, number: &[u8], name: &[u8]) -> [u8; VALUE]
    ensures { result ≡ columns_text place number.now name.now }
{
    let mut line = [b' '; VALUE];
    line[0] = b'\n';
    put_place(&mut line, place);
    put_column(&mut line, NUMBER, NAME - NUMBER - 1, number);
    put_column(&mut line, NAME, VALUE - NAME - 1, name);
    line
}

/// Puts a number to the right into the eight bytes after the first one of a line.
#[tactic(auto, using(crate::proofs::Rows::place_put))]
fn put_place(line: &mut [u8], place: usize)
    requires { 9 ≤ length line.old }
    ensures { line.new ≡ take (9 - min (length (number_text place)) 8) line.old
        ++ drop (length (number_text place) - 8) (number_text place) ++ drop 9 line.old }
{
    let mut digits = [0u8; 20];
    let count = write_number(place as u64, &mut digits);
    let size = count.min(8);
    let text = behind(front_of(&digits, count), count - size);
    put_column(line, 9 - size, size, text);
}

/// Puts a text to the left into this many bytes of a line from a place on, as far as it fits.
fn put_column(line: &mut [u8], from: usize, width: usize, text: &[u8])
    requires { from + width ≤ length line.old }
    ensures { line.new ≡ take from line.old ++ take width text.now ++ drop (from + min (length text.now) width) line.old }
{
    let size = text.len().min(width);
    line[from..from + size].copy_from_slice(&text[..size]);
}
