//! Parts as they are written.

ghost use Rattle.std.specs.Prelude.{◌≡◌, ◌++◌, [], drop, codes, true, None};
ghost use Rattle.message_parts.specs.FieldTitles.{titles, titles_of, titles_seen};
ghost use Rattle.message_words.specs.Meanings.{mark_meaning, meaning_of};
ghost use Rattle.message_parts.specs.Naming.{is_length, mark_names};
ghost use Rattle.message_parts.specs.Parts.{part_seen};
ghost use Rattle.message_words.specs.Rows.{Adds, AddsRow, comma, counted_anew, counted_with, field_meaning, field_names, group_text, id_in, names_or, one_more, unread_meaning, unused_words};
ghost use Rattle.message_parts.specs.Unused.{unused_field};
ghost use Rattle.message_words.specs.Segments.{segment_meaning};
ghost use Rattle.message_words.specs.Written.{Takes};
ghost use Rattle.message_words.specs.declared.page.Style.TheVariants as styled;

use crate::meaning::{put_mark, put_meaning};
use crate::page::{Page, Row, Style, columns};
use crate::segments::segment_words;
use crate::text::Text;
use message_parts::{FieldName, Mark, Named, Part, PartKind, behind, front_of, unused_field};

impl Page {
    /// Writes a part.
    pub(crate) fn part(&mut self, part: &Part<'_>)
        ensures row { AddsRow (part_seen part.now) self.old self.new }
        ensures same { self.new ≡ record self.old {
          out = self.new.out;
          note = self.new.note;
          started = true;
          transactions = counted_with self.old.transactions part.now.kind;
        } }
    {
        self.note.clear();
        let place = part.place;
        match part.kind {
            PartKind::Header(name) => self.field(place, name, part.bytes),
            PartKind::Field(name) => self.behind_name(place, name, part.bytes),
            PartKind::Segment => self.segment(place, behind(part.bytes, 4)),
            PartKind::Group => self.group(place),
            PartKind::Mark(mark) => self.mark(place, mark, part.bytes),
            PartKind::Stray => self.stray(place, part.bytes),
        }
    }

    /// Writes a field that the product knows.
    fn field(&mut self, place: usize, name: FieldName, value: &[u8])
        requires { self.old.note.bytes.items ≡ [] }
        ensures row { Adds (titles_of name) place value.now (meaning_of name value.now) self.old self.new }
        ensures same { self.new ≡ record self.old { out = self.new.out; note = self.new.note; started = true } }
    {
        put_meaning(&mut self.note, name, value);
        self.named(place, name.named(), value);
    }

    /// Writes a field of this name, whose meaning stands in the note.
    fn named(&mut self, place: usize, named: Named, value: &[u8])
        ensures row { Adds (titles_seen named) place value.now self.old.note.bytes.items self.old self.new }
        ensures same { self.new ≡ record self.old { out = self.new.out; started = true } }
    {
        let row = Row {
            number: named.number.as_bytes(),
            name: named.name,
            key: named.key,
            value,
        };
        self.row(place, row);
    }

    /// Writes a field after its separator and its name.
    fn behind_name(&mut self, place: usize, name: Option<FieldName>, bytes: &[u8])
        requires { self.old.note.bytes.items ≡ [] }
        ensures row { Adds (field_names name bytes.now) place (drop 3 bytes.now) (field_meaning name bytes.now)
            self.old self.new }
        ensures same { self.new ≡ record self.old { out = self.new.out; note = self.new.note; started = true } }
    {
        let value = behind(bytes, 3);
        match name {
            Some(name) => self.field(place, name, value),
            None => self.unread(place, bytes),
        }
    }

    /// Writes a field that the product does not read in its segment.
    fn unread(&mut self, place: usize, bytes: &[u8])
        requires { self.old.note.bytes.items ≡ [] }
        ensures row { Adds (names_or (id_in bytes.now) (unused_field (id_in bytes.now))) place (drop 3 bytes.now)
            (unread_meaning (unused_field (id_in bytes.now))) self.old self.new }
        ensures same { self.new ≡ record self.old { out = self.new.out; note = self.new.note; started = true } }
    {
        let rest = behind(bytes, 1);
        let letters = front_of(rest, 2);
        let value = behind(bytes, 3);
        match unused_field(letters) {
            Some(field) => self.unused(place, field, value),
            None => self.unknown(place, letters, value),
        }
    }

    /// Writes a field of the standard that this profile does not use.
    fn unused(&mut self, place: usize, field: Named, value: &[u8])
        requires { self.old.note.bytes.items ≡ [] }
        ensures row { Adds (titles_seen field) place value.now unused_words self.old self.new }
        ensures same { self.new ≡ record self.old { out = self.new.out; note = self.new.note; started = true } }
    {
        put_unused(&mut self.note);
        self.named(place, field, value);
    }

    /// Writes a field that the standard does not have.
    fn unknown(&mut self, place: usize, letters: &[u8], value: &[u8])
        requires { self.old.note.bytes.items ≡ [] }
        ensures row { Adds (names_or letters.now None) place value.now [] self.old self.new }
        ensures same { self.new ≡ record self.old { out = self.new.out; started = true } }
    {
        let row = Row {
            number: letters,
            name: "unknown, carried unchanged",
            key: "unknown",
            value,
        };
        self.row(place, row);
    }

    /// Writes the head of a segment.
    fn segment(&mut self, place: usize, id: &[u8])
        requires { self.old.note.bytes.items ≡ [] }
        ensures row { Adds (titles (codes "111-AM") (codes "segment") (codes "segment")) place id.now (segment_meaning id.now)
            self.old self.new }
        ensures same { self.new ≡ record self.old { out = self.new.out; note = self.new.note; started = true } }
    {
        self.note.put(segment_words(id));
        let row = Row {
            number: b"111-AM",
            name: "segment",
            key: "segment",
            value: id,
        };
        self.row(place, row);
    }

    /// Writes that a transaction begins.
    fn group(&mut self, place: usize)
        ensures row { Takes (comma self.old.style self.old.started
            ++ group_text self.old.style place (one_more self.old.transactions)) self.old.out self.new.out }
        ensures same { self.new ≡ record self.old {
          out = self.new.out;
          started = true;
          transactions = one_more self.old.transactions;
        } }
    {
        self.separate();
        self.transactions = self.transactions.saturating_add(1);
        put_group(&mut self.out, self.style, place, self.transactions);
    }

    /// Writes a part of an envelope's head or of a record.
    fn mark(&mut self, place: usize, mark: Mark, bytes: &[u8])
        requires { self.old.note.bytes.items ≡ [] }
        ensures row { Adds (titles [] (mark_names mark).words (mark_names mark).key) place bytes.now
            (mark_meaning mark bytes.now) self.old self.new }
        ensures same { self.new ≡ record self.old {
          out = self.new.out;
          note = self.new.note;
          started = true;
          transactions = counted_anew (is_length mark) self.old.transactions;
        } }
    {
        put_mark(&mut self.note, mark, bytes);
        self.transactions = counted(mark, self.transactions);
        let (name, key) = mark.names();
        let row = Row {
            number: b"",
            name,
            key,
            value: bytes,
        };
        self.row(place, row);
    }

    /// Writes bytes that stand where none should.
    fn stray(&mut self, place: usize, bytes: &[u8])
        requires { self.old.note.bytes.items ≡ [] }
        ensures row { Adds (titles [] (codes "out of place") (codes "stray")) place bytes.now [] self.old self.new }
        ensures same { self.new ≡ record self.old { out = self.new.out; started = true } }
    {
        let row = Row {
            number: b"",
            name: "out of place",
            key: "stray",
            value: bytes,
        };
        self.row(place, row);
    }
}

/// Writes that this profile does not use a field.
#[tactic(auto, unfolding(crate::specs::Rows::unused_words))]
fn put_unused(out: &mut Text)
    ensures { Takes unused_words out.old out.new }
{
    out.put("not used by this profile");
}

/// How many transactions of the transmission at hand have begun after a mark.
fn counted(mark: Mark, transactions: u64) -> u64
    ensures { result ≡ counted_anew (is_length mark) transactions }
{
    if mark.begins_transmission() {
        0
    } else {
        transactions
    }
}

/// Writes that a transaction of this number begins.
fn put_group(out: &mut Text, style: Style, place: usize, count: u64)
    ensures { Takes (group_text style place count) out.old out.new }
{
    match style {
        Style::Lines => put_group_line(out, place, count),
        Style::Json => put_group_object(out, place, count),
    }
}

/// Writes that a transaction of this number begins, as a line.
fn put_group_line(out: &mut Text, place: usize, count: u64)
    ensures { Takes (group_text styled.Lines place count) out.old out.new }
{
    out.bytes(&columns(place, b"", b"transaction"));
    out.number(count);
}

/// The same as an object.
fn put_group_object(out: &mut Text, place: usize, count: u64)
    ensures { Takes (group_text styled.Json place count) out.old out.new }
{
    out.put("{\"at\":");
    out.number(place as u64);
    out.word_member("name", b"transaction");
    out.number_member("transaction", count);
    out.put("}");
}
