//! A text that is written piece by piece. Where memory is refused it takes no more, and says so.

ghost use Rattle.std.specs.Prelude.{◌≡◌, ◌≤◌, ◌-◌, ◌++◌, [], length, min, max, false, true, OnOk};
ghost use Rattle.std.specs.List.{list_all};
ghost use Rattle.std.specs.Fmt.{decimal};
ghost use Rattle.input_text.specs.Printing.{printed, stands_for_itself};
ghost use Rattle.message_words.specs.Written.{Takes, unspelled_line, unspelled_object};
ghost use Rattle.message_words.specs.Encoded.{is_letter, json_letter, json_letters, json_string, member_key, number_member, printed_member, spaces, word_member};

use input_text::{put_decimal, put_printed};
use message_parts::front_of;
use std::alloc::{AllocError, Global};

/// A text under construction.
#[derive(Drop)]
pub(crate) struct Text {
    bytes: Vec<u8>,
    /// Bytes as they are printed, before they become a string of JSON.
    spelled: Vec<u8>,
    refused: bool,
}

/// The letters that stand for themselves between the quotation marks of JSON, but for these two.
const QUOTE: u8 = b'"';

const BACKSLASH: u8 = b'\\';

/// The most spaces that are appended at once.
const MOST_SPACES: usize = 128;

impl Text {
    /// A text without bytes.
    pub(crate) fn new(alloc: Global) -> Text
        ensures bytes { result.bytes.items ≡ [] }
        ensures refused { result.refused ≡ false }
    {
        Text {
            bytes: Vec::new(alloc),
            spelled: Vec::new(alloc),
            refused: false,
        }
    }

    /// Empties the text. Its memory stays, and so does a refusal.
    pub(crate) fn clear(&mut self)
        ensures bytes { self.new.bytes.items ≡ [] }
        ensures refused { self.new.refused ≡ self.old.refused }
    {
        self.bytes.clear();
    }

    /// Whether memory was refused.
    pub(crate) fn is_refused(&self) -> bool
        ensures { result ≡ self.now.refused }
    {
        self.refused
    }

    /// Notes that memory was refused elsewhere.
    pub(crate) fn refuse(&mut self)
        ensures { self.new.refused ≡ true }
    {
        self.refused = true;
    }

    /// How many bytes there are.
    pub(crate) fn len(&self) -> usize
        ensures { result ≡ length self.now.bytes.items }
    {
        self.bytes.len()
    }

    /// The bytes so far.
    pub(crate) fn as_slice(&self) -> &[u8]
        ensures { result.now ≡ self.now.bytes.items }
    {
        self.bytes.as_slice()
    }

    /// Appends words.
    pub(crate) fn put(&mut self, words: &str)
        ensures { Takes words.now self.old self.new }
    {
        self.bytes(words.as_bytes());
    }

    /// Appends bytes.
    pub(crate) fn bytes(&mut self, bytes: &[u8])
        ensures { Takes bytes.now self.old self.new }
    {
        match self.bytes.extend_from_slice(bytes) {
            Ok(()) => {}
            Err(_) => self.refused = true,
        }
    }

    /// Appends bytes as they are printed.
    #[tactic(auto, using(crate::proofs::Encoded::printed_plain))]
    pub(crate) fn printed(&mut self, bytes: &[u8])
        ensures { Takes (printed bytes.now) self.old self.new }
    {
        if all_stand(bytes) {
            return self.bytes(bytes);
        }
        match put_printed(&mut self.bytes, bytes) {
            Ok(()) => {}
            Err(_) => self.refused = true,
        }
    }

    /// Appends a number.
    #[tactic(auto, using(crate::proofs::Written::one_digit))]
    pub(crate) fn number(&mut self, number: u64)
        ensures { Takes (decimal number) self.old self.new }
    {
        if number < 10 {
            return self.bytes(&[b'0' + number as u8]);
        }
        match put_decimal(&mut self.bytes, number) {
            Ok(()) => {}
            Err(_) => self.refused = true,
        }
    }

    /// Appends spaces up to a column, counted from a place in the text; at least two.
    pub(crate) fn pad(&mut self, from: usize, column: usize)
        requires { column ≤ 128 }
        ensures { Takes (spaces (max (column - (length self.old.bytes.items - from)) 2)) self.old self.new }
    {
        let used = self.len().saturating_sub(from);
        self.spaces(column.saturating_sub(used).max(2));
    }

    /// Appends this many spaces, at most 128.
    #[tactic(auto, using(crate::proofs::Encoded::spaces_front))]
    pub(crate) fn spaces(&mut self, count: usize)
        ensures { Takes (spaces (min count 128)) self.old self.new }
    {
        let room = [b' '; MOST_SPACES];
        self.bytes(front_of(&room, count));
    }

    /// Appends bytes as a string of JSON: as they are printed, between quotation marks. Printed bytes are all printable
    /// characters of ASCII, of which two are marked by a backslash.
    pub(crate) fn string(&mut self, text: &[u8])
        ensures { Takes (json_string text.now) self.old self.new }
    {
        self.put("\"");
        self.letters(text);
        self.put("\"");
    }

    /// Appends letters of a string of JSON.
    #[tactic(auto, using(crate::proofs::Encoded::plain_letters))]
    pub(crate) fn letters(&mut self, text: &[u8])
        ensures { Takes (json_letters text.now) self.old self.new }
    {
        if is_plain(text) {
            return self.bytes(text);
        }
        match put_letters(&mut self.bytes, text) {
            Ok(()) => {}
            Err(_) => self.refused = true,
        }
    }

    /// Appends bytes, as they are printed, as a string of JSON.
    pub(crate) fn printed_string(&mut self, bytes: &[u8])
        ensures { Takes (json_string (printed bytes.now)) self.old self.new }
    {
        self.put("\"");
        self.printed_letters(bytes);
        self.put("\"");
    }

    /// Appends the letters of bytes, as they are printed, of a string of JSON.
    #[tactic(auto, using(crate::proofs::Encoded::plain_printed_letters))]
    fn printed_letters(&mut self, bytes: &[u8])
        ensures { Takes (json_letters (printed bytes.now)) self.old self.new }
    {
        if is_plain(bytes) {
            return self.bytes(bytes);
        }
        self.spelled.clear();
        match put_printed_letters(&mut self.bytes, &mut self.spelled, bytes) {
            Ok(()) => {}
            Err(_) => self.refused = true,
        }
    }

    /// Appends a member of words after another member.
    pub(crate) fn word_member(&mut self, key: &str, words: &[u8])
        ensures { Takes (word_member key.now words.now) self.old self.new }
    {
        self.key(key);
        self.string(words);
    }

    /// Appends a member of bytes as they are printed.
    pub(crate) fn printed_member(&mut self, key: &str, bytes: &[u8])
        ensures { Takes (printed_member key.now bytes.now) self.old self.new }
    {
        self.key(key);
        self.printed_string(bytes);
    }

    /// Appends a member that is a number.
    pub(crate) fn number_member(&mut self, key: &str, number: u64)
        ensures { Takes (number_member key.now number) self.old self.new }
    {
        self.key(key);
        self.number(number);
    }

    /// Appends the key of a member after another one.
    pub(crate) fn key(&mut self, key: &str)
        ensures { Takes (member_key key.now) self.old self.new }
    {
        self.put(",\"");
        self.put(key);
        self.put("\":");
    }

    /// Writes, as a line for people, that no byte is spelled at a place of a line.
    pub(crate) fn unspelled_line(&mut self, line: u64, place: u64)
        ensures { self.new.refused ≡ false → self.new.bytes.items ≡ unspelled_line line place }
    {
        self.clear();
        self.put("line ");
        self.number(line);
        self.put(": no message: no byte is spelled at place ");
        self.number(place);
        self.put("\n\n");
    }

    /// The same as an object of JSON.
    pub(crate) fn unspelled_object(&mut self, line: u64, place: u64)
        ensures { self.new.refused ≡ false → self.new.bytes.items ≡ unspelled_object line place }
    {
        self.clear();
        self.put("{\"line\":");
        self.number(line);
        self.put(",\"kind\":\"none\",\"place\":");
        self.number(place);
        self.put("}\n");
    }
}

/// Appends letters of a string of JSON.
fn put_letters(out: &mut Vec<u8>, text: &[u8]) -> Result<(), AllocError>
    ensures { OnOk result (out.new.items ≡ out.old.items ++ json_letters text.now) }
{
    for byte in text {
        put_letter(out, *byte)?;
    }
    Ok(())
}

/// Appends a letter of a string of JSON.
#[tactic(auto, unfolding(crate::specs::Encoded::json_letter))]
fn put_letter(out: &mut Vec<u8>, byte: u8) -> Result<(), AllocError>
    ensures { OnOk result (out.new.items ≡ out.old.items ++ json_letter byte) }
{
    match byte {
        QUOTE | BACKSLASH => out.extend_from_slice(&[BACKSLASH, byte]),
        0x20..=0x7e => out.extend_from_slice(&[byte]),
        _ => out.extend_from_slice(b"?"),
    }
}

/// Appends the letters of bytes, as they are printed, of a string of JSON. What they are printed as is kept in a text
/// without bytes.
fn put_printed_letters(
    out: &mut Vec<u8>,
    text: &mut Vec<u8>,
    bytes: &[u8],
) -> Result<(), AllocError>
    requires { text.old.items ≡ [] }
    ensures { OnOk result (out.new.items ≡ out.old.items ++ json_letters (printed bytes.now)) }
{
    put_printed(text, bytes)?;
    put_letters(out, text.as_slice())
}

/// Whether a byte is printed as it is.
fn stands_for_itself(byte: u8) -> bool
    ensures { result ≡ stands_for_itself byte }
{
    matches!(byte, 0x20..=0x7e) && byte != BACKSLASH
}

/// Whether bytes stand for themselves in a string of JSON, and are printed as they are.
pub(crate) fn is_plain(bytes: &[u8]) -> bool
    ensures { result ≡ list_all is_letter bytes.now }
{
    let mut plain = true;
    for byte in bytes {
        plain &= is_letter(*byte);
    }
    plain
}

/// Whether bytes are printed as they are. It does not stop at the first that is not, so that it tests several at once.
fn all_stand(bytes: &[u8]) -> bool
    ensures { result ≡ list_all stands_for_itself bytes.now }
{
    let mut plain = true;
    for byte in bytes {
        plain &= stands_for_itself(*byte);
    }
    plain
}

/// Whether a byte stands for itself in a string of JSON.
fn is_letter(byte: u8) -> bool
    ensures { result ≡ is_letter byte }
{
    stands_for_itself(byte) && byte != QUOTE
}
