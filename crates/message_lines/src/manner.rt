//! How lines spell messages.

ghost use Rattle.std.specs.Prelude.{◌≡◌, MatchResult, Ok, true, false};
ghost use Rattle.message_words.specs.declared.page.Style.TheVariants as style;
ghost use Rattle.std.specs.Option.{option_map};
ghost use Rattle.message_words.specs.Spelled.{FailsAt};
ghost use Rattle.message_lines.specs.Lines.{kind_in, kind_worded, spelled, spelling_asked};

use message_parts::MessageKind;
use message_words::{Spelling, SpellingFault, Style, hex_bytes, printed_bytes};
use std::alloc::Global;

/// How lines spell messages, and what these are.
#[derive(Clone, Copy)]
pub struct Manner {
    /// What each message is; None where it is told by its first bytes.
    pub kind: Option<MessageKind>,
    /// How its bytes are spelled.
    pub spelling: Spelling,
}

/// The kind of messages that a word names.
pub fn kind_worded(word: Option<&str>) -> Option<MessageKind>
    ensures { result ≡ kind_worded (option_map (λ word. word.now) word.entry) }
{
    match word {
        Some("request") => Some(MessageKind::Request),
        Some("answer") => Some(MessageKind::Answer),
        Some("packet") => Some(MessageKind::Packet),
        Some("record") => Some(MessageKind::Record),
        _ => None,
    }
}

/// How bytes are spelled: an input that is one message is not spelled, whatever else is asked.
pub fn spelling_asked(raw: bool, hex: bool) -> Spelling
    ensures { result ≡ spelling_asked raw hex }
{
    match (raw, hex) {
        (true, _) => Spelling::Raw,
        (false, true) => Spelling::Hex,
        (false, false) => Spelling::Printed,
    }
}

/// How messages are described.
pub fn style_asked(json: bool) -> Style
    ensures json { json ≡ true → result ≡ style.Json }
    ensures lines { json ≡ false → result ≡ style.Lines }
{
    if json { Style::Json } else { Style::Lines }
}

impl Manner {
    /// What a message is.
    pub(crate) fn kind_of(self, bytes: &[u8]) -> MessageKind
        ensures { result ≡ kind_in self.kind bytes.now }
    {
        match self.kind {
            Some(kind) => kind,
            None => MessageKind::of(bytes),
        }
    }

    /// The bytes that a line spells. A whole input that is one message is not spelled, so its lines are as printed ones.
    ///
    /// # Errors
    /// The first place at which no byte is spelled; `OutOfMemory`.
    pub(crate) fn bytes_in(self, alloc: Global, line: &[u8]) -> Result<Vec<u8>, SpellingFault>
        ensures { MatchResult result (λ bytes. spelled self.spelling line.now ≡ Ok bytes.items)
            (λ why. FailsAt why (spelled self.spelling line.now)) }
    {
        match self.spelling {
            Spelling::Hex => hex_bytes(alloc, line),
            Spelling::Printed | Spelling::Raw => printed_bytes(alloc, line),
        }
    }
}
