//! Transmissions that are not framed, as they are told.

ghost use Rattle.std.specs.Prelude.{◌≡◌, [], ◌∷◌, ◌++◌, codes, length, min, false};
ghost use Rattle.message_words.specs.Encoded.{spaces};
ghost use Rattle.message_words.specs.Facts.{Number, Words, filled, given_row, of_row, says_of};
ghost use Rattle.message_words.specs.FaultWords.{caret_below, fault_at_said, fault_facts, fault_said, framing_said, framing_told, header_told, place_in, shown_around, shown_before, told_at, told_of, told_seen};
ghost use Rattle.message_words.specs.Sayings.{Finds};
ghost use Rattle.message_words.specs.Written.{Takes};
ghost use Rattle.message_words.specs.declared.sentences.TheConstants.{OTHER_COUNT};

use crate::facts::{Fact, fill};
use crate::finding_page::FindingPage;
use crate::page::Style;
use crate::sentences::{NOT_FRAMED, NOT_FRAMED_AT, OTHER_COUNT, Sentence};
use crate::text::Text;
use d0_header::HeaderFault;
use d0_segments::FramingFault;
use message_parts::{behind, front_of};

/// How many bytes before and after a fault are shown.
const AROUND: usize = 24;

/// A fault: how it is called, what is wrong, and its place, where it has one.
#[derive(Clone, Copy)]
pub(crate) struct Told {
    pub(crate) name: &'static str,
    pub(crate) words: &'static str,
    pub(crate) at: Option<usize>,
}

impl Told {
    /// A fault without a place.
    pub(crate) fn of(name: &'static str, words: &'static str) -> Told
        ensures { told_seen result ≡ told_of name.now words.now }
    {
        let at = None;
        Told { name, words, at }
    }

    /// A fault at a place.
    pub(crate) fn at(name: &'static str, words: &'static str, at: usize) -> Told
        ensures { told_seen result ≡ told_at name.now words.now at }
    {
        let at = Some(at);
        Told { name, words, at }
    }
}

impl FindingPage {
    /// Writes that a transmission at a place of the message is not framed: the first fault, its place, and the bytes
    /// around it.
    pub(crate) fn framing_fault(&mut self, fault: FramingFault, bytes: &[u8], place: usize)
        ensures { Finds (framing_said place bytes.now fault ∷ []) self.old self.new }
    {
        match fault {
            FramingFault::CountMismatch { said, found } => {
                self.count_fault(u64::from(said), found as u64);
            }
            _ => self.fault(NOT_FRAMED, NOT_FRAMED_AT, framing_told(fault), bytes, place),
        }
    }

    /// Writes that the header says another count than there are groups.
    fn count_fault(&mut self, said: u64, found: u64)
        ensures { Finds (says_of (of_row OTHER_COUNT) (Number said ∷ Number found ∷ []) ∷ []) self.old self.new }
    {
        self.tell(OTHER_COUNT, &[Fact::Number(said), Fact::Number(found)]);
    }

    /// Writes a fault, in one sentence where it has no place, else in the other; of bytes that stand at a place of the
    /// message.
    pub(crate) fn fault(
        &mut self,
        anywhere: Sentence,
        somewhere: Sentence,
        told: Told,
        bytes: &[u8],
        place: usize,
    )
        ensures { Finds (fault_said (given_row anywhere.entry) (given_row somewhere.entry) place bytes.now
            (told_seen told) ∷ []) self.old self.new }
    {
        match told.at {
            Some(at) => self.fault_at(somewhere, told, bytes, Place { at, place }),
            None => self.fault_anywhere(anywhere, told),
        }
    }

    /// Writes a fault without a place.
    #[tactic(auto, unfolding(crate::specs::FaultWords::fault_said_at))]
    fn fault_anywhere(&mut self, sentence: Sentence, told: Told)
        ensures { Finds (says_of (given_row sentence.entry)
            (Words (told_seen told).name ∷ Words (told_seen told).words ∷ []) ∷ []) self.old self.new }
    {
        self.tell(
            sentence,
            &[
                Fact::Words(told.name.as_bytes()),
                Fact::Words(told.words.as_bytes()),
            ],
        );
    }

    /// Writes a fault at a place of a transmission, which itself stands at a place of the message.
    #[tactic(auto, unfolding(crate::specs::FaultWords::fault_said_at))]
    fn fault_at(&mut self, sentence: Sentence, told: Told, bytes: &[u8], place: Place)
        ensures { Finds (fault_at_said (given_row sentence.entry) place.place bytes.now (told_seen told) place.at ∷ [])
            self.old self.new }
    {
        self.begin_finding();
        let here = place.here();
        let caret = self.around.show(place.at, bytes);
        put_fault_at(
            &mut self.members,
            Style::Json,
            sentence.1,
            told,
            here,
            self.around.as_slice(),
            caret,
        );
        put_fault_at(
            &mut self.note,
            Style::Lines,
            sentence.2,
            told,
            here,
            self.around.as_slice(),
            caret,
        );
        put_caret(&mut self.below, self.around.as_slice(), caret);
        self.end_finding(sentence.0);
    }
}

/// A place in a transmission, and the place of the transmission in the message.
#[derive(Clone, Copy)]
struct Place {
    at: usize,
    place: usize,
}

impl Place {
    /// The place in the message.
    fn here(self) -> u64
        ensures { result ≡ place_in self.at self.place }
    {
        self.at.saturating_add(self.place) as u64
    }
}

impl Text {
    /// Becomes the bytes around a place as they are printed, and tells how many letters stand before it.
    fn show(&mut self, at: usize, bytes: &[u8]) -> usize
        ensures text { self.new.refused ≡ false → (self.old.refused ≡ false)
            × (self.new.bytes.items ≡ shown_around at bytes.now) × (result ≡ length (shown_before at bytes.now)) }
    {
        let front = front_of(bytes, at);
        self.clear();
        self.printed(behind(front, front.len().saturating_sub(AROUND)));
        let caret = self.len();
        self.printed(front_of(behind(bytes, at), AROUND));
        caret
    }
}

/// Writes a text with what is known of a fault at a place.
fn put_fault_at(
    out: &mut Text,
    style: Style,
    text: &str,
    told: Told,
    here: u64,
    around: &[u8],
    caret: usize,
)
    ensures { Takes (filled style (fault_facts (told_seen told) here around.now caret) false text.now) out.old out.new }
{
    let facts = [
        Fact::Words(told.name.as_bytes()),
        Fact::Words(told.words.as_bytes()),
        Fact::Number(here),
        Fact::Words(around),
        Fact::Number(caret as u64),
    ];
    fill(out, style, &facts, text.as_bytes());
}

/// Writes bytes around a fault, and below them a caret.
fn put_caret(out: &mut Text, around: &[u8], caret: usize)
    ensures { Takes (caret_below around.now caret) out.old out.new }
{
    out.worded("\n    ", around);
    put_spaced(out, caret);
}

/// Writes a caret after this many spaces.
fn put_spaced(out: &mut Text, caret: usize)
    ensures { Takes (codes "\n    " ++ spaces (min caret 128) ++ codes "^") out.old out.new }
{
    out.put("\n    ");
    out.spaces(caret);
    out.put("^");
}

/// A fault of framing, but for that of the count.
fn framing_told(fault: FramingFault) -> Told
    ensures { told_seen result ≡ framing_told fault }
{
    match fault {
        FramingFault::Header(fault) => told_of_header(fault),
        FramingFault::NoSegmentStart(at) => Told::at("NoSegmentStart", "no segment starts", at),
        FramingFault::NoSegmentId(at) => Told::at(
            "NoSegmentId",
            "a segment has no identification (111-AM) of two bytes",
            at,
        ),
        FramingFault::BadFieldId(at) => {
            Told::at("BadFieldId", "a field has no identifier of two bytes", at)
        }
        FramingFault::EmptyGroup(at) => {
            Told::at("EmptyGroup", "a transaction has no segment", at)
        }
        FramingFault::OutOfMemory | FramingFault::CountMismatch { said: _, found: _ } => {
            Told::of("OutOfMemory", "out of memory")
        }
    }
}

/// A fault of a header.
fn told_of_header(fault: HeaderFault) -> Told
    ensures { told_seen result ≡ header_told fault }
{
    match fault {
        HeaderFault::Short => Told::of("Short", "the header is cut off"),
        HeaderFault::BadBin => Told::of("BadBin", "the BIN number (101-A1) is not six digits"),
        HeaderFault::BadCount => {
            Told::of("BadCount", "the transaction count (109-A9) is not 1 to 4")
        }
        HeaderFault::DateNotDigits => Told::of(
            "DateNotDigits",
            "the date of service (401-D1) is not eight digits",
        ),
        HeaderFault::Separator(at) => {
            Told::at("Separator", "a separator stands in the header", at)
        }
    }
}
