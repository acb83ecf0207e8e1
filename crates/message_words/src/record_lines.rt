//! What is found of a journal or a book at rest, as it is written.

ghost use Rattle.std.specs.Prelude.{◌≡◌, ◌<◌, [], ◌∷◌, length, IfOk, IfSome};
ghost use Rattle.bin_routes.specs.Payer.{payer_number};
ghost use Rattle.payer_book.specs.Settings.{settings_of as book_settings};
ghost use Rattle.kept_records.specs.Books.{book_in};
ghost use Rattle.kept_records.specs.Journals.{journal_in};
ghost use Rattle.message_words.specs.FaultWords.{told_seen};
ghost use Rattle.message_words.specs.RecordWords.{
  book_read_said,
  book_said,
  book_under,
  identity_at,
  identity_in,
  identity_seen,
  journal_read_said,
  journal_said,
  journal_under,
  no_head_said,
  party_in,
  record_fault_said,
  record_said,
  record_told,
  serial_in,
  stated_settings,
};
ghost use Rattle.message_words.specs.Sayings.{Finds};

use crate::facts::Fact;
use crate::fault_lines::Told;
use crate::finding_page::FindingPage;
use crate::sentences::{BOOK, JOURNAL, NO_RECORD, NO_RECORD_AT};
use d0_header::{RequestHeader, request_text_laws};
use kept_records::{RecordFault, read_book, read_journal};
use message_parts::{Carried, behind, is_book, number_at};
use payer_book::{BookAtRest, BookSettings, PayerNo};
use pharmacy_journal::{JournalAtRest, PharmacySettings};
use std::alloc::{AllocError, Global};

/// The most entries or rows that settings may allow.
const CAP: u32 = 65_536;

impl FindingPage {
    /// Writes what a record is, or why it is none. The number, the first serial and the provider that settings would
    /// give are taken from the record itself.
    #[tactic(auto, unfolding(crate::specs::RecordWords::record_said))]
    pub(crate) fn record(&mut self, alloc: Global, bytes: &[u8], carried: &[Carried])
        ensures { Finds (record_said bytes.now carried.now ∷ []) self.old self.new }
    {
        if is_book(bytes) {
            self.book(alloc, bytes);
        } else {
            self.journal(alloc, bytes, identity_in(bytes, carried));
        }
    }

    /// Writes what a book is.
    fn book(&mut self, alloc: Global, bytes: &[u8])
        ensures { Finds (book_under bytes.now (payer_number (party_in bytes.now))
            (book_settings (serial_in bytes.now) 65536) ∷ []) self.old self.new }
    {
        let settings = BookSettings::new(number_at(bytes, 5, 8), CAP);
        match (PayerNo::new(party_in(bytes)), settings) {
            (Some(payer), Ok(settings)) => self.book_under(alloc, bytes, payer, settings),
            _ => self.no_head(bytes, 29),
        }
    }

    /// Writes what a book is of a payer, under settings.
    fn book_under(&mut self, alloc: Global, bytes: &[u8], payer: PayerNo, settings: BookSettings)
        ensures { Finds (book_read_said bytes.now (book_in payer settings bytes.now) ∷ []) self.old self.new }
    {
        match read_book(alloc, bytes, payer, settings) {
            Ok(book) => self.read_as_book(&book),
            Err(RecordFault::OutOfMemory) => self.refuse(),
            Err(fault) => self.record_fault(fault, bytes),
        }
    }

    /// Writes that a message has no head that a record may have: it is too short, or names what no settings name.
    fn no_head(&mut self, bytes: &[u8], size: usize)
        ensures { Finds (no_head_said size bytes.now ∷ []) self.old self.new }
    {
        if bytes.len() < size {
            self.record_fault(RecordFault::Short, bytes);
        } else {
            self.record_fault(RecordFault::NotABook, bytes);
        }
    }

    /// Writes that a record reads as a book.
    fn read_as_book(&mut self, book: &BookAtRest)
        ensures { Finds (book_said book.now.payer (length book.now.rows) ∷ []) self.old self.new }
    {
        let payer = u64::from(book.payer().get());
        self.book_of(payer, book.rows().len() as u64);
    }

    /// Writes whose book a record is, and how many rows it has.
    fn book_of(&mut self, payer: u64, rows: u64)
        ensures { Finds (book_said payer rows ∷ []) self.old self.new }
    {
        self.tell(BOOK, &[Fact::Number(payer), Fact::Number(rows)]);
    }

    /// Writes what a journal is.
    #[tactic(auto, unfolding(crate::specs::RecordWords::journal_under), using(crate::proofs::Sayings::refused))]
    fn journal(&mut self, alloc: Global, bytes: &[u8], identity: Provider)
        ensures { Finds (journal_under bytes.now (party_in bytes.now) (identity_seen identity) ∷ []) self.old self.new }
    {
        let number = party_in(bytes);
        if number == 0 {
            self.no_head(bytes, 9);
            return;
        }
        match settings_of(alloc, identity) {
            Ok(Some(settings)) => self.journal_under(alloc, bytes, number, settings),
            Ok(None) => self.no_head(bytes, 9),
            Err(_) => self.refuse(),
        }
    }

    /// Writes what a journal is under settings.
    fn journal_under(
        &mut self,
        alloc: Global,
        bytes: &[u8],
        number: u16,
        settings: PharmacySettings,
    )
        requires some_number { 0 < number }
        requires some_node { 0 < length settings.nodes }
        ensures { Finds (journal_read_said bytes.now (journal_in number settings bytes.now) ∷ []) self.old self.new }
    {
        match read_journal(alloc, bytes, number, settings) {
            Ok(journal) => self.read_as_journal(&journal),
            Err(RecordFault::OutOfMemory) => self.refuse(),
            Err(fault) => self.record_fault(fault, bytes),
        }
    }

    /// Writes that a record reads as a journal.
    fn read_as_journal(&mut self, journal: &JournalAtRest)
        ensures { Finds (journal_said journal.now.number (length journal.now.entries) ∷ []) self.old self.new }
    {
        let pharmacy = u64::from(journal.number());
        self.journal_of(pharmacy, journal.entries() as u64);
    }

    /// Writes whose journal a record is, and how many entries it has.
    fn journal_of(&mut self, pharmacy: u64, entries: u64)
        ensures { Finds (journal_said pharmacy entries ∷ []) self.old self.new }
    {
        self.tell(JOURNAL, &[Fact::Number(pharmacy), Fact::Number(entries)]);
    }

    /// Writes why a message is no record.
    fn record_fault(&mut self, fault: RecordFault, bytes: &[u8])
        ensures { Finds (record_fault_said bytes.now fault ∷ []) self.old self.new }
    {
        self.fault(NO_RECORD, NO_RECORD_AT, record_told(fault), bytes, 0);
    }
}

/// Why bytes are no record.
fn record_told(fault: RecordFault) -> Told
    ensures { told_seen result ≡ record_told fault }
{
    match fault {
        RecordFault::OutOfMemory => Told::of("OutOfMemory", "out of memory"),
        RecordFault::Short => Told::of(
            "Short",
            "it is shorter than a head, 9 bytes of a journal and 29 of a book",
        ),
        RecordFault::Version => Told::of("Version", "its version is none that is read"),
        RecordFault::NotABook => Told::of(
            "NotABook",
            "its letters are neither PJ nor PB, or its number or first serial is none",
        ),
        RecordFault::BadRecord(at) => Told::at(
            "BadRecord",
            "a rule, a product, an entry or a row is cut off or cannot stand there, or bytes follow the last one",
            at,
        ),
        RecordFault::NumberOrder(at) => {
            Told::at("NumberOrder", "an entry has not the next number", at)
        }
    }
}

/// The number of the pharmacy or the payer of a record; 0 where none may have it.
fn party_in(bytes: &[u8]) -> u16
    ensures { result ≡ party_in bytes.now }
{
    match u16::try_from(number_at(bytes, 3, 2)) {
        Ok(number) => number,
        Err(_) => 0,
    }
}

/// A provider by its qualifier and its number.
#[derive(Clone, Copy)]
struct Provider {
    qualifier: [u8; 2],
    provider: [u8; 15],
}

/// Settings under which a journal may have the rule and the entries that it has, of this provider. None where it has a
/// separator.
fn settings_of(alloc: Global, identity: Provider) -> Result<Option<PharmacySettings>, AllocError>
    ensures settings { IfOk result (λ o. o ≡ stated_settings (identity_seen identity)) }
    ensures node { IfOk result (λ settings. IfSome settings (λ s. 0 < length s.nodes)) }
{
    let nodes = one_node(alloc)?;
    match PharmacySettings::new(identity.qualifier, identity.provider, nodes, 1, 1, CAP) {
        Ok(settings) => Ok(Some(settings)),
        Err(_) => Ok(None),
    }
}

/// A list of one switch: number 0, which no switch has. A rule that is written in a record is another one than that of the
/// settings, and theirs are not known: so these name a switch that no rule has.
fn one_node(alloc: Global) -> Result<Vec<u16>, AllocError>
    ensures { IfOk result (λ nodes. nodes.items ≡ 0 ∷ []) }
{
    let mut nodes = Vec::new(alloc);
    nodes.push(0)?;
    Ok(nodes)
}

/// The provider of the first request, and spaces where it has none.
fn identity_in(bytes: &[u8], carried: &[Carried]) -> Provider
    ensures { identity_seen result ≡ identity_in bytes.now carried.now }
{
    match carried {
        [first, ..] => identity_at(behind(bytes, first.place)),
        [] => identity_at(b""),
    }
}

/// The provider of a request, and spaces where it has no header.
fn identity_at(bytes: &[u8]) -> Provider
    ensures { identity_seen result ≡ identity_at bytes.now }
{
    request_text_laws();
    match RequestHeader::read(bytes) {
        Ok(header) => Provider {
            qualifier: header.qualifier(),
            provider: header.provider(),
        },
        Err(_) => Provider {
            qualifier: [b' '; 2],
            provider: [b' '; 15],
        },
    }
}
