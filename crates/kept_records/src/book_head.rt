//! The head of a book at rest.

ghost use Rattle.std.specs.Prelude.{◌≡◌, ◌≤◌, IfOk, IfErr, Ok, Err};
ghost use Rattle.std.specs.Option.{option_map};
ghost use Rattle.plan_rules.specs.Terms.{largest};
ghost use Rattle.kept_records.specs.Heads.{book_head_codec};
ghost use Rattle.kept_records.specs.Versions.{is_version};
ghost use Rattle.kept_records.specs.Books.{is_head_of, has_terms, book_head_in};

use crate::fault::RecordFault;
use codec::{take_u8, take_u16, take_u32, take_u64};

/// The two bytes that begin a book, `PB`, as a number (own).
pub(crate) const BOOK_NAME: u16 = 0x5042;

/// Where the products of a book begin: after the 29 bytes of its head.
const PRODUCTS: usize = 29;

/// The largest fee and copay, in cents.
const LARGEST: u32 = 99_999_999;

/// The most products of a plan.
const MOST_PRODUCTS: u32 = 4096;

/// The head of a book: whose it is, what its plan begins with, and how much follows.
#[derive(Clone, Copy)]
pub(crate) struct BookHead {
    pub(crate) name: u16,
    pub(crate) version: u8,
    pub(crate) payer: u16,
    pub(crate) serial: u64,
    pub(crate) fee: u32,
    pub(crate) copay: u32,
    pub(crate) products: u32,
    pub(crate) rows: u32,
}

impl BookHead {
    /// The head at the front and what follows it; none where it is cut off.
    #[tactic(auto, unfolding(crate::specs::Heads::book_head_codec))]
    fn take(bytes: &[u8]) -> Option<(BookHead, &[u8])>
        ensures { option_map (λ taken. (taken.0, taken.1.now)) result ≡ book_head_codec.at bytes.now }
    {
        let (name, rest) = take_u16(bytes)?;
        let (version, rest) = take_u8(rest)?;
        let (payer, rest) = take_u16(rest)?;
        let (serial, rest) = take_u64(rest)?;
        let (fee, rest) = take_u32(rest)?;
        let (copay, rest) = take_u32(rest)?;
        let (products, rest) = take_u32(rest)?;
        let (rows, rest) = take_u32(rest)?;
        let head = BookHead {
            name,
            version,
            payer,
            serial,
            fee,
            copay,
            products,
            rows,
        };
        Some((head, rest))
    }

    /// The head of a book of this payer with this first serial, and what follows it.
    ///
    /// # Errors
    /// In this order: `Short`, `NotABook`, `Version`, and `BadRecord` where no plan has such terms.
    #[tactic(auto, unfolding(crate::specs::Books::book_head_in))]
    pub(crate) fn open(
        bytes: &[u8],
        payer: u16,
        serial: u64,
    ) -> Result<(BookHead, &[u8]), RecordFault>
        ensures ok { IfOk result (λ read. book_head_in payer serial bytes.now ≡ Ok (read.0, read.1.now)) }
        ensures fault { IfErr result (λ e. book_head_in payer serial bytes.now ≡ Err e) }
        ensures fee { IfOk result (λ read. read.0.fee ≤ largest) }
        ensures copay { IfOk result (λ read. read.0.copay ≤ largest) }
    {
        let Some((head, rest)) = BookHead::take(bytes) else {
            return Err(RecordFault::Short);
        };
        if !head.is_of(payer, serial) {
            return Err(RecordFault::NotABook);
        }
        if !head.is_known() {
            return Err(RecordFault::Version);
        }
        if !head.has_terms() {
            return Err(RecordFault::BadRecord(PRODUCTS));
        }
        Ok((head, rest))
    }

    /// Whether it is the head of a book of this payer with this first serial.
    fn is_of(self, payer: u16, serial: u64) -> bool
        ensures { result ≡ is_head_of payer serial self }
    {
        self.name == BOOK_NAME && self.payer == payer && self.serial == serial
    }

    /// Whether it has a version that is read.
    fn is_known(self) -> bool
        ensures { result ≡ is_version self.version }
    {
        self.version == 1 || self.version == 2
    }

    /// Whether a plan may have its fee, its copay and this many products.
    fn has_terms(self) -> bool
        ensures { result ≡ has_terms self }
    {
        self.fee <= LARGEST && self.copay <= LARGEST && self.products <= MOST_PRODUCTS
    }
}
