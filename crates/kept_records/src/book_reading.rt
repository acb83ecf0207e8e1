//! Books at rest, as they are read.

ghost use Rattle.std.specs.Prelude.{◌≡◌, ◌≤◌, pos, Ok, IfOk};
ghost use Rattle.plan_rules.specs.Terms.{largest};
ghost use Rattle.kept_records.specs.Faults.{RefusesAs};
ghost use Rattle.kept_records.specs.Books.{book_in, first_plan};
ghost use Rattle.kept_records.specs.BookLaws.{IsTextOf};

use crate::book_head::BookHead;
use crate::book_laws::book_is_its_text;
use crate::fault::RecordFault;
use crate::products::read_products;
use crate::rows::read_rows;
use claim_profile::Amount;
use payer_book::{BookAtRest, BookSettings, HashKeys, PayerNo, Plan};
use std::alloc::Global;

/// The book of this payer with these settings that the bytes are, all of the bytes.
///
/// Version 2 is read, and version 1 where every request has exactly one transaction. A row stands where `BookAtRest::add`
/// takes it, so a Paid ruling may have any amounts. Its maps hash with keys that are the same in every program.
///
/// # Errors
/// In this order: `Short`, `NotABook`, `Version`, `BadRecord` at 29 where no plan has such a fee, such a copay or this many
/// products, and then `BadRecord` at the first product or row that cannot stand there, or at the first byte after the
/// last row. `OutOfMemory` may stand in place of any answer.
pub fn read_book(
    alloc: Global,
    bytes: &[u8],
    payer: PayerNo,
    settings: BookSettings,
) -> Result<BookAtRest, RecordFault>
    ensures ok { IfOk result (λ book. book_in payer settings bytes.now ≡ Ok book) }
    ensures fault { RefusesAs (book_in payer settings bytes.now) result }
    // What is read can be made, and the bytes are its text.
    ensures found { IfOk result (λ book. IsTextOf payer settings bytes.now book) }
{
    read_book_keyed(alloc, bytes, payer, settings, &HashKeys::fixed())
}

/// The same, and the maps of the book hash with these keys.
///
/// # Errors
/// Those of `read_book`.
pub fn read_book_keyed(
    alloc: Global,
    bytes: &[u8],
    payer: PayerNo,
    settings: BookSettings,
    keys: &HashKeys,
) -> Result<BookAtRest, RecordFault>
    ensures ok { IfOk result (λ book. book_in payer settings bytes.now ≡ Ok book) }
    ensures fault { RefusesAs (book_in payer settings bytes.now) result }
    // What is read can be made, and the bytes are its text.
    ensures found { IfOk result (λ book. IsTextOf payer settings bytes.now book) }
{
    book_is_its_text();
    read_parts(alloc, bytes, payer, settings, keys)
}

/// The same, part by part.
#[tactic(auto, unfolding(crate::specs::Books::book_in))]
fn read_parts(
    alloc: Global,
    bytes: &[u8],
    payer: PayerNo,
    settings: BookSettings,
    keys: &HashKeys,
) -> Result<BookAtRest, RecordFault>
    ensures ok { IfOk result (λ book. book_in payer settings bytes.now ≡ Ok book) }
    ensures fault { RefusesAs (book_in payer settings bytes.now) result }
{
    let total = bytes.len();
    let (head, rest) = BookHead::open(bytes, payer.get(), settings.serial())?;
    let plan = plan_of(alloc, head);
    let (plan, rest) = read_products(total, head.products, plan, rest)?;
    let book = BookAtRest::keyed(alloc, payer, settings, plan, keys);
    read_rows(alloc, head.version, total, head.rows, book, rest)
}

/// The plan without products that a head tells.
fn plan_of(alloc: Global, head: BookHead) -> Plan
    requires fee { head.fee ≤ largest }
    requires copay { head.copay ≤ largest }
    ensures { result ≡ first_plan head }
{
    match Plan::new(alloc, amount(head.fee), amount(head.copay)) {
        Ok(plan) => plan,
        Err(_) => unreachable!(),
    }
}

/// The amount of this many cents.
fn amount(cents: u32) -> Amount
    requires { cents ≤ largest }
    ensures { result ≡ pos cents }
{
    Amount::new(i64::from(cents)).unwrap()
}
