//! Books at rest, as they are written.

ghost use Rattle.std.specs.Prelude.{◌≡◌, ◌≤◌, ◌++◌, length, Ok, IfOk, OnOk};
ghost use Rattle.kept_records.specs.Heads.{book_name, identity_codec, counts_codec};
ghost use Rattle.kept_records.specs.Books.{book_of, book_text, book_in};
ghost use Rattle.kept_records.specs.BookLaws.{FitsBook};

use crate::book_head::BOOK_NAME;
use crate::book_laws::book_reads_back;
use crate::products::put_products;
use crate::rows::put_rows;
use codec::{put_u8, put_u16, put_u32, put_u64};
use payer_book::{Book, BookAtRest, BookSettings, PayerNo, Plan, Row};
use std::alloc::{AllocError, Global};

/// The version that is written.
const WRITTEN: u8 = 2;

/// The text of a book at rest, in version 2. It is read as this book.
pub fn write_book(alloc: Global, book: &BookAtRest) -> Result<Vec<u8>, AllocError>
    ensures text { IfOk result (λ text. text.items ≡ book_text 2 book.now) }
    ensures read { IfOk result (λ text. book_in book.now.payer book.now.settings text.items ≡ Ok book.now) }
{
    book_reads_back();
    write_parts(
        alloc,
        book.payer(),
        book.settings(),
        book.plan(),
        book.rows(),
    )
}

/// The text of the book at rest that stopping this book gives. The book stays at work.
pub fn save_book(alloc: Global, book: &Book) -> Result<Vec<u8>, AllocError>
    ensures text { IfOk result (λ text. text.items ≡ book_text 2 book.now) }
    ensures read { IfOk result (λ text. book_in book.now.payer book.now.settings text.items ≡ Ok book.now) }
{
    book_reads_back();
    write_parts(
        alloc,
        book.payer(),
        book.settings(),
        book.plan(),
        book.rows(),
    )
}

/// The text of the book that has these parts. Each part fits its field.
#[tactic(auto, unfolding(crate::specs::Books::book_text, crate::specs::Heads::book_head_codec))]
fn write_parts(
    alloc: Global,
    payer: PayerNo,
    settings: BookSettings,
    plan: &Plan,
    rows: &[Row],
) -> Result<Vec<u8>, AllocError>
    requires { length rows.now ≤ settings.cap }
    ensures text { IfOk result (λ text. text.items ≡ book_text 2 (book_of payer settings plan.now rows.now)) }
    ensures fits { OnOk result (FitsBook (book_of payer settings plan.now rows.now)) }
{
    let _most = settings.cap();
    let _count = plan.products();
    let mut text = Vec::new(alloc);
    put_identity(&mut text, payer.get(), settings.serial())?;
    put_counts(&mut text, plan, rows.len() as u32)?;
    put_products(&mut text, plan)?;
    put_rows(&mut text, rows)?;
    Ok(text)
}

/// Puts what a head begins with: the name, the version, the payer and the first serial.
fn put_identity(out: &mut Vec<u8>, payer: u16, serial: u64) -> Result<(), AllocError>
    ensures { OnOk result (out.new.items ≡ out.old.items ++ identity_codec.text (book_name, (2, (payer, serial)))) }
{
    put_u16(out, BOOK_NAME)?;
    put_u8(out, WRITTEN)?;
    put_u16(out, payer)?;
    put_u64(out, serial)
}

/// Puts what a head ends with: the fee, the copay, the count of products and the count of rows.
fn put_counts(out: &mut Vec<u8>, plan: &Plan, rows: u32) -> Result<(), AllocError>
    ensures { OnOk result (out.new.items ≡ out.old.items
        ++ counts_codec.text (plan.now.fee, (plan.now.copay, (length plan.now.prices, rows)))) }
{
    put_u32(out, plan.fee())?;
    put_u32(out, plan.copay())?;
    put_u32(out, plan.products() as u32)?;
    put_u32(out, rows)
}
