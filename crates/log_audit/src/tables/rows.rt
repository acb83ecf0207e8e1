//! The rows of a book.

ghost use Rattle.std.specs.Prelude.{◌≡◌, ◌∷◌, [], ◌++◌, codes, None, OnOk, IfOk};
ghost use Rattle.std.specs.List.{flat_map};
ghost use Rattle.claim_profile.specs.Reject.{code_text};
ghost use Rattle.table_text.specs.Adding.{AddsRow, AddsRows};
ghost use Rattle.log_audit.specs.Rulings.{codes_text, at_seen, answered_row, ruling_row, row_rulings, book_rulings, ruled_at};
ghost use Rattle.log_audit.specs.Outgoing.{PutsRows};

use crate::outgoing::{Outgoing, TextSink};
use crate::tables::kinds::{date_of, kind_of};
use claim_profile::{Code, Ruling};
use envelope::TxnId;
use payer_book::{Book, Row};
use std::alloc::{AllocError, Global};
use table_text::{Field, Style, put_row};

/// Which transaction of which request a ruling is about.
#[derive(Clone, Copy)]
pub(crate) struct RuledAt<'a> {
    pub(crate) payer: u64,
    pub(crate) pharmacy: u64,
    pub(crate) number: u64,
    pub(crate) kind: &'static [u8],
    pub(crate) transaction: u64,
    pub(crate) date: &'a [u8],
}

/// What is told of an answer beside its ruling: the prescription (402-D2), and the total (509-F9) of a payment that it made.
#[derive(Clone, Copy)]
struct RulingCells {
    prescription: Option<u64>,
    paid: Option<u64>,
}

/// Appends a row for each transaction of each row of a book, oldest first.
pub(crate) fn put_book_rulings<K: TextSink + Drop>(
    out: &mut Outgoing<K>,
    style: Style,
    book: &Book,
) -> Result<(), AllocError>
    ensures { OnOk result (PutsRows style out.old out.new (book_rulings book.now)) }
{
    let mut rows = out.piece();
    for row in book.rows() {
        rows.clear();
        put_row_rulings(&mut rows, style, book, row)?;
        out.put(rows.as_slice())?;
    }
    Ok(())
}

/// Appends a row for each transaction of a row.
fn put_row_rulings(
    out: &mut Vec<u8>,
    style: Style,
    book: &Book,
    row: &Row,
) -> Result<(), AllocError>
    ensures { OnOk result (AddsRows style out.old out.new (row_rulings book.now row.now)) }
{
    let (payer, id) = (book.payer().get(), row.id());
    let kind = kind_of(row);
    let date = date_of(row);
    let rulings = row.rulings();
    for (passed, ruling) in rulings.iter().enumerate() {
        put_ruling(
            out,
            style,
            &ruled_at(payer, id, kind, passed as u64 + 1, &date),
            ruling,
        )?;
    }
    Ok(())
}

/// Which transaction of which request it is.
fn ruled_at<'a>(
    payer: u16,
    id: TxnId,
    kind: &'static [u8],
    transaction: u64,
    date: &'a [u8],
) -> RuledAt<'a>
    ensures { at_seen result ≡ ruled_at payer id kind.now transaction date.now }
{
    RuledAt {
        payer: u64::from(payer),
        pharmacy: u64::from(id.pharmacy()),
        number: id.number(),
        kind,
        transaction,
        date,
    }
}

/// Appends the row of a ruling.
fn put_ruling(
    out: &mut Vec<u8>,
    style: Style,
    at: &RuledAt<'_>,
    ruling: &Ruling,
) -> Result<(), AllocError>
    ensures { OnOk result (AddsRow style out.old out.new (ruling_row (at_seen at.now) ruling.now)) }
{
    match *ruling {
        Ruling::Paid {
            auth,
            prescription,
            amounts,
        } => {
            let told = RulingCells {
                prescription: Some(prescription),
                paid: Some(u64::from(amounts.total())),
            };
            put_answered(out, style, at, b"paid", &auth.digits(), b"", told)
        }
        Ruling::Duplicate {
            auth,
            prescription,
            ..
        } => {
            let told = unpaid(Some(prescription));
            put_answered(out, style, at, b"duplicate", &auth.digits(), b"", told)
        }
        Ruling::Reversed { auth, prescription } => {
            let told = unpaid(Some(prescription));
            put_answered(out, style, at, b"reversed", &auth.digits(), b"", told)
        }
        Ruling::Rejected { rejects } => put_rejected(out, style, at, rejects.as_slice()),
    }
}

/// What is told of an answer that made no payment.
fn unpaid(prescription: Option<u64>) -> RulingCells
    ensures { result ≡ record { prescription = prescription; paid = None } }
{
    RulingCells {
        prescription,
        paid: None,
    }
}

/// Appends the row of a rejected transaction.
fn put_rejected(
    out: &mut Vec<u8>,
    style: Style,
    at: &RuledAt<'_>,
    rejects: &[Code],
) -> Result<(), AllocError>
    ensures { OnOk result (AddsRow style out.old out.new
        (answered_row (at_seen at.now) (codes "rejected") [] (codes_text rejects.now) None None)) }
{
    let told = codes_text(*out.allocator(), rejects)?;
    put_answered(
        out,
        style,
        at,
        b"rejected",
        b"",
        told.as_slice(),
        unpaid(None),
    )
}

/// Appends the row of a transaction that was answered like this.
#[tactic(auto, unfolding(crate::specs::Rulings::answered_row))]
fn put_answered(
    out: &mut Vec<u8>,
    style: Style,
    at: &RuledAt<'_>,
    ruling: &'static [u8],
    authorization: &[u8],
    rejects: &[u8],
    told: RulingCells,
) -> Result<(), AllocError>
    ensures { OnOk result (AddsRow style out.old out.new
        (answered_row (at_seen at.now) ruling.now authorization.now rejects.now told.prescription told.paid)) }
{
    let fields = [
        Field::number(b"payer", at.payer),
        Field::number(b"pharmacy", at.pharmacy),
        Field::number(b"number", at.number),
        Field::word(b"kind", at.kind),
        Field::number(b"transaction", at.transaction),
        Field::word(b"ruling", ruling),
        Field::text(b"authorization", authorization),
        Field::text(b"reject_codes", rejects),
        Field::number_or_nothing(b"prescription", told.prescription),
        Field::text(b"date_of_service", at.date),
        Field::number_or_nothing(b"paid_cents", told.paid),
    ];
    put_row(out, style, &fields)
}

/// Reject codes with a space after each but the last.
fn codes_text(alloc: Global, rejects: &[Code]) -> Result<Vec<u8>, AllocError>
    ensures { IfOk result (λ text. text.items ≡ codes_text rejects.now) }
{
    let mut text = Vec::new(alloc);
    let [first, others @ ..] = rejects else {
        return Ok(text);
    };
    text.extend_from_slice(first.text())?;
    put_more_codes(&mut text, others)?;
    Ok(text)
}

/// Appends codes with a space before each.
fn put_more_codes(text: &mut Vec<u8>, rejects: &[Code]) -> Result<(), AllocError>
    ensures { OnOk result (text.new.items ≡ text.old.items ++ flat_map (λ code. 32 ∷ code_text code) rejects.now) }
{
    for code in rejects {
        text.push(b' ')?;
        text.extend_from_slice(code.text())?;
    }
    Ok(())
}
