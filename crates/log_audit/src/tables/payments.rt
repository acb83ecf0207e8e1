//! The payments of a book.

ghost use Rattle.std.specs.Prelude.{◌≡◌, ◌≤◌, OnOk};
ghost use Rattle.pharmacy_journal.specs.Counting.{has_auth};
ghost use Rattle.table_text.specs.Adding.{AddsRow, AddsRows};
ghost use Rattle.log_audit.specs.Adding.{TellsRows};
ghost use Rattle.log_audit.specs.Payments.{state_word, reversing, shown_seen, texts_seen, fill_shown, cents_of, shown_row, payment_row, found_payment, ruling_payment, row_payments, book_payments};
ghost use Rattle.log_audit.specs.Outgoing.{TellsPut};

use crate::outgoing::{Outgoing, TextSink};
use crate::tables::claims;
use crate::tables::claims::{ClaimTexts, claim_of};
use crate::tables::kinds::date_of;
use claim_profile::{Amounts, Auth, Claim, Fill, Ruling};
use envelope::TxnId;
use payer_book::{Book, PaymentView, Row};
use std::alloc::AllocError;
use std::collections::BTreeSet;
use table_text::{Field, Style, put_row};

/// Where a payment was made: which transaction of which request, its authorization, its date of service (401-D1), and the
/// billing.
#[derive(Drop)]
pub(crate) struct PaidAt {
    pub(crate) payer: u16,
    pub(crate) id: TxnId,
    pub(crate) transaction: u64,
    pub(crate) auth: Auth,
    pub(crate) date: [u8; 8],
    pub(crate) claim: Option<Claim>,
}

/// What is told of a payment.
#[derive(Clone, Copy)]
pub(crate) struct Shown<'a> {
    pub(crate) payer: u64,
    pub(crate) pharmacy: u64,
    pub(crate) number: u64,
    pub(crate) transaction: u64,
    pub(crate) authorization: &'a [u8],
    pub(crate) state: &'static [u8],
    pub(crate) reversed_by: Option<u64>,
    pub(crate) counted: bool,
    pub(crate) fill: FillTexts<'a>,
    pub(crate) date: &'a [u8],
    pub(crate) cents: Cents,
    pub(crate) claim: ClaimTexts<'a>,
}

/// A fill, by its fields.
#[derive(Clone, Copy)]
pub(crate) struct FillTexts<'a> {
    pub(crate) bin: &'a [u8],
    pub(crate) pcn: &'a [u8],
    pub(crate) qualifier: &'a [u8],
    pub(crate) provider: &'a [u8],
    pub(crate) prescription: u64,
    pub(crate) number: u64,
}

/// Amounts in cents.
#[derive(Clone, Copy)]
pub(crate) struct Cents {
    pub(crate) cost: u64,
    pub(crate) fee: u64,
    pub(crate) copay: u64,
    pub(crate) paid: u64,
}

/// Appends a row for each payment of a book, in the order in which they were made.
pub(crate) fn put_book_payments<K: TextSink + Drop>(
    out: &mut Outgoing<K>,
    style: Style,
    book: &Book,
    counted: &BTreeSet<Auth>,
) -> Result<(), AllocError>
    ensures { TellsPut style out.old out.new (λ ctx. book_payments ctx (has_auth counted.now.keys) book.now) result }
{
    let mut rows = out.piece();
    for row in book.rows() {
        rows.clear();
        put_row_payments(&mut rows, style, book, counted, row)?;
        out.put(rows.as_slice())?;
    }
    Ok(())
}

/// Appends a row for each payment that a row of the book made.
fn put_row_payments(
    out: &mut Vec<u8>,
    style: Style,
    book: &Book,
    counted: &BTreeSet<Auth>,
    row: &Row,
) -> Result<(), AllocError>
    ensures { TellsRows style out.old out.new
        (λ ctx. row_payments ctx (has_auth counted.now.keys) book.now row.now) result }
{
    let rulings = row.rulings();
    for (passed, ruling) in rulings.iter().enumerate() {
        put_ruling_payment(out, style, book, counted, row, passed as u64 + 1, ruling)?;
    }
    Ok(())
}

/// Appends a row for the payment that a ruling made; nothing for another ruling.
#[tactic(auto, using(crate::proofs::Joining::no_rows))]
fn put_ruling_payment(
    out: &mut Vec<u8>,
    style: Style,
    book: &Book,
    counted: &BTreeSet<Auth>,
    row: &Row,
    transaction: u64,
    ruling: &Ruling,
) -> Result<(), AllocError>
    requires { 1 ≤ transaction }
    ensures { TellsRows style out.old out.new
        (λ ctx. ruling_payment ctx (has_auth counted.now.keys) book.now row.now transaction ruling.now) result }
{
    match *ruling {
        Ruling::Paid { auth, .. } => {
            let at = PaidAt {
                payer: book.payer().get(),
                id: row.id(),
                transaction,
                auth,
                date: date_of(row),
                claim: claim_of(row.request(), transaction),
            };
            put_found(out, style, &at, book.payment(auth), counted.contains(&auth))
        }
        Ruling::Duplicate { .. } => Ok(()),
        Ruling::Reversed { .. } => Ok(()),
        Ruling::Rejected { .. } => Ok(()),
    }
}

/// Appends the row of a payment, where there is one.
#[tactic(auto, using(crate::proofs::Joining::no_rows))]
fn put_found(
    out: &mut Vec<u8>,
    style: Style,
    at: &PaidAt,
    found: Option<PaymentView>,
    counted: bool,
) -> Result<(), AllocError>
    ensures { OnOk result (AddsRows style out.old out.new (found_payment at.now counted found)) }
{
    match found {
        Some(payment) => put_payment(out, style, at, &payment, counted),
        None => Ok(()),
    }
}

/// Appends the row of a payment.
fn put_payment(
    out: &mut Vec<u8>,
    style: Style,
    at: &PaidAt,
    payment: &PaymentView,
    counted: bool,
) -> Result<(), AllocError>
    ensures { OnOk result (AddsRow style out.old out.new (payment_row at.now counted payment.now)) }
{
    let digits = at.auth.digits();
    let shown = Shown {
        payer: u64::from(at.payer),
        pharmacy: u64::from(at.id.pharmacy()),
        number: at.id.number(),
        transaction: at.transaction,
        authorization: &digits,
        state: state_word(payment.reversed_by.is_some()),
        reversed_by: reversing(payment.reversed_by),
        counted,
        fill: texts_of(&payment.fill),
        date: &at.date,
        cents: cents_of(payment.amounts),
        claim: claims::texts_of(&at.claim),
    };
    put_shown(out, style, &shown)
}

/// Appends the row of what is told of a payment.
#[tactic(auto, unfolding(crate::specs::Payments::shown_row))]
fn put_shown(out: &mut Vec<u8>, style: Style, shown: &Shown<'_>) -> Result<(), AllocError>
    ensures { OnOk result (AddsRow style out.old out.new (shown_row (shown_seen shown.now))) }
{
    let fill = shown.fill;
    let cents = shown.cents;
    let claim = shown.claim;
    let fields = [
        Field::number(b"payer", shown.payer),
        Field::number(b"pharmacy", shown.pharmacy),
        Field::number(b"number", shown.number),
        Field::number(b"transaction", shown.transaction),
        Field::text(b"authorization", shown.authorization),
        Field::word(b"state", shown.state),
        Field::number_or_nothing(b"reversed_by", shown.reversed_by),
        Field::flag(b"counted", shown.counted),
        Field::text(b"bin", fill.bin),
        Field::text(b"processor_control_number", fill.pcn),
        Field::text(b"provider_qualifier", fill.qualifier),
        Field::text(b"provider", fill.provider),
        Field::number(b"prescription", fill.prescription),
        Field::number(b"fill", fill.number),
        Field::text(b"date_of_service", shown.date),
        Field::number(b"cost_cents", cents.cost),
        Field::number(b"fee_cents", cents.fee),
        Field::number(b"copay_cents", cents.copay),
        Field::number(b"paid_cents", cents.paid),
        Field::text(b"cardholder", claim.cardholder),
        Field::text(b"product", claim.product),
        Field::number_or_nothing(b"quantity_thousandths", claim.quantity),
        Field::number_or_nothing(b"submitted_cost_cents", claim.cost),
        Field::number_or_nothing(b"submitted_fee_cents", claim.fee),
    ];
    put_row(out, style, &fields)
}

/// A fill by its fields.
fn texts_of(fill: &Fill) -> FillTexts<'_>
    ensures { texts_seen result ≡ fill_shown fill.now }
{
    FillTexts {
        bin: &fill.bin,
        pcn: &fill.pcn,
        qualifier: &fill.qualifier,
        provider: &fill.provider,
        prescription: fill.prescription,
        number: u64::from(fill.fill),
    }
}

/// Amounts in cents.
fn cents_of(amounts: Amounts) -> Cents
    ensures { result ≡ cents_of amounts }
{
    Cents {
        cost: u64::from(amounts.cost()),
        fee: u64::from(amounts.fee()),
        copay: u64::from(amounts.copay()),
        paid: u64::from(amounts.total()),
    }
}

/// Whether a payment stands.
fn state_word(reversed: bool) -> &'static [u8]
    ensures { result.now ≡ state_word reversed }
{
    if reversed { b"reversed" } else { b"standing" }
}

/// The number of the request that reversed a payment.
fn reversing(by: Option<TxnId>) -> Option<u64>
    ensures { result ≡ reversing by }
{
    match by {
        Some(id) => Some(id.number()),
        None => None,
    }
}
