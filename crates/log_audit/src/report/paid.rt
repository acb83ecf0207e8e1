//! What payers paid, counted: by pharmacy, and in all.

ghost use Rattle.std.specs.Prelude.{◌≡◌, ◌++◌, count_by, cond, IfOk, OnOk};
ghost use Rattle.std.specs.List.{list_any};
ghost use Rattle.bin_routes.specs.Table.{RouteMaps};
ghost use Rattle.claim_model.specs.Bytes.{bytes_with};
ghost use Rattle.claim_model.specs.Payments.{payment_of};
ghost use Rattle.claim_model.specs.Rows.{ruled_rows};
ghost use Rattle.table_text.specs.Adding.{Adds};
ghost use Rattle.log_audit.specs.Adding.{Tells, Joined};
ghost use Rattle.log_audit.specs.Texts.{texts_from};
ghost use Rattle.log_audit.specs.Ledger.{in_cents, was_reversed, ruling_paid, row_paid, book_paid, is_of, is_chosen, paid_total, sum_of, sums_text, paid_line, paid_text, paid_up_to, rows_text, book_text, node_paid};

use crate::sentences::{Piece, put_pieces};
use claim_profile::{Auth, Ruling};
use node_state::PayerNode;
use payer_book::{Book, Row};
use std::alloc::{AllocError, Global};

/// A payment of a book: the pharmacy that asked for it, its total (F9) in cents, and whether a later one reversed it.
#[derive(Clone, Copy)]
pub(crate) struct PaidOnce {
    pub(crate) pharmacy: u64,
    pub(crate) cents: u64,
    pub(crate) reversed: bool,
}

/// A count of payments, and their totals in cents.
#[derive(Clone, Copy)]
pub(crate) struct Sum {
    pub(crate) count: u64,
    pub(crate) cents: u64,
}

/// Appends the lines of these payers, which are numbered from 1: for each a line for each pharmacy that it paid, and one for
/// all.
pub(crate) fn put_payers(
    alloc: Global,
    out: &mut Vec<u8>,
    pharmacies: usize,
    nodes: &[PayerNode],
) -> Result<(), AllocError>
    ensures { Tells out.old out.new (λ ctx. texts_from (node_paid ctx pharmacies) 1 nodes.now) result }
{
    for (passed, node) in nodes.iter().enumerate() {
        let reading = node.book(alloc)?;
        put_book(alloc, out, pharmacies, passed as u64 + 1, reading.book())?;
    }
    Ok(())
}

/// Appends the lines of a payer's book.
#[tactic(auto, unfolding(crate::specs::Ledger::book_text))]
pub(crate) fn put_book(
    alloc: Global,
    out: &mut Vec<u8>,
    pharmacies: usize,
    number: u64,
    book: &Book,
) -> Result<(), AllocError>
    ensures { Tells out.old out.new (λ ctx. book_text ctx pharmacies number book.now) result }
{
    let paid = book_paid(alloc, book)?;
    put_sums_of_book(
        out,
        pharmacies,
        number,
        book.rows().len() as u64,
        paid.as_slice(),
    )
}

/// Appends the lines of a payer with this many rows, which made these payments.
fn put_sums_of_book(
    out: &mut Vec<u8>,
    pharmacies: usize,
    number: u64,
    rows: u64,
    paid: &[PaidOnce],
) -> Result<(), AllocError>
    ensures { OnOk result (Adds out.old out.new
        (paid_up_to number paid.now pharmacies ++ rows_text number rows paid.now)) }
{
    put_paid_up_to(out, number, paid, pharmacies)?;
    put_rows(out, number, rows, paid)
}

/// Appends the lines of the pharmacies up to a number that a payer paid.
fn put_paid_up_to(
    out: &mut Vec<u8>,
    number: u64,
    paid: &[PaidOnce],
    pharmacies: usize,
) -> Result<(), AllocError>
    ensures { OnOk result (Adds out.old out.new (paid_up_to number paid.now pharmacies)) }
{
    for passed in 0..pharmacies {
        put_paid(out, number, paid, passed as u64 + 1)?;
    }
    Ok(())
}

/// Appends the line of a pharmacy, if the payer paid it.
fn put_paid(
    out: &mut Vec<u8>,
    number: u64,
    paid: &[PaidOnce],
    pharmacy: u64,
) -> Result<(), AllocError>
    ensures { OnOk result (Adds out.old out.new (paid_text number paid.now pharmacy)) }
{
    if any_of(paid, Some(pharmacy)) {
        put_paid_line(out, number, paid, pharmacy)
    } else {
        Ok(())
    }
}

/// Appends the line of a pharmacy that a payer paid.
#[tactic(auto, unfolding(crate::specs::Ledger::paid_line))]
fn put_paid_line(
    out: &mut Vec<u8>,
    number: u64,
    paid: &[PaidOnce],
    pharmacy: u64,
) -> Result<(), AllocError>
    ensures { OnOk result (Adds out.old out.new (paid_line number paid.now pharmacy)) }
{
    let pieces = [
        Piece::Words(b"payer "),
        Piece::Number(number),
        Piece::Words(b" pharmacy "),
        Piece::Number(pharmacy),
    ];
    put_pieces(out, &pieces)?;
    put_sums(out, paid, Some(pharmacy))
}

/// Appends the line of a payer.
#[tactic(auto, unfolding(crate::specs::Ledger::rows_text))]
fn put_rows(out: &mut Vec<u8>, number: u64, rows: u64, paid: &[PaidOnce]) -> Result<(), AllocError>
    ensures { OnOk result (Adds out.old out.new (rows_text number rows paid.now)) }
{
    let pieces = [
        Piece::Words(b"payer "),
        Piece::Number(number),
        Piece::Words(b" rows "),
        Piece::Number(rows),
    ];
    put_pieces(out, &pieces)?;
    put_sums(out, paid, None)
}

/// Appends the payments of a pharmacy, or of all, that stand and that are reversed, and the end of the line.
fn put_sums(out: &mut Vec<u8>, paid: &[PaidOnce], of: Option<u64>) -> Result<(), AllocError>
    ensures { OnOk result (Adds out.old out.new (sums_text of paid.now)) }
{
    let standing = sum_of(paid, of, false);
    let reversed = sum_of(paid, of, true);
    let pieces = [
        Piece::Words(b" standing "),
        Piece::Number(standing.count),
        Piece::Words(b" cents "),
        Piece::Number(standing.cents),
        Piece::Words(b" reversed "),
        Piece::Number(reversed.count),
        Piece::Words(b" cents "),
        Piece::Number(reversed.cents),
        Piece::Words(b"\n"),
    ];
    put_pieces(out, &pieces)
}

/// How many of the payments of a pharmacy, or of all, stand or are reversed, and what they come to.
fn sum_of(paid: &[PaidOnce], of: Option<u64>, reversed: bool) -> Sum
    ensures { result ≡ sum_of of reversed paid.now }
{
    Sum {
        count: count_of(paid, of, reversed),
        cents: cents_of(paid, of, reversed),
    }
}

/// How many of these payments are chosen.
fn count_of(paid: &[PaidOnce], of: Option<u64>, reversed: bool) -> u64
    ensures { result ≡ count_by (is_chosen of reversed) paid.now }
{
    paid.iter()
        .filter(|payment| is_chosen(payment, of, reversed))
        .count() as u64
}

/// What the payments that are chosen come to in cents, as far as 64 bits hold it.
#[tactic(auto, using(crate::proofs::Counting::cents_are_all))]
fn cents_of(paid: &[PaidOnce], of: Option<u64>, reversed: bool) -> u64
    ensures { result ≡ in_cents (paid_total (is_chosen of reversed) paid.now) }
{
    let mut cents = 0u64;
    for payment in paid {
        cents = cents.saturating_add(cents_if(payment, of, reversed));
    }
    cents
}

/// The total of a payment, if it is chosen.
fn cents_if(payment: &PaidOnce, of: Option<u64>, reversed: bool) -> u64
    ensures { result ≡ cond (is_chosen of reversed payment.now) payment.now.cents 0 }
{
    if is_chosen(payment, of, reversed) {
        payment.cents
    } else {
        0
    }
}

/// Whether a payment is that of a pharmacy, or of any, and stands or is reversed.
fn is_chosen(payment: &PaidOnce, of: Option<u64>, reversed: bool) -> bool
    ensures { result ≡ is_chosen of reversed payment.now }
{
    is_of(payment, of) && payment.reversed == reversed
}

/// Whether some of these payments is that of a pharmacy, or of any.
fn any_of(paid: &[PaidOnce], of: Option<u64>) -> bool
    ensures { result ≡ list_any (is_of of) paid.now }
{
    paid.iter().any(|payment| is_of(payment, of))
}

/// Whether a payment is that of a pharmacy, or of any.
fn is_of(payment: &PaidOnce, of: Option<u64>) -> bool
    ensures { result ≡ is_of of payment.now }
{
    match of {
        Some(pharmacy) => payment.pharmacy == pharmacy,
        None => true,
    }
}

/// The payments of a book, in the order in which they were made.
fn book_paid(alloc: Global, book: &Book) -> Result<Vec<PaidOnce>, AllocError>
    ensures { (routes : RouteMaps) → IfOk result (λ paid. paid.items ≡ book_paid (bytes_with routes) book.now) }
{
    let mut paid = Vec::new(alloc);
    for row in book.rows() {
        take_row(&mut paid, book, row)?;
    }
    Ok(paid)
}

/// Adds the payments that a row of a book made.
fn take_row(paid: &mut Vec<PaidOnce>, book: &Book, row: &Row) -> Result<(), AllocError>
    ensures { (routes : RouteMaps) → OnOk result
        (Joined paid.old paid.new (row_paid (bytes_with routes) book.now.rows row.now)) }
{
    let pharmacy = u64::from(row.id().pharmacy());
    for ruling in row.rulings() {
        take_ruling(paid, book, pharmacy, ruling)?;
    }
    Ok(())
}

/// Adds the payment that a ruling made, if it made one.
fn take_ruling(
    paid: &mut Vec<PaidOnce>,
    book: &Book,
    pharmacy: u64,
    ruling: &Ruling,
) -> Result<(), AllocError>
    ensures { (routes : RouteMaps) → OnOk result
        (Joined paid.old paid.new (ruling_paid (bytes_with routes) book.now.rows pharmacy ruling.now)) }
{
    match *ruling {
        Ruling::Paid { auth, amounts, .. } => {
            paid.push(PaidOnce {
                pharmacy,
                cents: u64::from(amounts.total()),
                reversed: is_reversed(book, auth),
            })?;
            Ok(())
        }
        Ruling::Duplicate { .. } => Ok(()),
        Ruling::Reversed { .. } => Ok(()),
        Ruling::Rejected { .. } => Ok(()),
    }
}

/// Whether the payment of an authorization was reversed.
fn is_reversed(book: &Book, auth: Auth) -> bool
    ensures { (routes : RouteMaps)
        → result ≡ was_reversed (payment_of auth (ruled_rows (bytes_with routes) book.now.rows)) }
{
    match book.payment(auth) {
        Some(payment) => payment.reversed_by.is_some(),
        None => false,
    }
}
