//! The payments of a node, as one list: those that a pharmacy counts, or those of a payer's book.

ghost use Rattle.std.specs.Prelude.{◌≡◌, ◌++◌, ◌+◌, ◌-◌, ◌<◌, ◌≤◌, map, take, drop, slice_get, None, Some, IfOk, OnOk, MatchOption};
ghost use Rattle.std.specs.List.{flat_map};
ghost use Rattle.std.specs.Option.{option_map, option_to_list};
ghost use Rattle.bin_routes.specs.Table.{RouteMaps};
ghost use Rattle.claim_model.specs.Bytes.{bytes_with};
ghost use Rattle.claim_profile.specs.Authorization.{largest_serial};
ghost use Rattle.node_state.specs.Nodes.{book_of, journal_of};
ghost use Rattle.node_service.specs.Payments.{book_payments, booked_payment, counted_payment, journal_payments, number_by, page, payments_by, payments_of, pharmacy_by, row_payments, ruling_payment};

use claim_profile::{Amounts, Auth, Fill, Ruling};
use envelope::TxnId;
use node_state::{JournalReading, NodeState};
use payer_book::{Book, BookSettings, PayerNo, PaymentView, Row, kept_rows_follow_rules};
use pharmacy_journal::CountedPayment;
use std::alloc::{AllocError, Global};

/// A payment of a node: one that a pharmacy counts, or one of a payer's book.
#[derive(Clone, Copy)]
pub struct NodePayment {
    /// The authorization number (503-F3).
    pub auth: Auth,
    /// What was paid for.
    pub fill: Fill,
    /// What was paid.
    pub amounts: Amounts,
    /// The pharmacy of the request that reversed it; 0 where none did, or where a pharmacy counts it.
    pub reversed_pharmacy: u16,
    /// The number of that request; 0 likewise.
    pub reversed_number: u64,
}

/// The payments that a pharmacy counts, or those of a payer's book with what reversed them; a switch has none.
///
/// # Errors
/// Memory was refused.
pub fn payments_of(alloc: Global, state: &NodeState) -> Result<Vec<NodePayment>, AllocError>
    ensures { (routes : RouteMaps)
        → IfOk result (λ list. list.items ≡ payments_of (bytes_with routes) state.now) }
{
    match state.journal(alloc)? {
        Some(journal) => journal_payments(alloc, &journal),
        None => other_payments(alloc, state),
    }
}

/// This many of these payments at most, from the one of a number on; they are numbered from 1.
#[tactic(auto, using(crate::proofs::Pages::none_behind))]
pub(crate) fn page(list: &[NodePayment], number: u64, count: u64) -> &[NodePayment]
    ensures { result.now ≡ page number count list.now }
{
    let passed = number.saturating_sub(1);
    if passed >= list.len() as u64 {
        return &[];
    }
    front(&list[passed as usize..], count)
}

/// This many of these payments at most.
#[tactic(auto, using(crate::proofs::Pages::all_of))]
fn front(list: &[NodePayment], count: u64) -> &[NodePayment]
    ensures { result.now ≡ take count list.now }
{
    if count < list.len() as u64 {
        &list[..count as usize]
    } else {
        list
    }
}

/// The payment of a book after so many, and so many more, in the order in which they were made: it has the serial of that place.
#[tactic(auto, using(crate::proofs::Serials::at_place, crate::proofs::Serials::auth_at, crate::proofs::Serials::none_past))]
pub(crate) fn payment_after(book: &Book, passed: u64, more: u64) -> Option<NodePayment>
    ensures { (routes : RouteMaps)
        → result ≡ slice_get (book_payments (bytes_with routes) book.now) (passed + more) }
{
    kept_rows_follow_rules();
    let _made = book.rows();
    match auth_after(book.payer(), book.settings(), passed, more) {
        Some(auth) => found_payment(auth, book.payment(auth)),
        None => None,
    }
}

/// The authorization after so many, and so many more, of those that a payer gives from its first serial on; none where no serial is
/// so large.
fn auth_after(payer: PayerNo, settings: BookSettings, passed: u64, more: u64) -> Option<Auth>
    ensures { MatchOption result (largest_serial < settings.serial + (passed + more))
        (λ auth. auth ≡ record { payer = payer; serial = settings.serial + (passed + more) }) }
{
    let serial = settings.serial();
    match passed.checked_add(more) {
        Some(place) => auth_of_serial(payer, serial, place),
        None => None,
    }
}

/// The authorization of a payer with a serial and so many more.
fn auth_of_serial(payer: PayerNo, serial: u64, place: u64) -> Option<Auth>
    requires { 1 ≤ serial }
    ensures { MatchOption result (largest_serial < serial + place)
        (λ auth. auth ≡ record { payer = payer; serial = serial + place }) }
{
    match serial.checked_add(place) {
        Some(serial) => Auth::new(payer.get(), serial),
        None => None,
    }
}

/// A payment of a book, where there is one.
fn found_payment(auth: Auth, found: Option<PaymentView>) -> Option<NodePayment>
    ensures { result ≡ option_map (booked_payment auth) found }
{
    match found {
        Some(view) => Some(booked_payment(auth, &view)),
        None => None,
    }
}

/// The payments of a node that is no pharmacy.
fn other_payments(alloc: Global, state: &NodeState) -> Result<Vec<NodePayment>, AllocError>
    ensures { (routes : RouteMaps)
        → IfOk result (λ l. l.items ≡ payments_by (bytes_with routes) None (book_of state.now)) }
{
    match state.book(alloc)? {
        Some(reading) => book_payments(alloc, reading.book()),
        None => Ok(Vec::new(alloc)),
    }
}

/// The payments that a pharmacy counts.
pub(crate) fn journal_payments(
    alloc: Global,
    journal: &JournalReading<'_>,
) -> Result<Vec<NodePayment>, AllocError>
    ensures { (routes : RouteMaps) → IfOk result (λ l. l.items ≡ journal_payments (bytes_with routes) journal.now) }
{
    let paid = journal.paid()?;
    counted_list(alloc, paid.as_slice())
}

/// Counted payments, as payments of a node.
fn counted_list(alloc: Global, paid: &[CountedPayment]) -> Result<Vec<NodePayment>, AllocError>
    ensures { IfOk result (λ list. list.items ≡ map counted_payment paid.now) }
{
    let mut list = Vec::new(alloc);
    for payment in paid {
        list.push(counted_payment(payment))?;
    }
    Ok(list)
}

/// A counted payment: no answer named it as reversed.
fn counted_payment(payment: &CountedPayment) -> NodePayment
    ensures { result ≡ counted_payment payment.now }
{
    NodePayment {
        auth: payment.auth(),
        fill: payment.fill(),
        amounts: payment.amounts(),
        reversed_pharmacy: 0,
        reversed_number: 0,
    }
}

/// The payments of a book, in the order in which they were made.
#[tactic(auto, using(crate::proofs::Loops::texts_are_done))]
fn book_payments(alloc: Global, book: &Book) -> Result<Vec<NodePayment>, AllocError>
    ensures { (routes : RouteMaps) → IfOk result (λ list. list.items ≡ book_payments (bytes_with routes) book.now) }
{
    let mut list = Vec::new(alloc);
    for row in book.rows() {
        put_row(&mut list, book, row)?;
    }
    Ok(list)
}

/// Appends the payments that a row of a book made.
fn put_row(list: &mut Vec<NodePayment>, book: &Book, row: &Row) -> Result<(), AllocError>
    ensures { (routes : RouteMaps)
        → OnOk result (list.new.items ≡ list.old.items ++ row_payments (bytes_with routes) book.now row.now) }
{
    for ruling in row.rulings() {
        put_ruling(list, book, ruling)?;
    }
    Ok(())
}

/// Appends the payment that a ruling made, as the book has it by now.
fn put_ruling(list: &mut Vec<NodePayment>, book: &Book, ruling: &Ruling) -> Result<(), AllocError>
    ensures { (routes : RouteMaps)
        → OnOk result (list.new.items ≡ list.old.items ++ ruling_payment (bytes_with routes) book.now ruling.now) }
{
    match *ruling {
        Ruling::Paid { auth, .. } => put_booked(list, auth, book.payment(auth)),
        Ruling::Duplicate { .. } => Ok(()),
        Ruling::Reversed { .. } => Ok(()),
        Ruling::Rejected { .. } => Ok(()),
    }
}

/// Appends a payment of a book, where there is one.
fn put_booked(
    list: &mut Vec<NodePayment>,
    auth: Auth,
    found: Option<PaymentView>,
) -> Result<(), AllocError>
    ensures { OnOk result (list.new.items ≡ list.old.items ++ option_to_list (option_map (booked_payment auth) found)) }
{
    if let Some(view) = found {
        list.push(booked_payment(auth, &view))?;
    }
    Ok(())
}

/// A payment of a book.
fn booked_payment(auth: Auth, view: &PaymentView) -> NodePayment
    ensures { result ≡ booked_payment auth view.now }
{
    let by = view.reversed_by;
    NodePayment {
        auth,
        fill: view.fill,
        amounts: view.amounts,
        reversed_pharmacy: pharmacy_by(&by),
        reversed_number: number_by(&by),
    }
}

/// The number of the request that reversed a payment, or 0.
fn number_by(by: &Option<TxnId>) -> u64
    ensures { result ≡ number_by by.now }
{
    match by {
        Some(id) => id.number(),
        None => 0,
    }
}

/// The pharmacy of the request that reversed a payment, or 0.
fn pharmacy_by(by: &Option<TxnId>) -> u16
    ensures { result ≡ pharmacy_by by.now }
{
    match by {
        Some(id) => id.pharmacy(),
        None => 0,
    }
}
