//! What is written of the payments of a node.

ghost use Rattle.std.specs.Prelude.{◌≡◌, ◌++◌, OnOk};
ghost use Rattle.std.specs.List.{flat_map};
ghost use Rattle.bin_routes.specs.Table.{RouteMaps};
ghost use Rattle.claim_model.specs.Bytes.{bytes_with};
ghost use Rattle.node_service.specs.Payments.{amounts_behind, book_payments, fill_behind, number_behind, page, payment_line, payment_lines, reversed_behind, text_behind, word_byte, word_of};

use crate::payments::{NodePayment, payment_after};
use claim_profile::{Amounts, Fill};
use input_text::{put_decimal, put_printed};
use payer_book::Book;
use std::alloc::AllocError;

/// Appends a line for each payment.
#[tactic(auto, unfolding(crate::specs::Payments::payment_lines), using(crate::proofs::Loops::texts_go_on, crate::proofs::Loops::texts_are_done))]
pub(crate) fn put_payments(out: &mut Vec<u8>, payments: &[NodePayment]) -> Result<(), AllocError>
    ensures { OnOk result (out.new.items ≡ out.old.items ++ payment_lines payments.now) }
{
    for payment in payments {
        put_payment(out, payment)?;
    }
    Ok(())
}

/// Appends a line for each payment of a book, this many at most from the one of a number on; they are numbered from 1.
#[tactic(auto, unfolding(crate::specs::Payments::payment_lines), using(crate::proofs::Pages::page_ends, crate::proofs::Pages::page_goes_on, crate::proofs::Pages::page_stops))]
pub(crate) fn put_book_page(
    out: &mut Vec<u8>,
    book: &Book,
    number: u64,
    count: u64,
) -> Result<(), AllocError>
    ensures { (routes : RouteMaps) → OnOk result (out.new.items
        ≡ out.old.items ++ payment_lines (page number count (book_payments (bytes_with routes) book.now))) }
{
    let passed = number.saturating_sub(1);
    for more in 0..count {
        let Some(payment) = payment_after(book, passed, more) else {
            return Ok(());
        };
        put_payment(out, &payment)?;
    }
    Ok(())
}

/// Appends the line of a payment: its authorization, its amounts, its fill, and the request that reversed it.
#[tactic(auto, unfolding(crate::specs::Payments::payment_line))]
fn put_payment(out: &mut Vec<u8>, payment: &NodePayment) -> Result<(), AllocError>
    ensures { OnOk result (out.new.items ≡ out.old.items ++ payment_line payment.now) }
{
    out.extend_from_slice(b"payment ")?;
    out.extend_from_slice(&payment.auth.digits())?;
    put_amounts(out, payment.amounts)?;
    put_fill(out, &payment.fill)?;
    put_reversed(out, payment.reversed_pharmacy, payment.reversed_number)?;
    out.extend_from_slice(b"\n")
}

/// Appends amounts in cents, each after a space: cost, fee, the patient's part, total.
#[tactic(auto, unfolding(crate::specs::Payments::amounts_behind))]
fn put_amounts(out: &mut Vec<u8>, amounts: Amounts) -> Result<(), AllocError>
    ensures { OnOk result (out.new.items ≡ out.old.items ++ amounts_behind amounts) }
{
    put_number(out, u64::from(amounts.cost()))?;
    put_number(out, u64::from(amounts.fee()))?;
    put_number(out, u64::from(amounts.copay()))?;
    put_number(out, u64::from(amounts.total()))
}

/// Appends what was paid for, each word after a space.
#[tactic(auto, unfolding(crate::specs::Payments::fill_behind))]
fn put_fill(out: &mut Vec<u8>, fill: &Fill) -> Result<(), AllocError>
    ensures { OnOk result (out.new.items ≡ out.old.items ++ fill_behind fill.now) }
{
    put_text(out, &fill.bin)?;
    put_text(out, &fill.pcn)?;
    put_text(out, &fill.qualifier)?;
    put_text(out, &fill.provider)?;
    put_number(out, fill.prescription)?;
    put_number(out, u64::from(fill.fill))
}

/// Appends the request that reversed a payment; nothing where none did.
#[tactic(auto, unfolding(crate::specs::Payments::reversed_behind))]
fn put_reversed(out: &mut Vec<u8>, pharmacy: u16, number: u64) -> Result<(), AllocError>
    ensures { OnOk result (out.new.items ≡ out.old.items ++ reversed_behind pharmacy number) }
{
    if number == 0 {
        return Ok(());
    }
    out.extend_from_slice(b" reversed ")?;
    put_decimal(out, u64::from(pharmacy))?;
    out.extend_from_slice(b".")?;
    put_decimal(out, number)
}

/// Appends a number after a space.
#[tactic(auto, unfolding(crate::specs::Payments::number_behind))]
fn put_number(out: &mut Vec<u8>, number: u64) -> Result<(), AllocError>
    ensures { OnOk result (out.new.items ≡ out.old.items ++ number_behind number) }
{
    out.push(b' ')?;
    put_decimal(out, number)
}

/// Appends bytes as a word after a space.
#[tactic(auto, unfolding(crate::specs::Payments::text_behind))]
fn put_text(out: &mut Vec<u8>, bytes: &[u8]) -> Result<(), AllocError>
    ensures { OnOk result (out.new.items ≡ out.old.items ++ text_behind bytes.now) }
{
    out.push(b' ')?;
    put_word(out, bytes)
}

/// Appends bytes as a word of a line: printed bytes, and a space is none.
///
/// # Errors
/// Memory was refused.
pub fn put_word(out: &mut Vec<u8>, bytes: &[u8]) -> Result<(), AllocError>
    ensures { OnOk result (out.new.items ≡ out.old.items ++ word_of bytes.now) }
{
    for byte in bytes {
        put_byte(out, *byte)?;
    }
    Ok(())
}

/// Appends a byte of a word: a space is none.
#[tactic(auto, unfolding(crate::specs::Payments::word_byte))]
fn put_byte(out: &mut Vec<u8>, byte: u8) -> Result<(), AllocError>
    ensures { OnOk result (out.new.items ≡ out.old.items ++ word_byte byte) }
{
    if byte == b' ' {
        return out.extend_from_slice(b"\\x20");
    }
    put_printed(out, &[byte])
}
