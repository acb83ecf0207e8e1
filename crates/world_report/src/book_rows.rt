//! The lines of the rows of a payer's book.

ghost use Rattle.std.specs.Prelude.{◌≡◌};
ghost use Rattle.bin_routes.specs.Table.{RouteMaps};
ghost use Rattle.claim_profile.specs.Readable.{readable_header};
ghost use Rattle.claim_model.specs.Bytes.{bytes_with};
ghost use Rattle.claim_model.specs.Payments.{payment_of};
ghost use Rattle.claim_model.specs.Rows.{ruled_rows};
ghost use Rattle.world_report.specs.Adding.{TellsLines};
ghost use Rattle.world_report.specs.BookRows.{code_in, is_reversed, was_reversed, row_lines};

use crate::places::Place;
use crate::rows::put_row_place;
use claim_profile::{Auth, Ruling, code_of};
use payer_book::{Book, Row};
use std::alloc::AllocError;

/// Appends the lines of a row of this book: one for each place of its request, and after a payment whether it stands.
pub fn put_row(out: &mut Vec<u8>, book: &Book, row: &Row) -> Result<(), AllocError>
    ensures { TellsLines out.old out.new (λ ctx. row_lines ctx book.now.rows row.now) result }
{
    let (id, code) = (row.id(), request_code(row));
    let rulings = row.rulings();
    let count = rulings.len() as u64;
    for (passed, ruling) in rulings.iter().enumerate() {
        let place = Place {
            count,
            number: passed as u64 + 1,
            code,
        };
        put_row_place(out, id, &place, ruling, was_reversed(book, ruling))?;
    }
    Ok(())
}

/// The code of a row's request (103-A3).
fn request_code(row: &Row) -> [u8; 2]
    ensures { result ≡ code_in (readable_header row.now.request) }
{
    let _readable = row.answer();
    code_of(row.request())
}

/// Whether a ruling made a payment that was reversed.
fn was_reversed(book: &Book, ruling: &Ruling) -> bool
    ensures { (routes : RouteMaps) → result ≡ was_reversed (bytes_with routes) book.now.rows ruling.now }
{
    match *ruling {
        Ruling::Paid { auth, .. } => is_reversed(book, auth),
        Ruling::Duplicate { .. } => false,
        Ruling::Reversed { .. } => false,
        Ruling::Rejected { .. } => false,
    }
}

/// Whether the payment of an authorization was reversed.
fn is_reversed(book: &Book, auth: Auth) -> bool
    ensures { (routes : RouteMaps)
        → result ≡ is_reversed (payment_of auth (ruled_rows (bytes_with routes) book.now.rows)) }
{
    match book.payment(auth) {
        Some(payment) => payment.reversed_by.is_some(),
        None => false,
    }
}
