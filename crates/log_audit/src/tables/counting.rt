//! The payments that a pharmacy counts.

ghost use Rattle.std.specs.Prelude.{OnOk};
ghost use Rattle.table_text.specs.Adding.{AddsRow};
ghost use Rattle.log_audit.specs.CountedRows.{counted_row, counted_rows};
ghost use Rattle.log_audit.specs.Tables.{journal_counted};
ghost use Rattle.log_audit.specs.Outgoing.{PutsRows, TellsPut};

use crate::outgoing::{Outgoing, TextSink};
use node_state::JournalReading;
use pharmacy_journal::CountedPayment;
use std::alloc::AllocError;
use table_text::{Field, Style, put_row};

/// Appends a row for each payment that a pharmacy counts, in the order in which its entries named them first.
pub(crate) fn put_journal_counted<K: TextSink + Drop>(
    out: &mut Outgoing<K>,
    style: Style,
    journal: &JournalReading<'_>,
) -> Result<(), AllocError>
    ensures { TellsPut style out.old out.new (λ ctx. journal_counted ctx journal.now) result }
{
    let paid = journal.paid()?;
    put_counted(out, style, journal.number(), paid.as_slice())
}

/// Appends a row for each of these payments.
fn put_counted<K: TextSink + Drop>(
    out: &mut Outgoing<K>,
    style: Style,
    pharmacy: u16,
    paid: &[CountedPayment],
) -> Result<(), AllocError>
    ensures { OnOk result (PutsRows style out.old out.new (counted_rows pharmacy paid.now)) }
{
    let mut row = out.piece();
    for payment in paid {
        row.clear();
        put_payment(&mut row, style, pharmacy, payment)?;
        out.put(row.as_slice())?;
    }
    Ok(())
}

/// Appends the row of a payment that a pharmacy counts.
#[tactic(auto, unfolding(crate::specs::CountedRows::counted_row))]
fn put_payment(
    out: &mut Vec<u8>,
    style: Style,
    pharmacy: u16,
    payment: &CountedPayment,
) -> Result<(), AllocError>
    ensures { OnOk result (AddsRow style out.old out.new (counted_row pharmacy payment.now)) }
{
    let auth = payment.auth();
    let digits = auth.digits();
    let amounts = payment.amounts();
    let fill = payment.fill();
    let fields = [
        Field::number(b"pharmacy", u64::from(pharmacy)),
        Field::number(b"payer", u64::from(auth.payer())),
        Field::text(b"authorization", &digits),
        Field::number(b"cost_cents", u64::from(amounts.cost())),
        Field::number(b"fee_cents", u64::from(amounts.fee())),
        Field::number(b"copay_cents", u64::from(amounts.copay())),
        Field::number(b"paid_cents", u64::from(amounts.total())),
        Field::number(b"prescription", fill.prescription),
        Field::number(b"fill", u64::from(fill.fill)),
    ];
    put_row(out, style, &fields)
}
