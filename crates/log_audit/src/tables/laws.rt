//! What holds of every table.

ghost use Rattle.std.specs.Prelude.{ℕ, Bool, List};
ghost use Rattle.claim_model.specs.Context.{Context};
ghost use Rattle.claim_model.specs.Counted.{Counted};
ghost use Rattle.claim_model.specs.Words.{Ruling};
ghost use Rattle.claim_model.specs.World.{Packet};
ghost use Rattle.pharmacy_journal.specs.Listing.{Listed};
ghost use Rattle.payer_book.specs.declared.book.PaymentView.{PaymentView};
ghost use Rattle.log_audit.specs.Tables.{HasColumns};
ghost use Rattle.log_audit.specs.Payments.{payment_row};
ghost use Rattle.log_audit.specs.Entries.{entry_row};
ghost use Rattle.log_audit.specs.CountedRows.{counted_row};
ghost use Rattle.log_audit.specs.Rulings.{At, ruling_row};
ghost use Rattle.log_audit.specs.Packets.{packet_row};
ghost use Rattle.log_audit.specs.declared.tables.payments.PaidAt.{PaidAt};
ghost use Rattle.log_audit.specs.declared.tables.table.Table.TheVariants.{Payments, Entries, Rows, Packets, Counted as CountedTable};

/// Each row of a table has the columns that the line of names before the rows has, in its order.
#[tactic(auto, using(crate::proofs::Naming::payments_named, crate::proofs::Naming::entries_named, crate::proofs::Naming::rulings_named, crate::proofs::Naming::packets_named, crate::proofs::Naming::counted_named))]
pub fn rows_have_their_columns()
    ensures payments { (at : PaidAt) (counted : Bool) (p : PaymentView)
        → HasColumns (payment_row at counted p) Payments }
    ensures entries { (pharmacy : ℕ) (e : Listed) (own : List Counted) → HasColumns (entry_row pharmacy e own) Entries }
    ensures rows { (at : At) (ruling : Ruling) → HasColumns (ruling_row at ruling) Rows }
    ensures packets { (ctx : Context) (number event : ℕ) (p : Packet)
        → HasColumns (packet_row ctx number event p) Packets }
    ensures counted { (pharmacy : ℕ) (c : Counted) → HasColumns (counted_row pharmacy c) CountedTable }
{}
