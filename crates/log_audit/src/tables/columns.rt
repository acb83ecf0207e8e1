//! The names of the columns of each table.

ghost use Rattle.std.specs.Prelude.{OnOk};
ghost use Rattle.table_text.specs.Adding.{Adds};
ghost use Rattle.table_text.specs.Rows.{head_text};
ghost use Rattle.log_audit.specs.Tables.{table_names};

use crate::tables::table::Table;
use std::alloc::AllocError;
use table_text::put_head;

/// Appends the names of a table's columns.
pub(crate) fn put_names(out: &mut Vec<u8>, table: Table) -> Result<(), AllocError>
    ensures { OnOk result (Adds out.old out.new (head_text (table_names table))) }
{
    match table {
        Table::Payments => put_head(
            out,
            &[
                b"payer",
                b"pharmacy",
                b"number",
                b"transaction",
                b"authorization",
                b"state",
                b"reversed_by",
                b"counted",
                b"bin",
                b"processor_control_number",
                b"provider_qualifier",
                b"provider",
                b"prescription",
                b"fill",
                b"date_of_service",
                b"cost_cents",
                b"fee_cents",
                b"copay_cents",
                b"paid_cents",
                b"cardholder",
                b"product",
                b"quantity_thousandths",
                b"submitted_cost_cents",
                b"submitted_fee_cents",
            ],
        ),
        Table::Entries => put_head(
            out,
            &[
                b"pharmacy",
                b"number",
                b"kind",
                b"transactions",
                b"state",
                b"counted_payments",
                b"counted_cents",
            ],
        ),
        Table::Rows => put_head(
            out,
            &[
                b"payer",
                b"pharmacy",
                b"number",
                b"kind",
                b"transaction",
                b"ruling",
                b"authorization",
                b"reject_codes",
                b"prescription",
                b"date_of_service",
                b"paid_cents",
            ],
        ),
        Table::Packets => put_head(
            out,
            &[
                b"packet",
                b"event",
                b"from",
                b"to",
                b"carries",
                b"pharmacy",
                b"number",
                b"bytes",
            ],
        ),
        Table::Counted => put_head(
            out,
            &[
                b"pharmacy",
                b"payer",
                b"authorization",
                b"cost_cents",
                b"fee_cents",
                b"copay_cents",
                b"paid_cents",
                b"prescription",
                b"fill",
            ],
        ),
        Table::Open => put_head(out, &[b"pharmacy", b"number", b"kind", b"ticks"]),
    }
}
