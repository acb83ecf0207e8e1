//! The processor's book: every answer that a processor gave, and the payments that stand in it.
//! A request is one row, all or nothing; a number that comes again gets the bytes that were kept for it.
//! Rows are found by their id and standing payments by their fill, so no call walks the list of rows.
#![tactic(auto)]

mod book;
mod fault;
mod keys;
mod laws;
mod ruling;
mod settings;

pub use bin_routes::PayerNo;
pub use book::payment::{Payment, Reversed, Standing};
pub use book::placing::Placed;
pub use book::rest::BookAtRest;
pub use book::row::Row;
pub use book::{Book, PaymentView, Reply};
pub use claim_model::{Fault, Refusal};
pub use envelope::TxnId;
pub use fault::{RowFault, SettingFault};
pub use keys::HashKeys;
pub use laws::{added_rows_are_kept, kept_rows_follow_rules};
pub use plan_rules::{Plan, PlanFault};
pub use settings::BookSettings;
