//! Orders and answers of a pharmacy claim switch: what a billing or a reversal asks for, what a
//! processor rules about it, and the bytes that carry both.
#![tactic(auto)]

mod answer_reading;
mod answer_status;
mod answer_values;
mod answer_writing;
mod authorization;
mod building;
mod building_laws;
mod building_writing;
mod code_names;
mod fill_hash;
mod found;
mod header_parts;
mod laws;
mod names;
mod order;
mod order_cursor;
mod order_fields;
mod order_reading;
mod order_values;
mod paid;
mod readable;
mod reject;
mod ruling;
mod showing;
mod texts;
mod transaction;
mod values;

pub use answer_reading::{
    Answer, AnswerFault, check_answer, read_advice, read_answer, read_answer_into,
};
pub use answer_writing::{put_answer, write_answer};
pub use authorization::Auth;
pub use building::{BillingParts, BuildFault, ReversalParts, billing, reversal};
pub use building_laws::{billing_laws, reversal_laws};
pub use found::trimmed;
pub use header_parts::{bin_of, code_of, count_of, date_of, pcn_of, provider_of, qualifier_of};
pub use laws::{advice_laws, answer_laws, readable_laws, unrouted_laws};
pub use order::{Claim, Fill, Order, Reversal};
pub use order_reading::{OrderFault, order_at, read_order};
pub use overpunch::{Amount, AmountFault, NumberFault, read_number};
pub use paid::Amounts;
pub use readable::{LONGEST_REQUEST, RequestFault, check_readable, read_readable};
pub use reject::{Code, Rejects};
pub use ruling::{HeaderStatus, Ruling};
pub use texts::Text;
pub use transaction::{TransactionCode, transaction_laws};
