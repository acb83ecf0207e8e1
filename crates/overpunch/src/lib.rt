//! Numbers as decimal digits, and signed amounts of money whose last digit carries the sign.
//!
//! Both are read and written as NCPDP pictures have them: `9(n)` for a number, `s9(6)v99` for an amount.
//! No call takes memory.
#![tactic(auto)]

mod amount;
mod laws;
mod number;

pub use amount::{Amount, AmountFault};
pub use laws::{
    amount_in_range, amount_reads_back, amount_shortest, number_in_range, number_reads_back,
    number_shortest,
};
pub use number::{NumberFault, read_number, write_number};
