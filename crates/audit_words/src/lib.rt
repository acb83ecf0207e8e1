//! What `claimaudit` is asked for, by the words that were found of its command line: whether logs are those of one legal run, what
//! each comes to by itself, whether they are those of legal days, their records, or a report on tables.
#![tactic(auto)]

mod asked;
mod choosing;
mod found;
mod logs;
mod reports;

pub use asked::{Asked, Judging, Scope, asked_in};
