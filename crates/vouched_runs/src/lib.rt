//! Pharmacies and payers that take only what journals and books say, whoever carried it: what holds of them, whatever switches
//! and links do; that the calls of every run are such; and that days of such calls, each from where the one before left the nodes,
//! are such calls again. The same holds from any states that each node's record says, and that agree, however they came about. It
//! has definitions and theorems over the model, and no code.
#![tactic(auto)]

mod agreeing;
mod days;
mod promises;

pub use agreeing::{agreeing_states_keep_promises, vouched_states_agree};
pub use days::{days_follow_days, runs_are_vouched, vouched_calls_go_on};
pub use promises::{vouched_answers_agree, vouched_calls_keep_promises};
