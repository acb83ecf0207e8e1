//! Settings that grow: more pharmacies, switches, payers and routes, and larger caps. What nodes did under the old settings
//! they could have done under the new ones, byte for byte, so logs go over as they are, each at a moment of its own. And what
//! else may be another in logs: the order of calls of several nodes, and ticks that do nothing. It has definitions and theorems
//! over the model, and no code.
#![tactic(auto)]

mod growth;
mod logs;
mod newcomers;
mod orders;
mod ticks;

pub use growth::growth_goes_on;
pub use logs::{logs_go_on, logs_go_over, rejections_have_to_stay, runs_go_over};
pub use newcomers::{
    growth_for_pharmacies, logs_of_pharmacies_go_on, logs_of_pharmacies_go_over,
    logs_with_their_routes_go_over, requests_are_of_pharmacies, rows_for_newcomers_may_be_added,
    runs_of_pharmacies_go_over,
};
pub use orders::{legal_logs_have_turns, made_logs_are_legal};
pub use ticks::{such_ticks_may_be_left_out, ticks_without_open_entries_do_nothing};
