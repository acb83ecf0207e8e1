//! Whether the logs of pharmacies and payers are those of legal days: whether there is an order of all their calls in which each
//! packet that a node takes is vouched for by what journals and books then say. No log of a switch is asked for, nor who carried
//! a packet. Logs may go on after closed ones.
#![tactic(auto)]

mod accepting;
mod agreeing;
mod begun;
mod days;
mod laws;
mod line;
mod live;
mod naming;
mod order;
mod reasons;
mod said;
mod taken;
mod telling;
mod woken;

pub use accepting::checked_settings_are_accepted;
pub use days::{Days, days_text, judge_days};
pub use laws::{begun_parties_are_kept, days_keep_promises};
