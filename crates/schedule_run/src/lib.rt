//! The program `run`: the nodes of an input's settings on threads, the commands of its schedule made by one caller, and the
//! report on the nodes once all threads have ended.
//!
//! Which answers come, and after how many turns, hangs on the threads: contracts say which lines a command may be told, and
//! that the nodes of the report bear them out; which of these lines come is shown by tests.
#![tactic(auto)]

mod asked;
mod awaiting;
mod commands;
mod fault;
mod lines;
mod place_count;
mod running;

pub use fault::{RunFault, Unjudged};
pub use running::{run_schedule_keyed, run_schedule_over};
