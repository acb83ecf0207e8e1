//! The schedule of an input: where it begins, the events that its lines spell, and the lines that spell events.
//!
//! An input is settings, a line `---`, and the schedule: one event a line, in printed text. What a line is, is std's
//! `lines`; what an event spells stands in `specs/`.
#![tactic(auto)]

mod commands;
mod division;
mod events;
mod fault;
mod link_faults;
mod nodes;
mod plans;
mod reading;
mod rules;
mod runs;
mod why;
mod writing;

pub use commands::Command;
pub use division::{Division, divide};
pub use events::{cap_in, event_of, living_event_of};
pub use fault::{ScheduleFault, TextFault};
pub use nodes::{node_in, put_node};
pub use plans::{price_in, product_in};
pub use reading::{read_living_schedule, read_schedule};
pub use rules::switches_in;
pub use runs::{Run, read_run};
pub use why::{LineFault, command_fault, event_fault, living_event_fault};
pub use writing::events_text;
