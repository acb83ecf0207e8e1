//! One node of a world, up or at rest: what a call makes of it and what it sends are the model's step. A pharmacy or
//! a payer at rest is the bytes of its record; a switch at rest keeps its settings alone.
#![tactic(auto)]

mod book_bytes;
mod book_reading;
mod held;
mod journal_bytes;
mod journal_reading;
mod laws;
mod numbered;
mod opened;
mod opening;
mod payer;
mod pharmacy;
mod powered;
mod resting;
mod resumed;
mod sending;
mod state;
mod switch;
mod switch_rest;

pub use book_reading::BookReading;
pub use journal_reading::JournalReading;
pub use laws::idle_node_ticks;
pub use payer::PayerNode;
pub use pharmacy::PharmacyNode;
pub use powered::{Kind, Powered};
pub use state::{NodeState, StateKind};
pub use switch::SwitchNode;
