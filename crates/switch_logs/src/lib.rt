//! Logs of switches that kept none, made of what pharmacies and payers kept: a switch loses its table at a stop, so whatever it
//! handed on is explained by a stop, a start, and the packets that it was handed.
//!
//! A log that is made is one of its switch (`made_logs`). That a legal run has such logs is for the audit to say; where what
//! pharmacies and payers took is explained by what the others had sent before, it has (`explained_orders_are_runs` of
//! crash_safety).
#![tactic(auto)]

mod handing;
mod known;
mod line;
mod making;
mod unlogged;
mod walk;

pub use making::made_logs;
