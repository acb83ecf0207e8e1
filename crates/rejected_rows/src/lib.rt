//! The rows of routes by which what switches rejected stays rejected: tables of a TOML document, one for what a route may look
//! at in such requests, with the number of the last of them.
#![tactic(auto)]

mod escaping;
mod keys;
mod rows;

pub use rows::rows_of;
