//! The text of an input: its lines, the words of a line, decimal numbers, and bytes spelled in printable characters.
//!
//! Nothing here knows what the words mean; the crates above give them their meaning.
#![tactic(auto)]

mod copying;
mod decimals;
mod line;
mod printing;
mod search;
mod unprinting;
mod words;

pub use decimals::{put_decimal, read_decimal};
pub use line::{Line, Lines, is_skipped};
pub use printing::put_printed;
pub use unprinting::{PrintedFault, unprint, unprint_into};
pub use words::split_word;
