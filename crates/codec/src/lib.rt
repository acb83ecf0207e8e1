//! Formats said once: a format is a value with the bytes of each value, what stands at the front of bytes, and the values whose
//! numbers fit; formats are made of smaller ones, and so are their laws. Numbers have their high byte first (own).
#![tactic(auto)]

mod laws;
mod lists;
mod putting;
mod taking;

pub use laws::fields;
pub use lists::{put_u16s, take_u16s};
pub use putting::{put_text, put_u8, put_u16, put_u32, put_u64};
pub use taking::{take_bytes, take_text, take_u8, take_u16, take_u32, take_u64};
