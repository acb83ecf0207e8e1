//! Owned byte strings that contracts see as lists of bytes.
//!
//! A bare `Vec` carries its capacity into every comparison of a contract; an `Octets` is its bytes and nothing else.
#![tactic(auto)]

mod held;
mod owned;

pub use owned::Octets;
