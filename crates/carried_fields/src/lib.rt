//! Answers that carry the fields of an advice: what a payer's own system says beside its rulings, as messages, preferred
//! products and taxes, stands in the answer of its book too.
#![tactic(auto)]

mod agreeing;
mod carrying;
mod fields;
mod laws;
mod merging;
mod names;
mod occurrences;
mod repeating;
mod segments;

pub use carrying::write_carrying;
pub use laws::carrying_laws;
pub use repeating::{Repeated, write_repeating};
