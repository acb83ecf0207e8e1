//! Messages from the JSON that describes them, as claimdecode writes it: its parts are read, and give the message's bytes again.
#![tactic(auto)]

mod described;
mod fault;
mod laws;
mod parts;

pub use described::Described;
pub use fault::{Misfit, PartFault, ReadFault};
pub use laws::{first_other_laws, parts_read_back};
