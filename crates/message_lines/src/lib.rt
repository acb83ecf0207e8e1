//! Lines of messages, both ways: a line that spells a message and what is told of it, and a line that describes a message in JSON
//! and the line that spells that message.
#![tactic(auto)]

mod fault;
mod laws;
mod making;
mod manner;
mod reading;
mod refusing;
mod telling;

pub use fault::{Fault, Misread, Refusal};
pub use laws::line_laws;
pub use making::Made;
pub use manner::{Manner, kind_worded, spelling_asked, style_asked};
pub use reading::next_line;
pub use telling::{answer_input, answer_line, tell_input, tell_line};
