//! Billings and reversals of one transaction from plain fields, as C has them: what a caller without a grammar hands in. A field
//! that is wrong is named by its number, with what is wrong with it.
#![tactic(auto)]

mod fields;
mod header;
mod judging;
mod laws;
mod making;
mod texts;

pub use fields::{PlainBilling, PlainHeader, PlainReversal};
pub use judging::{FieldFault, WrongField};
pub use laws::made_messages_read_back;
pub use making::{MakingFault, make_billing, make_reversal};
