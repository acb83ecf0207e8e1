//! What is in a message, and why it is rejected: the parts of its bytes, the fields and marks that they are, and the
//! causes for which an order is rejected.
#![tactic(auto)]

mod answer_fields;
mod books;
mod causes;
mod claim_fields;
mod cutter;
mod dissecting;
mod findings;
mod found;
mod journals;
mod laws;
mod layout;
mod marks;
mod names;
mod numbers;
mod part;
mod party_fields;
mod records;
mod transmissions;
mod unused;
mod values;

pub use causes::{Cause, all_causes, code_for};
pub use dissecting::{Carried, Dissected, MessageKind, dissect};
pub use findings::{Finding, Uncarried, findings_of};
pub use found::Found;
pub use laws::{cause_laws, part_laws, record_laws};
pub use layout::Form;
pub use marks::Mark;
pub use names::{FieldName, Named};
pub use numbers::{behind, front_of, number_at, number_of};
pub use part::{Part, PartKind};
pub use records::is_book;
pub use unused::unused_field;
