//! The journal of one pharmacy: what it submitted under which number, which answers it heard, when an
//! open entry is sent again and to which switch, and which payments it counts. Whoever calls it carries
//! the packets.
#![tactic(auto)]

mod at_rest;
mod bucket;
mod counting;
mod fault;
mod hearing;
mod kept;
mod listing;
mod pharmacy;
mod retry;
mod rule;
mod ruling;
mod sent;
mod settings;
mod slot;
mod submitting;
mod switch_list;
mod teller;
mod telling;
mod timetable;
mod transaction;

pub use at_rest::JournalAtRest;
pub use claim_model::{Fault, Refusal};
pub use counting::CountedPayment;
pub use fault::{RowFault, SettingFault, SettleFault};
pub use kept::KeptEntry;
pub use listing::EntryView;
pub use pharmacy::Pharmacy;
pub use rule::RetryRule;
pub use ruling::have_switches;
pub use sent::{ForSwitch, Sent};
pub use settings::PharmacySettings;
pub use switch_list::{switch_bytes, switch_numbers};
pub use teller::Teller;
pub use transaction::{OpenTxn, SettledTxn};
