//! A switch: the requests that it forwarded and the answers that came back, oldest first and at most this many.
//! What it sends for a request or a response, and its whole table after it, are those of the model. In a full
//! table the oldest entry leaves for a new one, in constant time. A stop loses the table.
#![tactic(auto)]

mod bytes;
mod fault;
mod packets;
mod reading;
mod routing;
mod settings;
mod slot;
mod switch;
mod table;

pub use bin_routes::{PayerNo, Routes};
pub use bytes::{cap_bytes, put_cap, read_cap};
pub use claim_model::{Fault, Refusal};
pub use envelope::{Envelope, TxnId};
pub use fault::SettingFault;
pub use packets::rejection;
pub use routing::Routed;
pub use settings::SwitchSettings;
pub use switch::Switch;
pub use table::InFlight;
