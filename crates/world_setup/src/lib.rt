//! What a world is made of and told, as plain data: the names of nodes, calls on one node, packets, events, what
//! nodes are opened with, which settings a world takes, and, from the model, why a call or an event is refused.
#![tactic(auto)]

mod call;
mod checked;
mod checks;
mod event;
mod identity;
mod link;
mod node;
mod settings;
mod taking;
mod world_fault;

pub use call::{Call, Packet, Sent};
pub use checked::CheckedSettings;
pub use claim_model::{Fault, Refusal};
pub use event::Event;
pub use link::{Action, Actions, LinkFault};
pub use node::Node;
pub use settings::{PayerSettings, WorldSettings};
pub use world_fault::WorldFault;
