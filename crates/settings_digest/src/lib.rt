//! What the settings of a world say, as a text that hangs on nothing else of their file, and the digest of it that the heads of
//! logs have: remarks, spaces, line ends and the order of keys are not in it.
#![tactic(auto)]

mod digests;
mod fields;
mod laws;
mod nodes;
mod routes;
mod writing;

pub use digests::Digests;
pub use laws::{logs_keep_their_digest, said_tells_settings};
pub use writing::said;
