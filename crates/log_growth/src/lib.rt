//! Settings that have grown, and logs that go over to them. Whether settings have grown to others is exact for pharmacies,
//! switches and payers, and on the safe side for routes. A log goes over where its node opens from it under the new ones:
//! the same records, with all that was noted of their calls, under a head of version 2 with the new digest.
#![tactic(auto)]

mod comparing;
mod growth;
mod laws;
mod moving;
mod over;
mod payers;
mod pharmacies;
mod reason;
mod rejected;
mod rows;
mod switches;
mod ungrown;

pub use growth::{Grown, GrowthFault, grows};
pub use laws::{
    made_logs_go_over, made_logs_with_their_routes_go_over, nodes_are_compared_exactly,
};
pub use over::{Gone, OverFault, go_over};
pub use rejected::rerouted;
pub use ungrown::Ungrown;
