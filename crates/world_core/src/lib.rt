//! The world: all pharmacies, switches and payers, and every packet that was ever sent. An event is one call on
//! one node. What holds of every world that events lead to stands as clauses of `World`.
#![tactic(auto)]

mod all_nodes;
mod asked;
mod headline;
mod laws;
mod leading;
mod listing;
mod nodes;
mod opening;
mod parts;
mod post;
mod readers;
mod row_view;
mod world;

pub use laws::runs_add_up;
pub use leading::KnownParts;
pub use row_view::RowView;
pub use world::World;
pub use world_setup::WorldFault;
