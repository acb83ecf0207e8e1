//! Routes from the BIN number and processor control number of a claim to the processor that pays it.
//! A table is made from the rows of a settings document, each tested, and asked by the fields of a header.
//! The row of a BIN and its processor control number comes before the row of the BIN alone. A row may be for a range
//! of providers alone, so that a payer that is too large for one book has several; and one may say which requests stay
//! rejected, since they were before there was a route.
#![tactic(auto)]

mod fault;
mod key;
mod laws;
mod payer;
mod providers;
mod rejected;
mod route;
mod row;
mod table;

pub use fault::RoutesFault;
pub use key::RouteKey;
pub use laws::{number_laws, range_laws, route_laws};
pub use payer::PayerNo;
pub use providers::Providers;
pub use row::RouteRow;
pub use table::Routes;
