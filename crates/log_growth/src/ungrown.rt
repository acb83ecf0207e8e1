//! What keeps settings from being such that others have grown to.

use thiserror::Error;

/// The first thing of old settings that is neither in the new ones as it was nor grown, in the order of this list. Nodes
/// count from 1, routes from 0.
#[derive(Clone, Copy, Debug, PartialEq, Eq, Error)]
pub enum Ungrown {
    /// The pharmacy of this number is gone, has a smaller cap, or has another identity, other switches, or other numbers of
    /// ticks and tries.
    #[error("pharmacy {0}")]
    Pharmacy(usize),
    /// The switch of this number is gone, or has another cap: the entries that a full table forgets hang on it.
    #[error("switch {0}")]
    Switch(usize),
    /// The payer of this number is gone, has a smaller cap, or another first serial, fee, copay or price, or asks and did not,
    /// or the other way round.
    #[error("payer {0}")]
    Payer(usize),
    /// The route at this place of the old settings is not in the new ones, or leads to another payer there.
    #[error("row {0} of the old routes")]
    RouteGone(usize),
    /// The route at this place of the new settings takes claims from an old one of its BIN alone, for another payer.
    #[error("row {0} of the new routes")]
    RouteTaken(usize),
    /// The route at this place of the new settings is new and for some providers, of which one is an old pharmacy; and an old
    /// route has its BIN.
    #[error("row {0} of the new routes")]
    RangeTaken(usize),
    /// The route at this place of the new settings is new and lets requests stay rejected, and an old route leads to a payer for
    /// its BIN and processor control number, or for its BIN alone.
    #[error("row {0} of the new routes")]
    RouteRejected(usize),
}
