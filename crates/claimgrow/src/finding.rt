//! What the program alone can find wrong.

use log_growth::{GrowthFault, OverFault};
use log_turning::{JoinFault, RestFault};
use thiserror::Error;

/// What the program alone can find wrong.
#[derive(Debug, Drop, Error)]
pub(crate) enum Finding {
    /// The words are wrong.
    #[error("usage: claimgrow [--check | --reject] OLD NEW LOG...")]
    Usage,
    /// The old settings have not grown to the new ones.
    #[error("{0}")]
    Growth(GrowthFault),
    /// One of the settings is refused, for what is wrong in it.
    #[error("{0}: {1}")]
    Refused(GrowthFault, String),
    /// Another process has the log of this name.
    #[error("{0}: another process has the log")]
    Locked(String),
    /// The log of this name does not go on where the one before it ends, or is none.
    #[error("{0}: {1}")]
    Joining(String, JoinFault),
    /// The log of this name begins with another rest than its node left after the one before it.
    #[error("{0}: {1}")]
    Rest(String, RestFault),
    /// The log of this name does not go over, whatever rows there are.
    #[error("{0}: does not go over: {1}")]
    Stays(String, OverFault),
    /// A request in the log of this name, which was rejected, has a text that no settings spell.
    #[error("{0}: a request that was rejected has a text that no settings spell")]
    Unspelled(String),
    /// Some log does not go over.
    #[error("no log was changed, since not all go over")]
    SomeStay,
}
