//! The first call of a log that its node does not make as the log has it.

ghost use Rattle.std.specs.Prelude.{◌≡◌, None, IfOk};
ghost use Rattle.claim_model.specs.Bytes.{bytes_with};
ghost use Rattle.claim_model.specs.Logs.{replay};
ghost use Rattle.node_log.specs.Fits.{Fits, Tells};
ghost use Rattle.node_log.specs.Misfits.{IsFirst};

use crate::record::Record;
use crate::record_check::makes;
use bin_routes::Routes;
use node_state::NodeState;
use std::alloc::{AllocError, Global};

/// The first call of a log that its node does not make as the log has it: it refuses the call, or sends something else.
#[derive(Clone, Copy, Debug, PartialEq, Eq)]
pub struct FirstMisfit {
    /// The place of its record, from 0.
    pub place: usize,
}

/// Whether a node accepts these calls, one after another, and sends with each what its record has.
pub fn fits(
    alloc: Global,
    routes: &Routes,
    node: &mut NodeState,
    records: &[Record],
) -> Result<bool, AllocError>
    ensures { IfOk result (λ yes. Tells yes (Fits (bytes_with routes.now) node.old records.now)) }
{
    Ok(misfit_among(alloc, routes, node, records)?.is_none())
}

/// The first of these calls that a node does not make as its record has it; where there is none, all were made.
pub(crate) fn misfit_among(
    alloc: Global,
    routes: &Routes,
    node: &mut NodeState,
    records: &[Record],
) -> Result<Option<FirstMisfit>, AllocError>
    ensures first { IfOk result (λ found. IsFirst (bytes_with routes.now) node.old records.now found) }
    ensures ends { IfOk result (λ found. found ≡ None → node.new ≡ replay (bytes_with routes.now) node.old records.now) }
{
    for (place, one) in records.iter().enumerate() {
        if !makes(alloc, routes, node, one)? {
            return Ok(Some(FirstMisfit { place }));
        }
    }
    Ok(None)
}
