//! Making a log anew by its node, and comparing all that it sends.

ghost use Rattle.std.specs.Prelude.{IsSome, IfOk};
ghost use Rattle.claim_model.specs.Settings.{opening};
ghost use Rattle.claim_model.specs.Nodes.{node_at};
ghost use Rattle.world_setup.specs.Seen.{node_seen, settings_seen};
ghost use Rattle.claim_model.specs.Bytes.{bytes_with};
ghost use Rattle.node_log.specs.Misfits.{IsMade, IsMadeFrom};

use crate::log::NodeLog;
use crate::misfit::{FirstMisfit, misfit_among};
use bin_routes::Routes;
use node_state::NodeState;
use std::alloc::{AllocError, Global};
use world_setup::CheckedSettings;

/// The node of a log after its calls, from its opening state, where it makes each of them and sends every byte that the log
/// has as sent; else the first call that it does not make so.
///
/// The node is one of the settings.
///
/// # Errors
/// Memory was refused.
pub fn make_log(
    alloc: Global,
    settings: &CheckedSettings,
    log: &NodeLog,
) -> Result<Result<NodeState, FirstMisfit>, AllocError>
    requires { IsSome (node_at (opening (settings_seen settings.now)) (node_seen log.now.node)) }
    ensures { IfOk result (λ made. IsMade settings.now (node_seen log.now.node) log.now.calls.items made) }
{
    let opening = NodeState::opening(alloc, settings, log.node())?;
    make_log_from(alloc, settings.routes(), opening, log)
}

/// The same from any state of the node.
///
/// # Errors
/// Memory was refused.
pub fn make_log_from(
    alloc: Global,
    routes: &Routes,
    begins: NodeState,
    log: &NodeLog,
) -> Result<Result<NodeState, FirstMisfit>, AllocError>
    ensures { IfOk result (λ made. IsMadeFrom (bytes_with routes.now) begins log.now.calls.items made) }
{
    let mut node = begins;
    match misfit_among(alloc, routes, &mut node, log.records())? {
        Some(first) => Ok(Err(first)),
        None => Ok(Ok(node)),
    }
}
