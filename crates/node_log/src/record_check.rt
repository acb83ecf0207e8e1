//! Whether a node makes a call.

ghost use Rattle.std.specs.Prelude.{IfOk};
ghost use Rattle.claim_model.specs.Bytes.{bytes_with};
ghost use Rattle.node_log.specs.Fits.{TellsMade};

use crate::comparing::is_same_sent;
use crate::record::Record;
use bin_routes::Routes;
use node_state::NodeState;
use std::alloc::{AllocError, Global};
use world_setup::Fault;

/// Whether a node accepts the call of a record, and sends what the record has. Where it does not, the node may have changed.
///
/// # Errors
/// Memory was refused.
pub fn makes(
    alloc: Global,
    routes: &Routes,
    node: &mut NodeState,
    one: &Record,
) -> Result<bool, AllocError>
    ensures { IfOk result (λ yes. TellsMade yes (bytes_with routes.now) node.old one.now node.new) }
{
    match node.step(alloc, routes, one.call()) {
        Ok(sent) => Ok(is_same_sent(sent.as_slice(), one.sent())),
        Err(Fault::OutOfMemory) => Err(AllocError),
        Err(_) => Ok(false),
    }
}
