//! The end of a running system.

ghost use Rattle.std.specs.Prelude.{◌≡◌, IfOk, IfErr};
ghost use Rattle.std.specs.Arc.{arc_value};
ghost use Rattle.node_logged.specs.Causes.{IsCause};
ghost use Rattle.node_logged.specs.LedgerSeen.{tills_seen};
ghost use Rattle.node_logged.specs.Verdicts.{IsRun, logs_in};

use crate::hall::Hall;
use node_logged::{FinishFault, Finished, Held, Till, judge_nodes};
use std::alloc::Global;
use std::sync::{Arc, Wait};
use world_setup::CheckedSettings;

/// The verdict on these nodes, by the settings that they shared.
pub(crate) fn judged(
    alloc: Global,
    shared: &CheckedSettings,
    nodes: Vec<Held>,
    tills: &[Till],
) -> Result<Finished, FinishFault>
    ensures ok { IfOk result (λ f. IsRun shared.now (tills_seen tills.now) f f.logs.items) }
    ensures refused { IfErr result (λ why. IsCause shared.now (logs_in why) (tills_seen tills.now) why) }
{
    judge_nodes(alloc, shared, nodes, tills)
}

/// The hall, once its other owners, the workers, have ended.
pub(crate) fn last_owner<R: Wait>(rt: &R, hall: Arc<Hall>) -> Hall
    ensures { result ≡ arc_value hall }
{
    let mut shared = hall;
    for _ in rt.forever() {
        match Arc::try_unwrap(shared) {
            Ok(hall) => return hall,
            Err(still) => shared = still,
        }
    }
    unreachable!()
}
