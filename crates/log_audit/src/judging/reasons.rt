//! Why logs are those of no legal run.

ghost use Rattle.std.specs.Prelude.{◌≡◌, IfOk};
ghost use Rattle.claim_model.specs.Settings.{is_empty};
ghost use Rattle.node_log.specs.LogSeen.{logs_seen};
ghost use Rattle.log_audit.specs.Reasons.{IsReasons, LastReason, SomeReason};

use crate::judging::missing::missing_lines;
use crate::judging::waiting::waiting_lines;
use crate::judging::wrongs::wrong_lines;
use crate::sentences::Manner;
use node_log::NodeLog;
use std::alloc::{AllocError, Global};
use world_setup::CheckedSettings;

/// Why there is no run: logs that are not one for each node; else calls that nodes do not make; else calls that wait for
/// packets which nobody sent.
pub(crate) fn reasons(
    alloc: Global,
    manner: Manner,
    settings: &CheckedSettings,
    logs: &[NodeLog],
) -> Result<Vec<u8>, AllocError>
    ensures { IfOk result (λ text. IsReasons settings.now (logs_seen logs.now) manner text.items) }
{
    let missing = missing_lines(alloc, manner, settings, logs)?;
    if !is_none(missing.as_slice()) {
        return Ok(missing);
    }
    let wrong = wrong_lines(alloc, manner, settings, logs)?;
    if !is_none(wrong.as_slice()) {
        return Ok(wrong);
    }
    waiting_lines(alloc, manner, logs)
}

/// Whether a text has no bytes.
fn is_none(text: &[u8]) -> bool
    ensures { result ≡ is_empty text.now }
{
    text.is_empty()
}

/// Some reason is told.
#[tactic(auto, using(crate::proofs::SomeReason::some_reason))]
pub fn some_reason_is_told()
    ensures { SomeReason }
{}

/// That no order of the calls is a run is told only where no other reason is found: one log of each node and no other, each of
/// which its node makes, and not every next call that is left waits.
#[tactic(auto, using(crate::proofs::LastReason::last_reason))]
pub fn last_reason_is_last()
    ensures { LastReason }
{}
