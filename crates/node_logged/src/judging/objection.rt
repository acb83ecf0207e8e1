//! What speaks against the tills.

ghost use Rattle.std.specs.Prelude.{◌≡◌, List, IfOk};
ghost use Rattle.claim_model.specs.Logs.{NodeLog as LogSeen};
ghost use Rattle.node_log.specs.LogSeen.{logs_seen};
ghost use Rattle.node_logged.specs.LedgerSeen.{tills_seen};
ghost use Rattle.node_logged.specs.Replayed.{AreOfWorld, ledgers_of};
ghost use Rattle.node_logged.specs.Objections.{first_objection};
ghost use Rattle.node_logged.specs.Causes.{ObjectionTo};

use crate::judging::counting::lacking;
use crate::judging::hearing::have_answers;
use crate::judging::ledger::Ledger;
use crate::judging::receipts::have_receipts;
use crate::judging::replaying::ledgers;
use crate::judging::worlds::ledgers_in;
use crate::till::Till;
use node_log::NodeLog;
use std::alloc::{AllocError, Global};
use world_core::World;
use world_setup::CheckedSettings;

/// What speaks against the tills.
#[derive(Clone, Copy, PartialEq, Eq)]
pub(crate) enum Objection {
    /// The first pharmacy whose tills do not have as many receipts as its journal has entries.
    TillMissing(u16),
    /// Some entry of a journal has no receipt.
    ReceiptMissing,
    /// Some answer that was heard is not the journal's.
    HeardDiffers,
}

/// What speaks against the tills and nothing before it, if anything does.
pub(crate) fn objection_to(
    alloc: Global,
    settings: &CheckedSettings,
    logs: &[NodeLog],
    tills: &[Till],
) -> Result<Option<Objection>, AllocError>
    ensures { IfOk result (λ o. ObjectionTo (tills_seen tills.now) (ledgers_of settings.now (logs_seen logs.now)) o) }
{
    let ledgers = ledgers(alloc, settings, logs)?;
    first_objection(alloc, ledgers.as_slice(), tills)
}

/// What speaks against the tills in a world of these settings and nothing before it, if anything does. It is what does so by the
/// logs, where the journals after their calls are those of the world.
pub(crate) fn objection_in(
    alloc: Global,
    settings: &CheckedSettings,
    world: &World,
    tills: &[Till],
) -> Result<Option<Objection>, AllocError>
    ensures { (logs : List LogSeen) → AreOfWorld (ledgers_of settings.now logs) world.now.world
        → IfOk result (λ o. ObjectionTo (tills_seen tills.now) (ledgers_of settings.now logs) o) }
{
    let ledgers = ledgers_in(alloc, settings, world)?;
    first_objection(alloc, ledgers.as_slice(), tills)
}

/// The first test of tills and journals that fails, in the order of the causes.
fn first_objection(
    alloc: Global,
    ledgers: &[Ledger<'_>],
    tills: &[Till],
) -> Result<Option<Objection>, AllocError>
    ensures { IfOk result (λ o. o ≡ first_objection (tills_seen tills.now) ledgers.now) }
{
    if let Some(pharmacy) = lacking(ledgers, tills) {
        return Ok(Some(Objection::TillMissing(pharmacy)));
    }
    if !have_receipts(alloc, ledgers, tills)? {
        return Ok(Some(Objection::ReceiptMissing));
    }
    if !have_answers(ledgers, tills) {
        return Ok(Some(Objection::HeardDiffers));
    }
    Ok(None)
}
