//! The ledgers of a world.

ghost use Rattle.std.specs.Prelude.{◌≡◌, List, IfOk};
ghost use Rattle.claim_model.specs.Logs.{NodeLog};
ghost use Rattle.node_logged.specs.Replayed.{AreOfWorld, ledger_in, ledgers_of};

use crate::judging::ledger::Ledger;
use std::alloc::{AllocError, Global};
use world_core::World;
use world_setup::CheckedSettings;

/// The ledgers of all pharmacies of the settings in a world of them, read where their journals stand. Where ledgers of logs are
/// those of the world, they are these.
pub(crate) fn ledgers_in<'a>(
    alloc: Global,
    settings: &CheckedSettings,
    world: &'a World,
) -> Result<Vec<Ledger<'a>>, AllocError>
    ensures { IfOk result (λ ledgers. (logs : List NodeLog)
        → AreOfWorld (ledgers_of settings.now logs) world.now.world → ledgers.items ≡ ledgers_of settings.now logs) }
{
    let mut ledgers = Vec::new(alloc);
    for place in 0..settings.settings().pharmacies.len() {
        let ledger = match ledger_in(world, place as u16 + 1)? {
            Some(ledger) => ledger,
            None => continue,
        };
        ledgers.push(ledger)?;
    }
    Ok(ledgers)
}

/// The ledger of a pharmacy in a world.
fn ledger_in(world: &World, pharmacy: u16) -> Result<Option<Ledger<'_>>, AllocError>
    ensures { IfOk result (λ ledger. ledger ≡ ledger_in world.now.world pharmacy) }
{
    match world.journal_of(pharmacy)? {
        Some(journal) => Ok(Some(Ledger::standing(pharmacy, journal))),
        None => Ok(None),
    }
}
