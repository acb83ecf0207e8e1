//! The text of what settings say.

ghost use Rattle.std.specs.Prelude.{◌≡◌, IfOk};
ghost use Rattle.world_settings.specs.Document.{document_seen};
ghost use Rattle.settings_digest.specs.Said.{said};
ghost use Rattle.settings_digest.specs.Fits.{FitsDocument};

use crate::fields::put_list;
use crate::nodes::put_payers;
use std::alloc::{AllocError, Global};
use world_setup::WorldSettings;

/// What settings say, as a text: each of their fields in a fixed order. Two files of settings say the same exactly where their
/// nodes are opened with the same and their routes are the same, row by row.
#[tactic(auto, unfolding(crate::specs::Said::said))]
pub fn said(alloc: Global, settings: &WorldSettings) -> Result<Vec<u8>, AllocError>
    ensures text { IfOk result (λ text. text.items ≡ said (document_seen settings.now)) }
    ensures fits { IfOk result (λ _. FitsDocument (document_seen settings.now)) }
{
    let mut text = Vec::new(alloc);
    put_list(&mut text, settings.pharmacies.as_slice())?;
    put_list(&mut text, settings.switches.as_slice())?;
    put_payers(&mut text, settings.payers.as_slice())?;
    put_list(&mut text, settings.routes.as_slice())?;
    Ok(text)
}
