//! Texts of settings, of which one has to have grown from the other.

ghost use Rattle.std.specs.Prelude.{◌≡◌, IfOk, IfErr, OnOk};
ghost use Rattle.settings_digest.specs.Digests.{AreOf};
ghost use Rattle.log_growth.specs.Grown.{HasGrown, IsNoGrowth};

use crate::comparing::first_ungrown;
use crate::reason::reason;
use crate::rows::has_new_range;
use crate::ungrown::Ungrown;
use payer_book::HashKeys;
use settings_digest::Digests;
use std::alloc::{AllocError, Global};
use thiserror::Error;
use world_settings::{Untaken, read_checked_settings};

/// Why settings have not grown to others: the first cause in the order of this list. Want of memory may stand in place of any
/// answer.
#[derive(Clone, Copy, Debug, PartialEq, Eq, Error)]
pub enum GrowthFault {
    /// Memory was refused.
    #[error("out of memory")]
    OutOfMemory,
    /// The text of the old settings spells none, or such as open no world.
    #[error("the old settings are refused")]
    OldSettings,
    /// The text of the new settings spells none, or such as open no world.
    #[error("the new settings are refused")]
    NewSettings,
    /// This of the old settings has not grown to what it is in the new ones, for what the words say.
    #[error("{0} {1}")]
    NotGrown(Ungrown, &'static str),
}

/// Settings, and others that they have grown to.
#[derive(Clone, Copy)]
pub struct Grown {
    /// The digests of the old ones.
    pub old: Digests,
    /// The digests of the new ones.
    pub new: Digests,
    /// Whether the new ones lead providers who are no pharmacy yet to another payer than the old ones did.
    pub moves: bool,
}

/// Whether the settings that the first text spells have grown to those of the second: all that a node did under the first it
/// could have done under the second, as the theorems on settings that grow have it. Then it gives the digests of both.
///
/// # Errors
/// The first cause that stands, in the order of `GrowthFault`.
pub fn grows(alloc: Global, old: &[u8], new: &[u8]) -> Result<Grown, GrowthFault>
    ensures grown { OnOk result (HasGrown old.now new.now) }
    ensures old { IfOk result (λ grown. AreOf old.now grown.old) }
    ensures new { IfOk result (λ grown. AreOf new.now grown.new) }
    ensures refused { IfErr result (λ why. IsNoGrowth old.now new.now why) }
{
    let before = match read_checked_settings(alloc, &HashKeys::fixed(), old) {
        Ok(settings) => settings,
        Err(Untaken::OutOfMemory) => return Err(GrowthFault::OutOfMemory),
        Err(Untaken::Settings) => return Err(GrowthFault::OldSettings),
        Err(Untaken::World(_)) => return Err(GrowthFault::OldSettings),
    };
    let after = match read_checked_settings(alloc, &HashKeys::fixed(), new) {
        Ok(settings) => settings,
        Err(Untaken::OutOfMemory) => return Err(GrowthFault::OutOfMemory),
        Err(Untaken::Settings) => return Err(GrowthFault::NewSettings),
        Err(Untaken::World(_)) => return Err(GrowthFault::NewSettings),
    };
    let earlier = before.settings();
    let later = after.settings();
    match first_ungrown(&before, &after) {
        Some(found) => Err(GrowthFault::NotGrown(found, reason(earlier, later, found))),
        None => Ok(Grown {
            old: Digests::of(alloc, earlier, old)?,
            new: Digests::of(alloc, later, new)?,
            moves: has_new_range(earlier.routes.as_slice(), later.routes.as_slice()),
        }),
    }
}

impl From<AllocError> for GrowthFault {
    ghost use Rattle.log_growth.specs.declared.growth.GrowthFault.TheVariants.{OutOfMemory};

    ghost from_gives = { λ _ e. e ≡ OutOfMemory };

    fn from(_refused: AllocError) -> GrowthFault {
        GrowthFault::OutOfMemory
    }
}
