//! Why a text is no settings, or such as no world takes.

ghost use Rattle.std.specs.Prelude.{◌≡◌};
ghost use Rattle.world_settings.specs.declared.fault.SettingsFault.TheVariants.{OutOfMemory};

use std::alloc::{AllocError, AllocFailed};
use thiserror::Error;
use world_setup::WorldFault;

/// Why a text is no settings.
#[derive(Clone, Copy, Debug, PartialEq, Eq, Error)]
pub enum SettingsFault {
    /// Memory was refused.
    #[error("out of memory")]
    OutOfMemory,
    /// The text is no TOML document; or a key is missing, is not known, or has a value of another type or out of
    /// its bounds.
    #[error("settings refused")]
    Settings,
}

impl From<AllocError> for SettingsFault {
    ghost from_gives = { λ _ fault. fault ≡ OutOfMemory };

    fn from(_refused: AllocError) -> SettingsFault {
        SettingsFault::OutOfMemory
    }
}

impl<T: Drop> From<AllocFailed<T>> for SettingsFault {
    ghost from_gives = { λ _ fault. fault ≡ OutOfMemory };

    fn from(_refused: AllocFailed<T>) -> SettingsFault {
        SettingsFault::OutOfMemory
    }
}

/// Why a text gives no settings that a world takes: the first cause in the order of this list. Want of memory may stand in place of
/// any answer.
#[derive(Clone, Copy, Debug, PartialEq, Eq, Error)]
pub enum Untaken {
    /// Memory was refused.
    #[error("out of memory")]
    OutOfMemory,
    /// The text spells no settings.
    #[error("settings refused")]
    Settings,
    /// No world takes the settings that the text spells.
    #[error("settings refused: {0}")]
    World(WorldFault),
}
