//! Settings that any number of nodes share.

ghost use Rattle.std.specs.Prelude.{◌≡◌, IfOk, IfErr};
ghost use Rattle.std.specs.Arc.{arc_value};
ghost use Rattle.std.specs.Option.{option_copied};
ghost use Rattle.settings_digest.specs.Digests.{turned};
ghost use Rattle.node_service.specs.Opened.{IsSharing};
ghost use Rattle.node_service.specs.Refused.{NoSettings};

use crate::fault::ServiceFault;
use kept_logs::SettingsDigest;
use payer_book::HashKeys;
use settings_digest::Digests;
use std::alloc::Global;
use std::marker::Model;
use std::sync::Arc;
use world_settings::read_checked_settings;
use world_setup::CheckedSettings;

/// Settings that a world takes, and the digests under which logs are of them: all that nodes under the same settings have in
/// common, which is made once for any number of them (own).
#[derive(Drop)]
pub struct SharedSettings {
    checked: CheckedSettings,
    digests: Digests,
}

impl Model for SharedSettings {
    ghost use Rattle.node_service.specs.Opened.{Sharing};

    ghost Value = { Sharing };

    ghost view = { λ s. record { settings = s.checked; digests = s.digests } };
}

impl SharedSettings {
    /// The settings that a text spells. The maps of payers' books hash with these keys, on which no answer hangs.
    ///
    /// # Errors
    /// `Settings` where the text spells none, or those that open no world. `OutOfMemory` may stand in place of any answer.
    pub fn open(
        alloc: Global,
        keys: &HashKeys,
        text: &[u8],
    ) -> Result<Arc<SharedSettings>, ServiceFault>
        ensures opened { IfOk result (λ shared. IsSharing text.now (arc_value shared)) }
        ensures refused { IfErr result (λ why. NoSettings text.now why) }
    {
        let shared = shared_of(alloc, keys, text)?;
        match Arc::new(alloc, shared) {
            Ok(shared) => Ok(shared),
            Err(_) => Err(ServiceFault::OutOfMemory),
        }
    }

    /// The settings.
    pub(crate) fn checked(&self) -> &CheckedSettings
        ensures { result.now ≡ self.now.settings }
    {
        &self.checked
    }

    /// The digest of the settings under which bytes are read as a log that begins with this rest, where it goes on after closed ones.
    pub(crate) fn digest(&self, rest: Option<&[u8]>, bytes: &[u8]) -> SettingsDigest
        ensures { result ≡ turned self.now.digests (option_copied rest.entry) bytes.now }
    {
        self.digests.turned(rest, bytes)
    }
}

/// The settings that a text spells, with these keys, and their digests.
fn shared_of(alloc: Global, keys: &HashKeys, text: &[u8]) -> Result<SharedSettings, ServiceFault>
    ensures opened { IfOk result (λ shared. IsSharing text.now shared) }
    ensures refused { IfErr result (λ why. NoSettings text.now why) }
{
    let checked = read_checked_settings(alloc, keys, text)?;
    let digests = Digests::of(alloc, checked.settings(), text)?;
    Ok(SharedSettings { checked, digests })
}
