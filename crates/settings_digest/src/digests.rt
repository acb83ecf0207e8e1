//! The digests of settings, one for each version of logs.

ghost use Rattle.std.specs.Prelude.{◌≡◌, Some, IfOk};
ghost use Rattle.std.specs.Option.{option_copied};
ghost use Rattle.world_settings.specs.Document.{document_seen, living_in};
ghost use Rattle.settings_digest.specs.Digests.{AreOf, turned, under};

use crate::writing::said;
use kept_logs::{SettingsDigest, is_first};
use std::alloc::{AllocError, Global};
use world_setup::WorldSettings;

/// The digests of settings, one for each version of logs. Which one is meant is told by the version that stands in a log.
#[derive(Clone, Copy)]
pub struct Digests {
    /// Of the bytes of their file, for logs of version 1.
    pub file: SettingsDigest,
    /// Of what they say, for logs of version 2. A log that begins is of this version.
    pub said: SettingsDigest,
}

impl Digests {
    /// The digests of settings, of the file that spells them.
    ///
    /// # Errors
    /// Memory was refused.
    pub fn of(alloc: Global, settings: &WorldSettings, file: &[u8]) -> Result<Digests, AllocError>
        requires { living_in file.now ≡ Some (document_seen settings.now) }
        ensures { IfOk result (λ digests. AreOf file.now digests) }
    {
        let text = said(alloc, settings)?;
        Ok(Digests {
            file: SettingsDigest::of_file(file),
            said: SettingsDigest::of_said(text.as_slice()),
        })
    }

    /// The one under which bytes are read as a log that begins with this rest, where it goes on after closed ones.
    pub fn turned(&self, rest: Option<&[u8]>, bytes: &[u8]) -> SettingsDigest
        ensures { result ≡ turned self.now (option_copied rest.entry) bytes.now }
    {
        match rest {
            None => self.under(bytes),
            Some(rest) => self.said.behind(rest),
        }
    }

    /// The one under which bytes are read as a log.
    pub fn under(&self, bytes: &[u8]) -> SettingsDigest
        ensures { result ≡ under self.now bytes.now }
    {
        if is_first(bytes) {
            self.file
        } else {
            self.said
        }
    }
}
