//! Digests of settings.

ghost use Rattle.std.specs.Prelude.{◌≡◌, ◌++◌, length, take, drop};
ghost use Rattle.sha2.specs.Sha256.{sha256};
ghost use Rattle.kept_logs.specs.Digests.{of_file, of_said, version_of, version_seen};
ghost use Rattle.kept_logs.specs.Rests.{behind};

use crate::version::LogVersion;
use sha2::{Digest, Sha256};
use std::marker::Model;

/// How many bytes of a rest stand before the record.
const REST_HEAD: usize = 54;

/// What the head of a log has of the settings that its node was opened with: the version of the log, and after it a SHA-256
/// digest. In version 1 that is the digest of the bytes of the settings' file, in version 2 of a text of what they say.
#[derive(Clone, Copy, PartialEq, Eq)]
pub struct SettingsDigest {
    version: LogVersion,
    bytes: [u8; 32],
}

impl Model for SettingsDigest {
    ghost use Rattle.std.specs.Prelude.{List, ℕ, ◌∷◌, drop, slice_index};
    ghost use Rattle.kept_logs.specs.Digests.{named_back, version_named, version_seen};

    ghost Value = { List ℕ };

    ghost view = { λ digest. version_seen digest.version ∷ digest.bytes };

    ghost inverse = { λ digest. record { version = version_named (slice_index digest 0); bytes = drop 1 digest } };

    ghost inverse_ok = { λ digest _ i. record { version = named_back digest.version i; bytes = digest.bytes } };
}

impl SettingsDigest {
    /// That of version 1: of the bytes of the settings' file.
    pub fn of_file(file: &[u8]) -> SettingsDigest
        ensures { result ≡ of_file file.now }
    {
        let bytes = Sha256::digest(file);
        SettingsDigest {
            version: LogVersion::First,
            bytes,
        }
    }

    /// That of version 2: of a text of what the settings say.
    pub fn of_said(said: &[u8]) -> SettingsDigest
        ensures { result ≡ of_said said.now }
    {
        let bytes = Sha256::digest(said);
        SettingsDigest {
            version: LogVersion::Second,
            bytes,
        }
    }

    /// That of a log which goes on after closed ones, under the same settings, and begins with this rest: of this digest, and of
    /// what stands before the record in the rest.
    #[tactic(auto, unfolding(crate::specs::Rests::behind))]
    pub fn behind(&self, rest: &[u8]) -> SettingsDigest
        ensures { result ≡ behind self.now rest.now }
    {
        let head = &rest[..REST_HEAD.min(rest.len())];
        SettingsDigest {
            version: LogVersion::Second,
            bytes: digest_of(&self.bytes, head),
        }
    }

    /// The version of a log that has it.
    pub fn version(&self) -> LogVersion
        ensures { version_seen result ≡ version_of self.now }
    {
        self.version
    }

    /// The version, a byte.
    pub(crate) fn version_byte(&self) -> [u8; 1]
        ensures { result ≡ take 1 self.now }
    {
        [self.version.number()]
    }

    /// The digest, 32 bytes.
    pub fn as_slice(&self) -> &[u8]
        ensures bytes { result.now ≡ drop 1 self.now }
        ensures size { length self.now ≡ 33 }
    {
        &self.bytes
    }
}

/// The SHA-256 digest of bytes and those after them.
fn digest_of(bytes: &[u8], more: &[u8]) -> [u8; 32]
    ensures { result ≡ sha256 (bytes.now ++ more.now) }
{
    let mut hasher = Sha256::new();
    hasher.update(bytes);
    hasher.update(more);
    hasher.finalize()
}
