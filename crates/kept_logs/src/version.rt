//! The versions of logs.

ghost use Rattle.std.specs.Prelude.{◌≡◌};
ghost use Rattle.kept_logs.specs.Digests.{is_first, version_in, version_seen};

/// The version of a log: what it has of the settings of its node, and what vouches for its records. A log goes on in the version
/// in which it began.
#[derive(Clone, Copy, PartialEq, Eq)]
pub enum LogVersion {
    /// Version 1: a digest of the bytes of the settings' file, and SHA-256.
    First,
    /// Version 2, in which logs begin: a digest of a text of what the settings say, and SipHash-1-3.
    Second,
}

impl LogVersion {
    /// The version of bytes, if they are a log of one that there is.
    pub fn of(bytes: &[u8]) -> LogVersion
        ensures { version_seen result ≡ version_in bytes.now }
    {
        if is_first(bytes) {
            LogVersion::First
        } else {
            LogVersion::Second
        }
    }

    /// Its number, a byte of the head.
    pub(crate) fn number(self) -> u8
        ensures { result ≡ version_seen self }
    {
        match self {
            LogVersion::First => 1,
            LogVersion::Second => 2,
        }
    }
}

/// Whether bytes have the version 1, if they are a log.
pub fn is_first(bytes: &[u8]) -> bool
    ensures { result ≡ is_first bytes.now }
{
    bytes.len() > 2 && bytes[2] == 1
}
