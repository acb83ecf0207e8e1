//! The cap of a switch, as bytes.

ghost use Rattle.std.specs.Prelude.{◌≡◌, ◌++◌, OnOk};
ghost use Rattle.codec.specs.Codecs.{whole};
ghost use Rattle.switch_node.specs.Bytes.{cap_codec};

use crate::settings::SwitchSettings;
use claim_model::Limits;
use codec::{put_u32, take_u32};
use std::alloc::AllocError;

/// The bytes of a cap: a number of four bytes, the high one first (own).
#[tactic(auto, unfolding(crate::specs::Bytes::cap_codec))]
pub fn cap_bytes(settings: SwitchSettings) -> [u8; 4]
    ensures bytes { result ≡ cap_codec.text settings }
    ensures fits { cap_codec.Fits settings }
{
    settings.cap().to_be_bytes()
}

/// Appends a cap.
///
/// # Errors
/// Memory was refused.
#[tactic(auto, unfolding(crate::specs::Bytes::cap_codec))]
pub fn put_cap(out: &mut Vec<u8>, settings: SwitchSettings) -> Result<(), AllocError>
    ensures text { OnOk result (out.new.items ≡ out.old.items ++ cap_codec.text settings) }
    ensures fits { OnOk result (cap_codec.Fits settings) }
{
    put_u32(out, settings.cap())
}

/// The settings of the cap that these bytes are; none where they are none, or more.
#[tactic(auto, unfolding(crate::specs::Bytes::cap_codec))]
pub fn read_cap(bytes: &[u8]) -> Option<SwitchSettings>
    ensures { result ≡ whole cap_codec bytes.now }
{
    let (cap, rest) = take_u32(bytes)?;
    let settings = SwitchSettings::within(Limits::widest(), cap).ok()?;
    if rest.is_empty() {
        Some(settings)
    } else {
        None
    }
}
