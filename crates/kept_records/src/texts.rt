//! Texts of records, put after what is written already and taken from the front of bytes.

ghost use Rattle.std.specs.Prelude.{◌≡◌, ◌≤◌, ◌++◌, length, OnOk};
ghost use Rattle.std.specs.Option.{option_map};
ghost use Rattle.envelope.specs.Envelope.{longest_payload};
ghost use Rattle.kept_records.specs.Fields.{text_codec};

use codec::{put_u32, take_bytes, take_u32};
use envelope::LARGEST_PAYLOAD;
use std::alloc::AllocError;

/// Puts a text of at most 32,768 bytes after its length.
#[tactic(auto, unfolding(crate::specs::Fields::text_codec))]
pub(crate) fn put_text(out: &mut Vec<u8>, bytes: &[u8]) -> Result<(), AllocError>
    requires { length bytes.now ≤ longest_payload }
    ensures { OnOk result (out.new.items ≡ out.old.items ++ text_codec.text bytes.now) }
{
    put_u32(out, bytes.len() as u32)?;
    out.extend_from_slice(bytes)
}

/// A text after its length of four bytes, and what follows it; none where it is cut off or has more than
/// 32,768 bytes.
#[tactic(auto, unfolding(crate::specs::Fields::text_codec))]
pub(crate) fn take_text(bytes: &[u8]) -> Option<(&[u8], &[u8])>
    ensures { option_map (λ taken. (taken.0.now, taken.1.now)) result ≡ text_codec.at bytes.now }
{
    let (length, rest) = take_u32(bytes)?;
    if length as usize > LARGEST_PAYLOAD {
        return None;
    }
    take_bytes(u64::from(length), rest)
}
