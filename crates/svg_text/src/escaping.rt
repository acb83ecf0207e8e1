//! Words as they stand in a file of markup.

ghost use Rattle.std.specs.Prelude.{◌≡◌, ◌++◌, OnOk};
ghost use Rattle.svg_text.specs.Escaping.{escaped, escaped_byte};

use std::alloc::AllocError;

/// Appends words with their markup characters escaped. A byte that is no printable ASCII character stands as `?`.
#[tactic(auto, unfolding(crate::specs::Escaping::escaped))]
pub(crate) fn put_escaped(out: &mut Vec<u8>, words: &[u8]) -> Result<(), AllocError>
    ensures { OnOk result (out.new.items ≡ out.old.items ++ escaped words.now) }
{
    for byte in words {
        put_byte(out, *byte)?;
    }
    Ok(())
}

#[tactic(auto, unfolding(crate::specs::Escaping::escaped_byte))]
fn put_byte(out: &mut Vec<u8>, byte: u8) -> Result<(), AllocError>
    ensures { OnOk result (out.new.items ≡ out.old.items ++ escaped_byte byte) }
{
    match byte {
        b'<' => out.extend_from_slice(b"&lt;"),
        b'>' => out.extend_from_slice(b"&gt;"),
        b'&' => out.extend_from_slice(b"&amp;"),
        b'"' => out.extend_from_slice(b"&quot;"),
        b'\'' => out.extend_from_slice(b"&apos;"),
        0x20..=0x7E => out.extend_from_slice(&[byte]),
        _ => out.extend_from_slice(b"?"),
    }
}
