//! Texts as they stand in a document of TOML.

ghost use Rattle.std.specs.Prelude.{◌≡◌, ◌++◌, ◌<◌, OnOk};
ghost use Rattle.input_text.specs.Printing.{hex_digit};
ghost use Rattle.rejected_rows.specs.Strings.{escaped, escaped_byte};

use std::alloc::AllocError;

/// Appends a text as it stands between the quotation marks of a string.
#[tactic(auto, unfolding(crate::specs::Strings::escaped))]
pub(crate) fn put_escaped(out: &mut Vec<u8>, text: &[u8]) -> Result<(), AllocError>
    ensures { OnOk result (out.new.items ≡ out.old.items ++ escaped text.now) }
{
    for byte in text {
        put_byte(out, *byte)?;
    }
    Ok(())
}

/// The same for one byte.
#[tactic(auto, unfolding(crate::specs::Strings::escaped_byte))]
fn put_byte(out: &mut Vec<u8>, byte: u8) -> Result<(), AllocError>
    ensures { OnOk result (out.new.items ≡ out.old.items ++ escaped_byte byte) }
{
    match byte {
        b'"' => out.extend_from_slice(b"\\\""),
        b'\\' => out.extend_from_slice(b"\\\\"),
        0x00..=0x1F | 0x7F => {
            out.extend_from_slice(&[
                b'\\',
                b'u',
                b'0',
                b'0',
                hex_digit(byte / 16),
                hex_digit(byte % 16),
            ])
        }
        _ => out.extend_from_slice(&[byte]),
    }
}

/// The digit of a number below sixteen.
fn hex_digit(number: u8) -> u8
    requires { number < 16 }
    ensures { result ≡ hex_digit number }
{
    if number < 10 {
        b'0' + number
    } else {
        b'a' + (number - 10)
    }
}
