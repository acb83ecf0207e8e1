//! Bytes as they stand in a field of CSV, and in a text of JSON.

ghost use Rattle.std.specs.Prelude.{◌≡◌, ◌∷◌, [], OnOk};
ghost use Rattle.std.specs.List.{flat_map, list_any};
ghost use Rattle.input_text.specs.Printing.{printed};
ghost use Rattle.table_text.specs.Adding.{Adds};
ghost use Rattle.table_text.specs.Quoting.{is_special, csv_byte, quoted, csv_text, json_byte, json_letters, json_text};

use input_text::put_printed;
use std::alloc::AllocError;

/// Appends bytes as they are printed; between quotation marks where a comma or a quotation mark is among them, which then
/// stands twice.
#[tactic(auto, unfolding(crate::specs::Quoting::csv_text))]
pub fn put_csv_text(out: &mut Vec<u8>, bytes: &[u8]) -> Result<(), AllocError>
    ensures { OnOk result (Adds out.old out.new (csv_text bytes.now)) }
{
    if has_special(bytes) {
        put_quoted(out, bytes)
    } else {
        put_printed(out, bytes)
    }
}

/// Whether a comma or a quotation mark is among bytes.
fn has_special(bytes: &[u8]) -> bool
    ensures { result ≡ list_any is_special bytes.now }
{
    bytes.iter().any(|byte| *byte == b',' || *byte == b'"')
}

/// Appends bytes between quotation marks of CSV.
#[tactic(auto, unfolding(crate::specs::Quoting::quoted))]
fn put_quoted(out: &mut Vec<u8>, bytes: &[u8]) -> Result<(), AllocError>
    ensures { OnOk result (Adds out.old out.new (quoted bytes.now)) }
{
    out.push(b'"')?;
    put_doubled(out, bytes)?;
    out.push(b'"')?;
    Ok(())
}

/// Appends bytes as they are printed, a quotation mark twice.
fn put_doubled(out: &mut Vec<u8>, bytes: &[u8]) -> Result<(), AllocError>
    ensures { OnOk result (Adds out.old out.new (flat_map csv_byte bytes.now)) }
{
    for byte in bytes {
        put_csv_byte(out, *byte)?;
    }
    Ok(())
}

/// Appends a byte as it is printed, a quotation mark twice.
#[tactic(auto, unfolding(crate::specs::Quoting::csv_byte))]
fn put_csv_byte(out: &mut Vec<u8>, byte: u8) -> Result<(), AllocError>
    ensures { OnOk result (Adds out.old out.new (csv_byte byte)) }
{
    match byte {
        b'"' => out.extend_from_slice(b"\"\""),
        _ => put_printed(out, &[byte]),
    }
}

/// Appends bytes as they are printed, as a text of JSON: between quotation marks, with a backslash before each quotation
/// mark and each backslash of what is printed.
#[tactic(auto, unfolding(crate::specs::Quoting::json_text))]
pub fn put_json_text(out: &mut Vec<u8>, bytes: &[u8]) -> Result<(), AllocError>
    ensures { OnOk result (Adds out.old out.new (json_text bytes.now)) }
{
    out.push(b'"')?;
    put_json_letters(out, bytes)?;
    out.push(b'"')?;
    Ok(())
}

/// Appends what stands between the quotation marks of a text of JSON.
pub fn put_json_letters(out: &mut Vec<u8>, bytes: &[u8]) -> Result<(), AllocError>
    ensures { OnOk result (Adds out.old out.new (json_letters bytes.now)) }
{
    for byte in bytes {
        put_json_byte(out, *byte)?;
    }
    Ok(())
}

/// Appends a byte as it is printed, with a backslash before a quotation mark and before a backslash.
#[tactic(auto, unfolding(crate::specs::Quoting::json_byte))]
fn put_json_byte(out: &mut Vec<u8>, byte: u8) -> Result<(), AllocError>
    ensures { OnOk result (Adds out.old out.new (json_byte byte)) }
{
    match byte {
        b'"' => out.extend_from_slice(b"\\\""),
        b'\\' => out.extend_from_slice(b"\\\\\\\\"),
        0x20..=0x7E => out.extend_from_slice(&[byte]),
        _ => put_marked(out, byte),
    }
}

/// Appends a byte as it is printed, after a backslash.
fn put_marked(out: &mut Vec<u8>, byte: u8) -> Result<(), AllocError>
    ensures { OnOk result (Adds out.old out.new (92 ∷ printed (byte ∷ []))) }
{
    out.push(b'\\')?;
    put_printed(out, &[byte])
}
