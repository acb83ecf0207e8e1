//! Numbers and texts, put after what is written already.

ghost use Rattle.std.specs.Prelude.{◌≡◌, ◌++◌, OnOk};
ghost use Rattle.codec.specs.Codecs.{u8, u16, u32, u64, text};

use std::alloc::AllocError;

/// Puts a number of one byte.
pub fn put_u8(out: &mut Vec<u8>, number: u8) -> Result<(), AllocError>
    ensures { OnOk result (out.new.items ≡ out.old.items ++ u8.text number) }
{
    out.push(number)?;
    Ok(())
}

/// Puts a number of two bytes.
pub fn put_u16(out: &mut Vec<u8>, number: u16) -> Result<(), AllocError>
    ensures { OnOk result (out.new.items ≡ out.old.items ++ u16.text number) }
{
    out.extend_from_slice(&number.to_be_bytes())
}

/// Puts a number of four bytes.
pub fn put_u32(out: &mut Vec<u8>, number: u32) -> Result<(), AllocError>
    ensures { OnOk result (out.new.items ≡ out.old.items ++ u32.text number) }
{
    out.extend_from_slice(&number.to_be_bytes())
}

/// Puts a number of eight bytes.
pub fn put_u64(out: &mut Vec<u8>, number: u64) -> Result<(), AllocError>
    ensures { OnOk result (out.new.items ≡ out.old.items ++ u64.text number) }
{
    out.extend_from_slice(&number.to_be_bytes())
}

/// Puts a text after its length of eight bytes.
pub fn put_text(out: &mut Vec<u8>, bytes: &[u8]) -> Result<(), AllocError>
    ensures text { OnOk result (out.new.items ≡ out.old.items ++ text.text bytes.now) }
    ensures fits { text.Fits bytes.now }
{
    put_u64(out, bytes.len() as u64)?;
    out.extend_from_slice(bytes)
}
