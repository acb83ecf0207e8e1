//! Bytes into a buffer of the caller's.

ghost use Rattle.std.specs.Prelude.{◌≡◌, ◌*◌, ◌≤◌, ℕ, List, length, Ok};
ghost use Rattle.std.specs.declared.option.Option.TheVariants.{Some};
ghost use Rattle.node_handle.specs.Calls.{Copies};
ghost use Rattle.input_text.specs.Printing.{printed, unprinted};
ghost use Rattle.node_handle.specs.Texts.{Prints, Unprints};

use crate::refusal::Refusal;
use input_text::{PrintedFault, put_printed, unprint as bytes_of};
use std::alloc::Global;

/// Copies bytes to the start of a buffer, where it has room for them, and says how many they are.
///
/// # Errors
/// `ShortBuffer` where it has none; then the buffer is as it was.
pub(crate) fn copy_out(bytes: &[u8], buffer: &mut [u8], size: &mut usize) -> Result<(), Refusal>
    ensures { Copies (Some bytes.now) result buffer.old buffer.new size.old size.new }
{
    *size = bytes.len();
    if buffer.len() < bytes.len() {
        return Err(Refusal::ShortBuffer);
    }
    buffer[..bytes.len()].copy_from_slice(bytes);
    Ok(())
}

/// Copies the text that spells bytes, as lines have it, into a buffer.
///
/// # Errors
/// Memory was refused, or `ShortBuffer`. Then the buffer is as it was.
pub fn print(
    alloc: Global,
    bytes: &[u8],
    buffer: &mut [u8],
    size: &mut usize,
) -> Result<(), Refusal>
    ensures { Prints bytes.now result buffer.old buffer.new size.old size.new }
{
    let mut text = Vec::new(alloc);
    match put_printed(&mut text, bytes) {
        Ok(()) => copy_out(text.as_slice(), buffer, size),
        Err(_) => Err(Refusal::OutOfMemory),
    }
}

/// Copies the bytes that a text spells into a buffer.
///
/// # Errors
/// Memory was refused, `ShortBuffer`, or `BadText`, with the place of the first byte that spells nothing in `size`. Then
/// the buffer is as it was.
pub fn unprint(
    alloc: Global,
    text: &[u8],
    buffer: &mut [u8],
    size: &mut usize,
) -> Result<(), Refusal>
    ensures { Unprints text.now result buffer.old buffer.new size.old size.new }
{
    match bytes_of(alloc, text) {
        Ok(bytes) => copy_out(bytes.as_slice(), buffer, size),
        Err(PrintedFault::BadByte(place)) => {
            *size = place;
            Err(Refusal::BadText)
        }
        Err(PrintedFault::OutOfMemory) => Err(Refusal::OutOfMemory),
    }
}

/// Four times as many bytes are room for a text, and as many as the text has for what it spells.
#[tactic(auto, using(crate::proofs::Rooms::printed_room, crate::proofs::Rooms::unprinted_room))]
pub fn texts_have_room()
    ensures printed { (bytes : List ℕ) → length (printed bytes) ≤ 4 * length bytes }
    ensures unprinted { (text bytes : List ℕ) → unprinted text ≡ Ok bytes → length bytes ≤ length text }
{}
