//! What is told of a line: its message, or the message that it describes.

ghost use Rattle.std.specs.Prelude.{◌≡◌, ◌++◌, ◌<◌, IfOk, OnOk, false, is_ok, codes};
ghost use Rattle.std.specs.Fmt.{decimal};
ghost use Rattle.input_text.specs.Printing.{hex_digit};
ghost use Rattle.message_lines.specs.Answers.{IsAnswered, IsInputAnswered, hex_text, printed_line, spelling_of};
ghost use Rattle.message_words.specs.Described.{is_refused};
ghost use Rattle.message_lines.specs.Lines.{input_told, line_told, spelled};
ghost use Rattle.message_lines.specs.Refused.{refusal_words};

use crate::fault::{Fault, Refusal, Unmade};
use crate::making::message_in;
use crate::manner::Manner;
use crate::refusing::put_refusal;
use input_text::{put_decimal, put_printed};
use message_words::{Page, Spelling, SpellingFault, unwrapped};
use std::alloc::{AllocError, Global};

/// Describes on a page the message that a line of the input spells, or says at which place it spells no byte; whether it spells a
/// message.
///
/// # Errors
/// Memory was refused.
pub fn tell_line(
    alloc: Global,
    manner: Manner,
    number: u64,
    line: &[u8],
    page: &mut Page,
) -> Result<bool, AllocError>
    ensures told { OnOk result (page.new.out.bytes.items
        ≡ line_told manner.kind page.old.style page.old.dropped number (spelled manner.spelling line.now)) }
    ensures good { IfOk result (λ good. good ≡ is_ok (spelled manner.spelling line.now)) }
    ensures style { OnOk result ((page.new.style ≡ page.old.style) × (page.new.dropped ≡ page.old.dropped)) }
{
    match manner.bytes_in(alloc, line) {
        Ok(bytes) => {
            let bytes = bytes.as_slice();
            page.describe(alloc, number, manner.kind_of(bytes), bytes);
            unless_refused(page)?;
            Ok(true)
        }
        Err(SpellingFault::NoByte(place)) => {
            page.unspelled(number, place);
            unless_refused(page)?;
            Ok(false)
        }
        Err(SpellingFault::OutOfMemory) => Err(AllocError),
    }
}

/// Describes on a page the message that a whole input is, without the byte 0x02 before it and 0x03 behind it.
///
/// # Errors
/// Memory was refused.
pub fn tell_input(
    alloc: Global,
    manner: Manner,
    input: &[u8],
    page: &mut Page,
) -> Result<(), AllocError>
    ensures told { OnOk result (page.new.out.bytes.items ≡ input_told manner.kind page.old.style input.now) }
{
    let (bytes, before, behind) = unwrapped(input);
    page.note_dropped(before, behind);
    page.describe(alloc, 1, manner.kind_of(bytes), bytes);
    unless_refused(page)
}

/// Refuses a page for which memory was refused.
fn unless_refused(page: &Page) -> Result<(), AllocError>
    ensures { OnOk result (is_refused page.now ≡ false) }
{
    if page.is_refused() {
        return Err(AllocError);
    }
    Ok(())
}

/// Appends the line that spells the message which a line of the input describes, or one that is skipped and says why there is none;
/// whether there is one.
///
/// # Errors
/// Memory was refused.
pub fn answer_line(
    alloc: Global,
    spelling: Spelling,
    number: u64,
    line: &[u8],
    text: &mut Vec<u8>,
) -> Result<bool, AllocError>
    ensures { IfOk result (λ good. IsAnswered spelling number line.now good text.old.items text.new.items) }
{
    match message_in(alloc, line) {
        Ok(made) if !made.bytes.is_empty() => {
            put_message(spelling, made.bytes.as_slice(), text)?;
            Ok(true)
        }
        Ok(_) => {
            let refusal = Refusal {
                fault: Fault::NoBytes,
                described: None,
            };
            put_why(number, &refusal, text)?;
            Ok(false)
        }
        Err(Unmade::Refused(refusal)) => {
            put_why(number, &refusal, text)?;
            Ok(false)
        }
        Err(Unmade::OutOfMemory) => Err(AllocError),
    }
}

/// Appends the message that a whole input describes, as its bytes; where it describes none, a line that says why. Whether it does.
///
/// # Errors
/// Memory was refused.
pub fn answer_input(alloc: Global, input: &[u8], text: &mut Vec<u8>) -> Result<bool, AllocError>
    ensures { IfOk result (λ good. IsInputAnswered input.now good text.old.items text.new.items) }
{
    match message_in(alloc, input) {
        Ok(made) => {
            made.put_whole(text)?;
            Ok(true)
        }
        Err(Unmade::Refused(refusal)) => {
            put_refusal(text, &refusal)?;
            Ok(false)
        }
        Err(Unmade::OutOfMemory) => Err(AllocError),
    }
}

/// Appends a line that is skipped, and says why a line describes no message.
fn put_why(number: u64, refusal: &Refusal, text: &mut Vec<u8>) -> Result<(), AllocError>
    ensures { OnOk result (text.new.items ≡ text.old.items ++ codes "# line " ++ decimal number ++ codes ": "
        ++ refusal_words refusal.now) }
{
    text.extend_from_slice(b"# line ")?;
    put_decimal(text, number)?;
    text.extend_from_slice(b": ")?;
    put_refusal(text, refusal)
}

/// Appends a message as a line.
fn put_message(spelling: Spelling, bytes: &[u8], text: &mut Vec<u8>) -> Result<(), AllocError>
    ensures { OnOk result (text.new.items ≡ text.old.items ++ spelling_of spelling bytes.now ++ codes "\n") }
{
    match spelling {
        Spelling::Hex => put_hex(bytes, text)?,
        Spelling::Printed | Spelling::Raw => put_printed_line(bytes, text)?,
    }
    text.extend_from_slice(b"\n")
}

/// Appends bytes as they are printed. A line that begins with `#` would be skipped where it is read, so that byte is spelled.
fn put_printed_line(bytes: &[u8], text: &mut Vec<u8>) -> Result<(), AllocError>
    ensures { OnOk result (text.new.items ≡ text.old.items ++ printed_line bytes.now) }
{
    match bytes {
        [b'#', rest @ ..] => {
            text.extend_from_slice(b"\\x23")?;
            put_printed(text, rest)
        }
        _ => put_printed(text, bytes),
    }
}

/// Appends bytes as hexadecimal digits.
fn put_hex(bytes: &[u8], text: &mut Vec<u8>) -> Result<(), AllocError>
    ensures { OnOk result (text.new.items ≡ text.old.items ++ hex_text bytes.now) }
{
    for byte in bytes {
        text.extend_from_slice(&[digit(byte / 16), digit(byte % 16)])?;
    }
    Ok(())
}

/// The digit of a number below 16.
fn digit(number: u8) -> u8
    requires { number < 16 }
    ensures { result ≡ hex_digit number }
{
    if number < 10 {
        b'0' + number
    } else {
        b'a' + (number - 10)
    }
}
