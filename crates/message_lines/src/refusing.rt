//! Why a description gives no message, in words.

ghost use Rattle.std.specs.Prelude.{◌≡◌, ◌++◌, OnOk};
ghost use Rattle.std.specs.Option.{option_map};
ghost use Rattle.message_encoding.specs.Parts.{seen};
ghost use Rattle.message_lines.specs.Refused.{after_space, fault_words, member_of, misread_words, part_names, part_words, refusal_words};

use crate::fault::{Fault, Misread, Refusal};
use input_text::{put_decimal, put_printed};
use message_encoding::Described;
use std::alloc::AllocError;

/// Appends why a description gives no message, and ends the line.
///
/// # Errors
/// Memory was refused.
pub(crate) fn put_refusal(text: &mut Vec<u8>, refusal: &Refusal) -> Result<(), AllocError>
    ensures { OnOk result (text.new.items ≡ text.old.items ++ refusal_words refusal.now) }
{
    text.extend_from_slice(b"no message: ")?;
    put_fault(text, refusal)?;
    text.extend_from_slice(b"\n")
}

/// Appends what is wrong.
fn put_fault(text: &mut Vec<u8>, refusal: &Refusal) -> Result<(), AllocError>
    ensures { OnOk result (text.new.items ≡ text.old.items
        ++ fault_words refusal.now.fault (option_map seen refusal.now.described)) }
{
    match refusal.fault {
        Fault::NotJson => text.extend_from_slice(b"it is no JSON"),
        Fault::NoParts => text.extend_from_slice(b"/parts is no list"),
        Fault::Part(place, why) => put_part(text, place, why, &refusal.described),
        Fault::NoBytes => text.extend_from_slice(b"no line spells one without bytes"),
    }
}

/// Appends what is wrong with the part at a place.
fn put_part(
    text: &mut Vec<u8>,
    place: usize,
    why: Misread,
    described: &Option<Described>,
) -> Result<(), AllocError>
    ensures { OnOk result (text.new.items ≡ text.old.items
        ++ part_words place why (option_map seen described.now)) }
{
    text.extend_from_slice(b"/parts/")?;
    put_decimal(text, place as u64)?;
    text.extend_from_slice(why.member().as_bytes())?;
    put_names(text, place, described)?;
    text.extend_from_slice(b": ")?;
    text.extend_from_slice(why.words().as_bytes())
}

/// Appends the field and the name of the part at a place, where they are there.
fn put_names(
    text: &mut Vec<u8>,
    place: usize,
    described: &Option<Described>,
) -> Result<(), AllocError>
    ensures { OnOk result (text.new.items ≡ text.old.items
        ++ part_names place (option_map seen described.now)) }
{
    match described {
        Some(described) => {
            put_text(text, described.text_of_part(place, "field"))?;
            put_text(text, described.text_of_part(place, "name"))
        }
        None => Ok(()),
    }
}

/// Appends a text after a space, where it is there.
fn put_text(text: &mut Vec<u8>, named: Option<&str>) -> Result<(), AllocError>
    ensures { OnOk result (text.new.items ≡ text.old.items ++ after_space (option_map (λ t. t.now) named.entry)) }
{
    match named {
        Some(named) => {
            text.extend_from_slice(b" ")?;
            put_printed(text, named.as_bytes())
        }
        None => Ok(()),
    }
}

impl Misread {
    /// Where in a part it is.
    fn member(self) -> &'static str
        ensures { result.now ≡ member_of self }
    {
        match self {
            Misread::NoName => "/name",
            Misread::NotField => "/field",
            Misread::NotValue => "/value",
            Misread::ReadsOtherwise => "",
        }
    }

    /// What it is.
    fn words(self) -> &'static str
        ensures { result.now ≡ misread_words self }
    {
        match self {
            Misread::NoName => "a text is wanted",
            Misread::NotField => "a field's number, as 302-C2, or its two letters are wanted",
            Misread::NotValue => "a text in printed bytes is wanted",
            Misread::ReadsOtherwise => "the message does not read back with this part",
        }
    }
}
