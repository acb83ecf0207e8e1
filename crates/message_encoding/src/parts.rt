//! The bytes of one part.

ghost use Rattle.std.specs.Prelude.{◌≡◌, List, [], ◌∷◌, ◌++◌, Some, map, OnOk, MatchResult};
ghost use Rattle.std.specs.Option.{option_map};
ghost use Rattle.serde_json.specs.Find.{get};
ghost use Rattle.serde_json.specs.View.{view};
ghost use Rattle.message_encoding.specs.Refused.{Gives};
ghost use Rattle.message_encoding.specs.declared.fault.PartFault.TheVariants.{OutOfMemory};
ghost use Rattle.message_encoding.specs.Parts.{field_front, front_of, id_of, is_among, is_header, number_front, part_bytes, spelled, text_at, value_of, valued};

use crate::fault::PartFault;
use input_text::{PrintedFault, unprint};
use serde_json::Value;
use std::alloc::Global;

/// The separator before a group.
const GROUP: u8 = 0x1D;

/// The separator before a field.
const FIELD: u8 = 0x1C;

/// The bytes that a part stands for.
///
/// # Errors
/// What is wrong with it; `OutOfMemory`.
pub(crate) fn part_bytes(alloc: Global, part: &Value) -> Result<Vec<u8>, PartFault>
    ensures { Gives result (part_bytes (view part.now)) }
{
    let Some(name) = text_at(part, "name") else {
        return Err(PartFault::NoName);
    };
    if name == "transaction" {
        return copied(alloc, &[GROUP]);
    }
    valued(alloc, name, part)
}

/// The same of a part that has a value.
fn valued(alloc: Global, name: &str, part: &Value) -> Result<Vec<u8>, PartFault>
    ensures { Gives result (valued name.now (view part.now)) }
{
    let mut bytes = front_of(alloc, name, part)?;
    let value = value_of(alloc, part)?;
    bytes.extend_from_slice(value.as_slice())?;
    Ok(bytes)
}

/// What stands before the value of a part.
fn front_of(alloc: Global, name: &str, part: &Value) -> Result<Vec<u8>, PartFault>
    ensures { Gives result (front_of name.now (view part.now)) }
{
    if name == "segment" {
        return copied(alloc, b"\x1e\x1cAM");
    }
    match part.get("field") {
        Some(field) => field_front(alloc, field),
        None => copied(alloc, &[]),
    }
}

/// What stands before the value of a field.
fn field_front(alloc: Global, field: &Value) -> Result<Vec<u8>, PartFault>
    ensures { Gives result (field_front (view field.now)) }
{
    let Some(text) = field.as_str() else {
        return Err(PartFault::NotField);
    };
    let number = spelled(alloc, text, PartFault::NotField)?;
    number_front(alloc, number.as_slice())
}

/// What stands before the value of a field of this number.
fn number_front(alloc: Global, number: &[u8]) -> Result<Vec<u8>, PartFault>
    ensures { Gives result (number_front number.now) }
{
    if is_header(number) {
        return copied(alloc, &[]);
    }
    match id_of(number) {
        Some(id) => id_front(alloc, id),
        None => Err(PartFault::NotField),
    }
}

/// A field separator and the two bytes that name a field.
fn id_front(alloc: Global, id: &[u8]) -> Result<Vec<u8>, PartFault>
    ensures { MatchResult result (λ front. front.items ≡ 28 ∷ id.now) (λ why. why ≡ OutOfMemory) }
{
    let mut front = copied(alloc, &[FIELD])?;
    front.extend_from_slice(id)?;
    Ok(front)
}

/// The two bytes that name a field of this number.
fn id_of(number: &[u8]) -> Option<&[u8]>
    ensures { option_map (λ id. id.now) result ≡ id_of number.now }
{
    if number.len() == 2 {
        return Some(number);
    }
    if number.len() == 6 && number[3] == b'-' {
        return Some(&number[4..]);
    }
    None
}

/// Whether a number is that of a field of a header, which stands at its place without a separator.
fn is_header(number: &[u8]) -> bool
    ensures { result ≡ is_header number.now }
{
    is_among(
        &[
            "101-A1", "102-A2", "103-A3", "104-A4", "109-A9", "202-B2", "201-B1", "401-D1",
            "110-AK", "501-F1",
        ],
        number,
    )
}

/// Whether a number is one of these.
fn is_among(known: &[&str], number: &[u8]) -> bool
    ensures { result ≡ is_among (map (λ one. one.now) known.now) number.now }
{
    for one in known {
        if number == one.as_bytes() {
            return true;
        }
    }
    false
}

/// The bytes at `value`.
fn value_of(alloc: Global, part: &Value) -> Result<Vec<u8>, PartFault>
    ensures { Gives result (value_of (view part.now)) }
{
    match text_at(part, "value") {
        Some(text) => spelled(alloc, text, PartFault::NotValue),
        None => Err(PartFault::NotValue),
    }
}

/// The bytes that a printed text spells; this fault where it spells none.
fn spelled(alloc: Global, text: &str, fault: PartFault) -> Result<Vec<u8>, PartFault>
    ensures { Gives result (spelled text.now) }
{
    match unprint(alloc, text.as_bytes()) {
        Ok(bytes) => Ok(bytes),
        Err(PrintedFault::OutOfMemory) => Err(PartFault::OutOfMemory),
        Err(PrintedFault::BadByte(_)) => Err(fault),
    }
}

/// The text at a key.
pub(crate) fn text_at<'a>(part: &'a Value, key: &str) -> Option<&'a str>
    ensures { option_map (λ text. text.now) result ≡ text_at key.now (view part.now) }
{
    match part.get(key) {
        Some(value) => value.as_str(),
        None => None,
    }
}

/// A copy of bytes.
fn copied(alloc: Global, bytes: &[u8]) -> Result<Vec<u8>, PartFault>
    ensures { MatchResult result (λ copy. copy.items ≡ bytes.now) (λ why. why ≡ OutOfMemory) }
{
    let mut copy = Vec::new(alloc);
    copy.extend_from_slice(bytes)?;
    Ok(copy)
}
