//! A description of a message, as claimdecode writes it in JSON.

ghost use Rattle.std.specs.Prelude.{◌≡◌, Some, None, IsTrue, IfOk, IfErr, OnOk, IsUtf8};
ghost use Rattle.std.specs.Option.{option_map};
ghost use Rattle.serde_json.specs.Find.{get_item};
ghost use Rattle.serde_json.specs.Read.{read};
ghost use Rattle.serde_json.specs.View.{items_view, view};
ghost use Rattle.message_encoding.specs.declared.fault.ReadFault.TheVariants.{NotJson};
ghost use Rattle.message_encoding.specs.Parts.{AreAlike, DescribesAlike, IsAlike, first_unlike, is_alike, joined, part_bytes, parts_in, same_text, seen, text_at, text_in_part, unlike_in};
ghost use Rattle.message_encoding.specs.Refused.{GivesAll, GivesMessage, RefusedFor};

use crate::fault::{Misfit, PartFault, ReadFault};
use crate::parts::{part_bytes, text_at};
use serde_json::Value;
use std::alloc::Global;

/// A description that was read.
#[derive(Drop)]
pub struct Described {
    value: Value,
}

impl Described {
    /// The description that a text spells.
    ///
    /// # Errors
    /// `NotJson` where it spells no JSON; `OutOfMemory`.
    pub fn read(alloc: Global, text: &[u8]) -> Result<Described, ReadFault>
        ensures read { IfOk result (λ described. read text.now ≡ Some (seen described)) }
        ensures none { IfErr result (λ why. why ≡ NotJson → IsUtf8 text.now → read text.now ≡ None) }
    {
        match Value::from_slice(alloc, text) {
            Ok(value) => Ok(Described { value }),
            Err(fault) if fault.is_memory() => Err(ReadFault::OutOfMemory),
            Err(_) => Err(ReadFault::NotJson),
        }
    }

    /// The text at a key.
    pub fn text(&self, key: &str) -> Option<&str>
        ensures { option_map (λ text. text.now) result ≡ text_at key.now (seen self.now) }
    {
        text_at(&self.value, key)
    }

    /// The bytes of the message that it tells.
    ///
    /// # Errors
    /// The first part that is wrong, or that there are no parts; `OutOfMemory`.
    pub fn message(&self, alloc: Global) -> Result<Vec<u8>, Misfit>
        ensures { GivesMessage result (seen self.now) }
    {
        match self.parts() {
            Some(parts) => all_bytes(alloc, parts),
            None => Err(Misfit::NoParts),
        }
    }

    /// The text at a key of the part at a place, from 0.
    pub fn text_of_part(&self, place: usize, key: &str) -> Option<&str>
        ensures { option_map (λ text. text.now) result ≡ text_in_part place key.now (seen self.now) }
    {
        match self.parts() {
            Some(parts) => match part_at(parts, place) {
                Some(part) => text_at(part, key),
                None => None,
            },
            None => None,
        }
    }

    /// The place of the first part that another description of the same message tells otherwise; None where each part is told alike.
    ///
    /// # Errors
    /// What is wrong with a part; `OutOfMemory`.
    pub fn first_other(&self, alloc: Global, again: &Described) -> Result<Option<usize>, Misfit>
        ensures first { IfOk result (λ place. place ≡ unlike_in (parts_in (seen self.now)) (parts_in (seen again.now))) }
        // Where there is none each part has the same name, number and bytes.
        ensures alike { IfOk result (λ place. place ≡ None
            → DescribesAlike (parts_in (seen self.now)) (parts_in (seen again.now))) }
    {
        let (Some(parts), Some(others)) = (self.parts(), again.parts()) else {
            return Err(Misfit::NoParts);
        };
        first_other(alloc, parts, others)
    }

    /// The parts that it tells.
    fn parts(&self) -> Option<&[Value]>
        ensures { option_map (λ parts. items_view parts.now) result ≡ parts_in (seen self.now) }
    {
        match self.value.get("parts") {
            Some(value) => match value.as_array() {
                Some(parts) => Some(parts.as_slice()),
                None => None,
            },
            None => None,
        }
    }
}

/// The part at a place, from 0.
#[tactic(auto, using(serde_json::proofs::Views::get_item_within, serde_json::proofs::Views::get_item_past))]
fn part_at(parts: &[Value], place: usize) -> Option<&Value>
    ensures { option_map (λ part. view part.now) result ≡ get_item place (items_view parts.now) }
{
    if place >= parts.len() {
        return None;
    }
    Some(&parts[place])
}

/// The bytes of parts, one after the other.
fn all_bytes(alloc: Global, parts: &[Value]) -> Result<Vec<u8>, Misfit>
    ensures { GivesAll result (items_view parts.now) }
{
    let mut bytes = Vec::new(alloc);
    for (place, part) in parts.iter().enumerate() {
        match put_part(alloc, &mut bytes, part) {
            Ok(()) => {}
            Err(PartFault::OutOfMemory) => return Err(Misfit::OutOfMemory),
            Err(why) => return Err(Misfit::Part(place, why)),
        }
    }
    Ok(bytes)
}

/// Appends the bytes of a part.
fn put_part(alloc: Global, bytes: &mut Vec<u8>, part: &Value) -> Result<(), PartFault>
    ensures ok { OnOk result (joined (Some bytes.old.items) (part_bytes (view part.now)) ≡ Some bytes.new.items) }
    ensures err { IfErr result (λ why. RefusedFor why (part_bytes (view part.now))) }
{
    let more = part_bytes(alloc, part)?;
    bytes.extend_from_slice(more.as_slice())?;
    Ok(())
}

/// The place of the first part that is told otherwise.
fn first_other(alloc: Global, parts: &[Value], others: &[Value]) -> Result<Option<usize>, Misfit>
    ensures first { IfOk result (λ place. place ≡ first_unlike 0 (items_view parts.now) (items_view others.now)) }
    ensures alike { IfOk result (λ place. place ≡ None → AreAlike (items_view parts.now) (items_view others.now)) }
{
    for (place, part) in parts.iter().enumerate() {
        let Some(other) = others.get(place) else {
            return Ok(Some(place));
        };
        match is_alike(alloc, part, other) {
            Ok(true) => {}
            Ok(false) => return Ok(Some(place)),
            Err(PartFault::OutOfMemory) => return Err(Misfit::OutOfMemory),
            Err(why) => return Err(Misfit::Part(place, why)),
        }
    }
    if parts.len() < others.len() {
        return Ok(Some(parts.len()));
    }
    Ok(None)
}

/// Whether two parts have one name and one number, and stand for the same bytes.
fn is_alike(alloc: Global, part: &Value, other: &Value) -> Result<bool, PartFault>
    ensures is { IfOk result (λ same. same ≡ is_alike (view part.now) (view other.now)) }
    ensures alike { IfOk result (λ same. IsTrue same → IsAlike (view part.now) (view other.now)) }
{
    if !is_same_text(text_at(part, "name"), text_at(other, "name")) {
        return Ok(false);
    }
    if !is_same_text(text_at(part, "field"), text_at(other, "field")) {
        return Ok(false);
    }
    let bytes = part_bytes(alloc, part)?;
    let others = part_bytes(alloc, other)?;
    Ok(bytes.as_slice() == others.as_slice())
}

/// Whether two texts are one, or neither is there.
fn is_same_text(text: Option<&str>, other: Option<&str>) -> bool
    ensures is { result ≡ same_text (option_map (λ t. t.now) text.entry) (option_map (λ t. t.now) other.entry) }
    ensures same { IsTrue result → option_map (λ t. t.now) text.entry ≡ option_map (λ t. t.now) other.entry }
{
    match (text, other) {
        (Some(text), Some(other)) => text == other,
        (None, None) => true,
        _ => false,
    }
}
