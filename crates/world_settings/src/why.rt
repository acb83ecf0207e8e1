//! What is wrong in a text of settings, for people.

use crate::limits::limits_in;
use crate::ranges::providers_of;
use crate::settings::document_with;
use crate::wanted::{
    ANSWERS, Key, LIMITS, LIVING_PAYER, LIVING_ROUTE, LIVING_TOP, PAYER, PHARMACY, REJECTING_ROUTE,
    ROUTE, SWITCH, TOP,
};
use claim_model::Limits;
use std::alloc::{AllocError, Global};
use toml::de::Error as TomlError;
use toml::{Table, Value};
use world_setup::{WorldFault, WorldSettings};

/// What is wrong in a text of settings: which key of which table and what is wanted there, or what a world does not take.
/// `None` where nothing is found.
pub fn settings_fault(alloc: Global, text: &[u8]) -> Result<Option<String>, AllocError> {
    fault_in(alloc, text, Reader::Stated)
}

/// The same of a text that may state its limits, for programs that live.
pub fn living_settings_fault(alloc: Global, text: &[u8]) -> Result<Option<String>, AllocError> {
    fault_in(alloc, text, Reader::Living)
}

/// Who reads a text of settings.
#[derive(Clone, Copy)]
enum Reader {
    /// A program whose limits are the stated ones.
    Stated,
    /// A program that takes the limits that a text states.
    Living,
}

impl Reader {
    /// Whether it takes wide settings.
    fn is_living(self) -> bool {
        matches!(self, Reader::Living)
    }
}

/// What is wrong in a text of settings for who reads it.
fn fault_in(alloc: Global, text: &[u8], reader: Reader) -> Result<Option<String>, AllocError> {
    match toml::table_from_slice(alloc, text) {
        Ok(table) => document_fault(alloc, &table, reader),
        Err(error) if error.is_memory() => Err(AllocError),
        Err(error) => Ok(Some(text_fault(alloc, text, &error)?)),
    }
}

/// What is wrong in a text that is no TOML document, and in which of its lines.
fn text_fault(alloc: Global, text: &[u8], error: &TomlError) -> Result<String, AllocError> {
    let place = match error.span() {
        Some(span) => span.start.min(text.len()),
        None => 0,
    };
    let mut line = 1u64;
    for byte in &text[..place] {
        if *byte == b'\n' {
            line = line.saturating_add(1);
        }
    }
    let message = error.message();
    format!(in alloc; "line {line} of the settings is no TOML: {message}")
}

/// What is wrong with settings of which each key is as it is wanted.
fn whole_fault(
    alloc: Global,
    document: &Table,
    limits: Limits,
    reader: Reader,
) -> Result<Option<String>, AllocError> {
    let Some(settings) = document_with(alloc, reader.is_living(), false, document)? else {
        return Ok(None);
    };
    if has_too_many(&settings, limits) {
        let (pharmacies, switches) = (limits.pharmacies(), limits.switches());
        let payers = limits.payers();
        let told = format!(in alloc;
            "the settings make no world: there are more than {pharmacies} pharmacies, {switches} switches or {payers} payers"
        )?;
        return Ok(Some(told));
    }
    match settings.checked_routes(alloc) {
        Ok(_) => Ok(None),
        Err(WorldFault::OutOfMemory) => Err(AllocError),
        Err(fault) => {
            let told = format!(in alloc; "the settings make no world: {fault}")?;
            Ok(Some(told))
        }
    }
}

/// Whether there are more nodes of a kind than the limits allow.
fn has_too_many(settings: &WorldSettings, limits: Limits) -> bool {
    settings.pharmacies.len() > limits.pharmacies() as usize
        || settings.switches.len() > limits.switches() as usize
        || settings.payers.len() > limits.payers() as usize
}

/// What is wrong with a key of the whole or of one of its tables, or else with the whole.
fn document_fault(
    alloc: Global,
    document: &Table,
    reader: Reader,
) -> Result<Option<String>, AllocError> {
    let (top, payer) = match reader {
        Reader::Stated => (TOP, PAYER),
        Reader::Living => (LIVING_TOP, LIVING_PAYER),
    };
    if let Some(told) = table_fault(alloc, "the settings", document, top, Limits::stated())? {
        return Ok(Some(told));
    }
    if let Some(told) = limits_fault(alloc, document)? {
        return Ok(Some(told));
    }
    if let Some(told) = answers_fault(alloc, document)? {
        return Ok(Some(told));
    }
    let limits = limits_in(document).unwrap_or(Limits::stated());
    let arrays = [("pharmacy", PHARMACY), ("switch", SWITCH), ("payer", payer)];
    for (name, keys) in arrays {
        if let Some(told) = tables_fault(alloc, document, name, keys, limits)? {
            return Ok(Some(told));
        }
    }
    if let Some(told) = routes_fault(alloc, document, reader, limits)? {
        return Ok(Some(told));
    }
    if let Some(told) = providers_fault(alloc, document)? {
        return Ok(Some(told));
    }
    whole_fault(alloc, document, limits, reader)
}

/// What is wrong with a key of the limits.
fn limits_fault(alloc: Global, document: &Table) -> Result<Option<String>, AllocError> {
    let Some(value) = document.get("limits") else {
        return Ok(None);
    };
    match value.as_table() {
        Some(table) => table_fault(alloc, "[limits]", table, LIMITS, Limits::stated()),
        None => Ok(None),
    }
}

/// What is wrong with the key of what answers carry.
fn answers_fault(alloc: Global, document: &Table) -> Result<Option<String>, AllocError> {
    let Some(value) = document.get("answers") else {
        return Ok(None);
    };
    match value.as_table() {
        Some(table) => table_fault(alloc, "[answers]", table, ANSWERS, Limits::stated()),
        None => Ok(None),
    }
}

/// What is wrong with a key of one of the tables of an array.
fn tables_fault(
    alloc: Global,
    document: &Table,
    name: &str,
    keys: &[Key],
    limits: Limits,
) -> Result<Option<String>, AllocError> {
    let Some(value) = document.get(name) else {
        return Ok(None);
    };
    let Some(list) = value.as_array() else {
        return Ok(None);
    };
    for (passed, value) in list.as_slice().iter().enumerate() {
        if let Some(told) = item_fault(alloc, name, passed, value, keys, limits)? {
            return Ok(Some(told));
        }
    }
    Ok(None)
}

/// What is wrong with a key of one of the routes.
fn routes_fault(
    alloc: Global,
    document: &Table,
    reader: Reader,
    limits: Limits,
) -> Result<Option<String>, AllocError> {
    let Some(list) = document.get("route").and_then(Value::as_array) else {
        return Ok(None);
    };
    for (passed, value) in list.as_slice().iter().enumerate() {
        if let Some(table) = value.as_table() {
            if let Some(told) = route_fault(alloc, passed, table, reader, limits)? {
                return Ok(Some(told));
            }
        }
    }
    Ok(None)
}

/// What is wrong with a key of the route at one place: one that leads to a payer, or to none.
fn route_fault(
    alloc: Global,
    passed: usize,
    table: &Table,
    reader: Reader,
    limits: Limits,
) -> Result<Option<String>, AllocError> {
    let number = passed.saturating_add(1);
    if reader.is_living() && table.get("rejected").is_some() {
        let place = format!(in alloc; "[[route]] {number} with rejected")?;
        return table_fault(alloc, place.as_str(), table, REJECTING_ROUTE, limits);
    }
    let place = format!(in alloc; "[[route]] {number}")?;
    let keys = match reader {
        Reader::Stated => ROUTE,
        Reader::Living => LIVING_ROUTE,
    };
    table_fault(alloc, place.as_str(), table, keys, limits)
}

/// What is wrong with the providers of a route, of which each key is as it is wanted.
fn providers_fault(alloc: Global, document: &Table) -> Result<Option<String>, AllocError> {
    let Some(list) = document.get("route").and_then(Value::as_array) else {
        return Ok(None);
    };
    for (passed, value) in list.as_slice().iter().enumerate() {
        if let Some(table) = value.as_table() {
            if providers_of(table).is_none() {
                let number = passed.saturating_add(1);
                let told = format!(in alloc;
                    "providers of [[route]] {number}: qualifier and provider are wanted, or qualifier, first and last, which is not before the first"
                )?;
                return Ok(Some(told));
            }
        }
    }
    Ok(None)
}

/// What is wrong with a key of the table at one place of an array.
fn item_fault(
    alloc: Global,
    name: &str,
    passed: usize,
    value: &Value,
    keys: &[Key],
    limits: Limits,
) -> Result<Option<String>, AllocError> {
    let Some(table) = value.as_table() else {
        return Ok(None);
    };
    let number = passed.saturating_add(1);
    let place = format!(in alloc; "[[{name}]] {number}")?;
    table_fault(alloc, place.as_str(), table, keys, limits)
}

/// What is wrong with a key of a table: one that is not known, one that is missing, or the value of one.
fn table_fault(
    alloc: Global,
    place: &str,
    table: &Table,
    keys: &[Key],
    limits: Limits,
) -> Result<Option<String>, AllocError> {
    for (name, _value) in table.iter() {
        let name = name.as_str();
        if !is_among(keys, name) {
            let told = format!(in alloc; "key {name} of {place} is not known")?;
            return Ok(Some(told));
        }
    }
    for key in keys {
        if let Some(told) = key_fault(alloc, place, table, *key, limits)? {
            return Ok(Some(told));
        }
    }
    Ok(None)
}

/// Whether a key of this name is one of these.
fn is_among(keys: &[Key], name: &str) -> bool {
    for key in keys {
        if key.name() == name {
            return true;
        }
    }
    false
}

/// What is wrong with one key of a table.
fn key_fault(
    alloc: Global,
    place: &str,
    table: &Table,
    key: Key,
    limits: Limits,
) -> Result<Option<String>, AllocError> {
    let (name, wanted) = (key.name(), key.wanted().within(limits));
    match table.get(name) {
        Some(value) => {
            if wanted.takes(value) {
                return Ok(None);
            }
            let told = format!(in alloc; "key {name} of {place}: {wanted} is wanted")?;
            Ok(Some(told))
        }
        None => {
            if !key.is_needed() {
                return Ok(None);
            }
            let told = format!(in alloc; "key {name} of {place} is missing: {wanted} is wanted")?;
            Ok(Some(told))
        }
    }
}
