//! A row for each key.

ghost use Rattle.std.specs.Prelude.{◌≡◌, ◌++◌, IfOk, OnOk, codes};
ghost use Rattle.std.specs.List.{list_all};
ghost use Rattle.std.specs.Option.{option_map};
ghost use Rattle.std.specs.Str.{is_utf8};
ghost use Rattle.rejected_rows.specs.Rows.{field_text, is_text, number_text, row_text, rows_in, rows_text};

use crate::escaping::put_escaped;
use crate::keys::{keys_of, last_of};
use bin_routes::RouteKey;
use claim_profile::trimmed;
use input_text::put_decimal;
use std::alloc::{AllocError, Global};

/// A row for each key of these requests, which go by their numbers: up to the last of its requests they stay rejected. None where a
/// processor control number, or an identity of a pharmacy, is no text that settings spell.
///
/// # Errors
/// Memory was refused.
pub fn rows_of(alloc: Global, rejected: &[(u64, RouteKey)]) -> Result<Option<Vec<u8>>, AllocError>
    ensures { IfOk result (λ rows. option_map (λ v. v.items) rows ≡ rows_in rejected.now) }
{
    let keys = keys_of(alloc, rejected)?;
    if !are_texts(keys.as_slice()) {
        return Ok(None);
    }
    let mut out = Vec::new(alloc);
    put_rows(&mut out, rejected, keys.as_slice())?;
    Ok(Some(out))
}

/// Whether settings can spell each of these keys.
fn are_texts(keys: &[RouteKey]) -> bool
    ensures { result ≡ list_all is_text keys.now }
{
    keys.iter().all(is_text)
}

/// Whether settings can spell a key: each of its fields is a text.
fn is_text(key: &RouteKey) -> bool
    ensures { result ≡ is_text key.now }
{
    (is_utf8(&key.bin) && is_utf8(&key.pcn)) && (is_utf8(&key.qualifier) && is_utf8(&key.provider))
}

/// Whether bytes are a text.
fn is_utf8(bytes: &[u8]) -> bool
    ensures { result ≡ is_utf8 bytes.now }
{
    match std::str::from_utf8(bytes) {
        Ok(_) => true,
        Err(_) => false,
    }
}

/// Appends the rows of keys.
#[tactic(auto, unfolding(crate::specs::Rows::rows_text))]
fn put_rows(
    out: &mut Vec<u8>,
    rejected: &[(u64, RouteKey)],
    keys: &[RouteKey],
) -> Result<(), AllocError>
    ensures { OnOk result (out.new.items ≡ out.old.items ++ rows_text rejected.now keys.now) }
{
    for key in keys {
        put_row(out, key, last_of(rejected, key))?;
    }
    Ok(())
}

/// Appends the row of a key, as a table of a TOML document.
fn put_row(out: &mut Vec<u8>, key: &RouteKey, number: u64) -> Result<(), AllocError>
    ensures { OnOk result (out.new.items ≡ out.old.items ++ row_text key.now number) }
{
    let RouteKey {
        bin,
        pcn,
        qualifier,
        provider,
    } = *key;
    out.extend_from_slice(b"\n[[route]]\n")?;
    put_field(out, b"bin = \"", &bin)?;
    put_field(out, b"pcn = \"", &pcn)?;
    put_field(out, b"qualifier = \"", &qualifier)?;
    put_field(out, b"provider = \"", &provider)?;
    put_number(out, number)?;
    Ok(())
}

/// Appends a field without the spaces that fill it, after the name that it has in a row.
#[tactic(auto, unfolding(crate::specs::Rows::field_text), using(crate::proofs::Joining::three_join))]
fn put_field(out: &mut Vec<u8>, name: &[u8], field: &[u8]) -> Result<(), AllocError>
    ensures { OnOk result (out.new.items ≡ out.old.items ++ field_text name.now field.now) }
{
    out.extend_from_slice(name)?;
    put_escaped(out, trimmed(field))?;
    out.extend_from_slice(b"\"\n")
}

/// Appends the number of the last request that stays rejected.
#[tactic(auto, unfolding(crate::specs::Rows::number_text), using(crate::proofs::Joining::three_join))]
fn put_number(out: &mut Vec<u8>, number: u64) -> Result<(), AllocError>
    ensures { OnOk result (out.new.items ≡ out.old.items ++ number_text number) }
{
    out.extend_from_slice(b"rejected = ")?;
    put_decimal(out, number)?;
    out.extend_from_slice(b"\n")
}
