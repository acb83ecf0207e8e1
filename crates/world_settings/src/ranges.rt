//! The providers that a table of the array `route` names.

ghost use Rattle.std.specs.Prelude.{◌≡◌, codes};
ghost use Rattle.bin_routes.specs.Providers.{is_up_to};
ghost use Rattle.d0_header.specs.Field.{is_plain};
ghost use Rattle.std.specs.List.{list_all};
ghost use Rattle.toml.specs.View.{table_view};
ghost use Rattle.world_settings.specs.Routes.{has, named_providers, names_providers, one_provider, plain_at, providers_of, ranging, some_providers};

use crate::values::{filled_to_2, filled_to_15, text_at, value_at};
use bin_routes::Providers;
use toml::Table;

/// The providers that a row is for, where it is not for all; the outer `None` is a table that names them wrongly.
pub(crate) fn providers_of(table: &Table) -> Option<Option<Providers>>
    ensures { result ≡ providers_of (table_view table.now) }
{
    if !names_providers(table) {
        return Some(None);
    }
    match named_providers(table) {
        Some(providers) => Some(Some(providers)),
        None => None,
    }
}

/// Whether a row is for some providers alone.
fn names_providers(table: &Table) -> bool
    ensures { result ≡ names_providers (table_view table.now) }
{
    (has(table, "qualifier") || has(table, "provider"))
        || (has(table, "first") || has(table, "last"))
}

/// Whether a table has a key.
pub(crate) fn has(table: &Table, key: &str) -> bool
    ensures { result ≡ has key.now (table_view table.now) }
{
    value_at(table, key).is_some()
}

/// The providers that a table names: one, or those from the first to the last.
fn named_providers(table: &Table) -> Option<Providers>
    ensures { result ≡ named_providers (table_view table.now) }
{
    if !has(table, "provider") {
        return some_providers(table);
    }
    if has(table, "first") || has(table, "last") {
        return None;
    }
    one_provider(table)
}

/// One provider of a qualifier.
#[tactic(auto, unfolding(crate::specs::Routes::one_provider))]
pub(crate) fn one_provider(table: &Table) -> Option<Providers>
    ensures { result ≡ one_provider (table_view table.now) }
{
    let qualifier = qualifier(table)?;
    let provider = provider(table, "provider")?;
    Some(Providers {
        qualifier,
        first: provider,
        last: provider,
    })
}

/// The providers of a qualifier from the first to the last.
#[tactic(auto, unfolding(crate::specs::Routes::some_providers))]
fn some_providers(table: &Table) -> Option<Providers>
    ensures { result ≡ some_providers (table_view table.now) }
{
    let qualifier = qualifier(table)?;
    let first = provider(table, "first")?;
    let last = provider(table, "last")?;
    ranging(qualifier, first, last)
}

/// The providers from the first to the last, which is not before it.
fn ranging(qualifier: [u8; 2], first: [u8; 15], last: [u8; 15]) -> Option<Providers>
    ensures { result ≡ ranging qualifier first last }
{
    if !is_up_to(&first, &last) {
        return None;
    }
    Some(Providers {
        qualifier,
        first,
        last,
    })
}

/// Whether the first is the second or before it, in the order of bytes.
fn is_up_to(first: &[u8; 15], last: &[u8; 15]) -> bool
    ensures { result ≡ is_up_to first.now last.now }
{
    first.cmp(last).is_le()
}

/// The qualifier of the providers (202-B2), without separators, filled with spaces.
fn qualifier(table: &Table) -> Option<[u8; 2]>
    ensures { result ≡ plain_at 2 (codes "qualifier") (table_view table.now) }
{
    let text = text_at(table, "qualifier")?;
    let field = filled_to_2(text.as_bytes())?;
    if !are_plain(&field) {
        return None;
    }
    Some(field)
}

/// The ID of a provider at a key (201-B1), without separators, filled with spaces.
fn provider(table: &Table, key: &str) -> Option<[u8; 15]>
    ensures { result ≡ plain_at 15 key.now (table_view table.now) }
{
    let text = text_at(table, key)?;
    let field = filled_to_15(text.as_bytes())?;
    if !are_plain(&field) {
        return None;
    }
    Some(field)
}

/// Whether no byte is a separator.
fn are_plain(text: &[u8]) -> bool
    ensures { result ≡ list_all is_plain text.now }
{
    text.iter().all(|byte| !matches!(*byte, 0x1C..=0x1E))
}
