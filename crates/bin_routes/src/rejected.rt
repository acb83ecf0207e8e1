//! A row that says which requests stay rejected, whose texts passed.

ghost use Rattle.std.specs.Prelude.{◌≡◌, ◌+◌, ◌≤◌, ◌++◌, length, take, IfOk, IfErr, Some, None, IsSome};
ghost use Rattle.bin_routes.specs.Row.{filled_row};
ghost use Rattle.bin_routes.specs.Table.{rejected_key, text_of};
ghost use Rattle.bin_routes.specs.Fault.{text_fault};

use crate::fault::RoutesFault;
use crate::key::RouteKey;
use crate::providers::Providers;
use crate::route::{Bin, Pcn, bin_of, pcn_of};
use crate::row::RouteRow;

/// The four fields of a header by which it is routed, one after the other.
pub type KeyText = [u8; 33];

/// The text of the key of a row at a place that leads to no payer.
#[tactic(auto, unfolding(crate::specs::Fault::text_fault))]
pub(crate) fn rejected_of(place: usize, row: &RouteRow, payers: u16) -> Result<KeyText, RoutesFault>
    requires { IsSome row.now.rejected }
    ensures ok { IfOk result (λ text. (rejected_key (filled_row row.now) ≡ Some text)
        × (text_fault payers place row.now ≡ None)) }
    ensures fault { IfErr result (λ fault. text_fault payers place row.now ≡ Some fault) }
{
    let Some(bin) = bin_of(row.bin()) else {
        return Err(RoutesFault::BadBin(place));
    };
    match row.pcn() {
        None => Err(RoutesFault::NoSuchPayer(place)),
        Some(text) => match pcn_of(text) {
            None => Err(RoutesFault::BadPcn(place)),
            Some(pcn) => match row.providers() {
                None => Err(RoutesFault::NoSuchPayer(place)),
                Some(providers) => Ok(first_text(&bin, &pcn, &providers)),
            },
        },
    }
}

/// The text of the key of the first of these providers.
fn first_text(bin: &Bin, pcn: &Pcn, providers: &Providers) -> KeyText
    ensures { result ≡ text_of bin.now pcn.now providers.now.qualifier providers.now.first }
{
    joined(bin, pcn, &providers.qualifier, &providers.first)
}

/// The text of a key.
pub(crate) fn text_of(key: &RouteKey) -> KeyText
    ensures { result ≡ text_of key.now.bin key.now.pcn key.now.qualifier key.now.provider }
{
    joined(&key.bin, &key.pcn, &key.qualifier, &key.provider)
}

/// Four texts, one after the other.
#[tactic(auto, unfolding(crate::specs::Table::text_of))]
fn joined(bin: &Bin, pcn: &Pcn, qualifier: &[u8; 2], provider: &[u8; 15]) -> KeyText
    ensures { result ≡ text_of bin.now pcn.now qualifier.now provider.now }
{
    let mut text = [0; 33];
    let place = put(&mut text, 0, bin);
    let place = put(&mut text, place, pcn);
    let place = put(&mut text, place, qualifier);
    let _end = put(&mut text, place, provider);
    text
}

/// Writes a text at `place`, and answers the place after it.
#[inline(always)]
fn put(bytes: &mut [u8], place: usize, text: &[u8]) -> usize
    requires { place + length text.now ≤ length bytes.old }
    ensures end { result ≡ place + length text.now }
    ensures front { take (place + length text.now) bytes.new ≡ take place bytes.old ++ text.now }
{
    let end = place + text.len();
    bytes[place..end].copy_from_slice(text);
    end
}
