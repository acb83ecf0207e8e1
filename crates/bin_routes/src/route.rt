//! A row whose texts passed.

ghost use Rattle.std.specs.Prelude.{◌≡◌, ◌&&◌, ◌==◌, if◌then◌else◌, not, nat_le, None, Some, IfOk, IfErr, length, ◌≤◌};
ghost use Rattle.std.specs.List.{list_all, list_any};
ghost use Rattle.bin_routes.specs.Row.{is_bin, is_pcn, is_plain, is_digit, ends_in_space, filled, filled_row, same_pcn, same_key};
ghost use Rattle.bin_routes.specs.Table.{fits, ranged_payer};
ghost use Rattle.bin_routes.specs.Fault.{is_payer, text_fault};

use crate::fault::RoutesFault;
use crate::key::RouteKey;
use crate::payer::PayerNo;
use crate::providers::{Providers, has_provider, meet};
use crate::row::RouteRow;
use std::marker::Model;

/// A BIN number (101-A1) as a header has it: six digits.
pub type Bin = [u8; 6];

/// A processor control number (104-A4) as a header has it: filled with spaces.
pub type Pcn = [u8; 10];

/// A row that leads to a payer and whose texts passed, as a header has them.
#[derive(Clone, Copy)]
pub struct Route {
    pub bin: Bin,
    pub pcn: Option<Pcn>,
    pub providers: Option<Providers>,
    pub payer: PayerNo,
}

impl Model for Route {
    ghost use Rattle.std.specs.Prelude.{None};
    ghost use Rattle.bin_routes.specs.Row.{Row};

    ghost Value = { Row };

    ghost view = { λ a. record { bin = a.bin; pcn = a.pcn; providers = a.providers; payer = a.payer; rejected = None } };

    ghost inverse = { λ a. record { bin = a.bin; pcn = a.pcn; providers = a.providers; payer = a.payer } };
}

impl Route {
    /// The route of the row at a place, which leads to a payer, for payers numbered from 1 to `payers`.
    #[tactic(auto, unfolding(crate::specs::Fault::text_fault))]
    pub fn of_row(place: usize, row: &RouteRow, payers: u16) -> Result<Route, RoutesFault>
        requires { row.now.rejected ≡ None }
        ensures ok { IfOk result (λ route. (route ≡ filled_row row.now) × (text_fault payers place row.now ≡ None)) }
        ensures fault { IfErr result (λ fault. text_fault payers place row.now ≡ Some fault) }
    {
        let Some(bin) = bin_of(row.bin()) else {
            return Err(RoutesFault::BadBin(place));
        };
        match row.pcn() {
            None => match payer_of(row.payer(), payers) {
                None => Err(RoutesFault::NoSuchPayer(place)),
                Some(payer) => Ok(Route {
                    bin,
                    pcn: None,
                    providers: row.providers(),
                    payer,
                }),
            },
            Some(text) => match pcn_of(text) {
                None => Err(RoutesFault::BadPcn(place)),
                Some(pcn) => match payer_of(row.payer(), payers) {
                    None => Err(RoutesFault::NoSuchPayer(place)),
                    Some(payer) => Ok(Route {
                        bin,
                        pcn: Some(pcn),
                        providers: row.providers(),
                        payer,
                    }),
                },
            },
        }
    }
}

impl Route {
    /// Whether some header is for both, as far as their texts and providers tell.
    fn is_same(&self, other: &Route) -> bool
        ensures { result ≡ same_key self.now other.now }
    {
        self.bin == other.bin
            && is_same_pcn(&self.pcn, &other.pcn)
            && meet(&self.providers, &other.providers)
    }

    /// Whether the route is for this BIN number and processor control number, or none, and for the provider of a header.
    #[tactic(auto, unfolding(crate::specs::Table::fits))]
    fn fits(&self, pcn: &Option<Pcn>, key: &RouteKey) -> bool
        ensures { result ≡ fits pcn.now key.now self.now }
    {
        self.bin == key.bin && is_same_pcn(&self.pcn, pcn) && has_provider(&self.providers, key)
    }
}

/// Whether the two are the same processor control number, or both none.
fn is_same_pcn(a: &Option<Pcn>, b: &Option<Pcn>) -> bool
    ensures { result ≡ same_pcn a.now b.now }
{
    match a {
        None => b.is_none(),
        Some(a) => match b {
            None => false,
            Some(b) => *a == *b,
        },
    }
}

/// Whether some header is for a route and for one of these.
pub(crate) fn is_among(routes: &[Route], route: &Route) -> bool
    ensures { result ≡ list_any (same_key route.now) routes.now }
{
    routes.iter().any(|other| route.is_same(other))
}

/// The payer of the first route for this BIN number and processor control number, or none, and for the provider of a header.
pub(crate) fn payer_among(routes: &[Route], pcn: &Option<Pcn>, key: &RouteKey) -> Option<PayerNo>
    ensures { result ≡ ranged_payer routes.now pcn.now key.now }
{
    for route in routes {
        if route.fits(pcn, key) {
            return Some(route.payer);
        }
    }
    None
}

/// The BIN number that a text is.
#[tactic(auto, unfolding(crate::specs::Row::is_bin))]
pub(crate) fn bin_of(text: &[u8]) -> Option<Bin>
    ensures { result ≡ (if is_bin text.now then Some text.now else None) }
{
    if text.len() != 6 || !are_digits(text) {
        return None;
    }
    let mut bin = [0; 6];
    bin.copy_from_slice(text);
    Some(bin)
}

/// The processor control number that a text is without its padding.
#[tactic(auto, unfolding(crate::specs::Row::is_pcn))]
pub(crate) fn pcn_of(text: &[u8]) -> Option<Pcn>
    ensures { result ≡ (if is_pcn text.now then Some (filled text.now) else None) }
{
    if text.len() > 10 || !are_plain(text) || has_padding(text) {
        return None;
    }
    Some(fill(text))
}

/// The text filled with spaces.
#[tactic(auto, unfolding(crate::specs::Row::filled))]
fn fill(text: &[u8]) -> Pcn
    requires { length text.now ≤ 10 }
    ensures { result ≡ filled text.now }
{
    let mut pcn = [b' '; 10];
    pcn[..text.len()].copy_from_slice(text);
    pcn
}

/// The payer of this number, where there are this many.
fn payer_of(number: u16, payers: u16) -> Option<PayerNo>
    ensures { result ≡ (if is_payer payers number then Some number else None) }
{
    if number > payers {
        return None;
    }
    PayerNo::new(number)
}

/// Whether every byte is a digit.
fn are_digits(text: &[u8]) -> bool
    ensures { result ≡ list_all is_digit text.now }
{
    text.iter().all(|byte| byte.is_ascii_digit())
}

/// Whether no byte is a separator.
fn are_plain(text: &[u8]) -> bool
    ensures { result ≡ list_all is_plain text.now }
{
    text.iter().all(|byte| !matches!(*byte, 0x1c..=0x1e))
}

/// Whether a space stands at the end.
fn has_padding(text: &[u8]) -> bool
    ensures { result ≡ ends_in_space text.now }
{
    match text.last() {
        Some(byte) => *byte == b' ',
        None => false,
    }
}
