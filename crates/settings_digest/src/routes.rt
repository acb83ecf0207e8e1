//! What settings say of routes.

ghost use Rattle.std.specs.Prelude.{◌≡◌, ◌++◌, OnOk};
ghost use Rattle.std.specs.Option.{option_map};
ghost use Rattle.settings_digest.specs.Said.{ended_text, key_text, pcn_text, providers_text, ranged_text, route_text};
ghost use Rattle.settings_digest.specs.Fits.{FitsLast, FitsPcn, FitsProviders, FitsRange, FitsRoute};

use crate::fields::{Say, put_number, put_text};
use bin_routes::{Providers, RouteRow};
use std::alloc::AllocError;

impl Say for RouteRow {
    ghost text = { λ route. route_text route };

    ghost Fits = { λ route. FitsRoute route };

    #[tactic(auto, unfolding(crate::specs::Said::route_text))]
    fn say(&self, out: &mut Vec<u8>) -> Result<(), AllocError> {
        put_text(out, self.bin())?;
        put_ended(out, self.rejected(), self.pcn(), self.providers())?;
        put_number(out, u64::from(self.payer()))
    }
}

/// Puts the last number that stays rejected, where a route leads to no payer, and for whom the route is.
fn put_ended(
    out: &mut Vec<u8>,
    rejected: Option<u64>,
    pcn: Option<&[u8]>,
    providers: Option<Providers>,
) -> Result<(), AllocError>
    ensures text { OnOk result (out.new.items
        ≡ out.old.items ++ ended_text rejected (option_map (λ p. p.now) pcn.entry) providers) }
    ensures fits { OnOk result (FitsLast rejected × (FitsPcn (option_map (λ p. p.now) pcn.entry) × FitsRange providers)) }
{
    match rejected {
        None => put_key(out, pcn, providers),
        Some(last) => {
            put_number(out, 4)?;
            put_number(out, last)?;
            put_key(out, pcn, providers)
        }
    }
}

/// Puts a processor control number, where there is one, and the providers that a route is for, where it is not for all.
fn put_key(
    out: &mut Vec<u8>,
    pcn: Option<&[u8]>,
    providers: Option<Providers>,
) -> Result<(), AllocError>
    ensures text { OnOk result (out.new.items
        ≡ out.old.items ++ key_text (option_map (λ p. p.now) pcn.entry) providers) }
    ensures fits { OnOk result (FitsPcn (option_map (λ p. p.now) pcn.entry) × FitsRange providers) }
{
    match providers {
        None => put_pcn(out, pcn),
        Some(providers) => {
            put_ranged(out, pcn)?;
            put_providers(out, &providers)
        }
    }
}

/// Puts a processor control number, where there is one.
fn put_pcn(out: &mut Vec<u8>, pcn: Option<&[u8]>) -> Result<(), AllocError>
    ensures text { OnOk result (out.new.items ≡ out.old.items ++ pcn_text (option_map (λ p. p.now) pcn.entry)) }
    ensures fits { OnOk result (FitsPcn (option_map (λ p. p.now) pcn.entry)) }
{
    match pcn {
        None => put_number(out, 0),
        Some(pcn) => {
            put_number(out, 1)?;
            put_text(out, pcn)
        }
    }
}

/// Puts one before providers, where there is one.
fn put_ranged(out: &mut Vec<u8>, pcn: Option<&[u8]>) -> Result<(), AllocError>
    ensures text { OnOk result (out.new.items ≡ out.old.items ++ ranged_text (option_map (λ p. p.now) pcn.entry)) }
    ensures fits { OnOk result (FitsPcn (option_map (λ p. p.now) pcn.entry)) }
{
    match pcn {
        None => put_number(out, 2),
        Some(pcn) => {
            put_number(out, 3)?;
            put_text(out, pcn)
        }
    }
}

/// Puts providers.
fn put_providers(out: &mut Vec<u8>, providers: &Providers) -> Result<(), AllocError>
    ensures text { OnOk result (out.new.items ≡ out.old.items ++ providers_text providers.now) }
    ensures fits { OnOk result (FitsProviders providers.now) }
{
    put_text(out, &providers.qualifier)?;
    put_text(out, &providers.first)?;
    put_text(out, &providers.last)
}
