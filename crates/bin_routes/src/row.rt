//! The rows that a table is made of.

ghost use Rattle.std.specs.Prelude.{◌≡◌, None, Some, IfOk};
ghost use Rattle.std.specs.Option.{option_map};
ghost use Rattle.bin_routes.specs.Row.{Row};

use crate::providers::Providers;
use octets::Octets;
use std::alloc::AllocError;
use std::marker::Model;

/// A row as a settings document spells it. Nothing of it is tested yet.
#[derive(Drop, PartialEq, Eq)]
pub struct RouteRow {
    bin: Octets,
    pcn: Option<Octets>,
    providers: Option<Providers>,
    payer: u16,
    rejected: Option<u64>,
}

impl Model for RouteRow {
    ghost use Rattle.bin_routes.specs.Row.{Row};

    ghost Value = { Row };

    ghost view = { λ a. record { bin = a.bin; pcn = a.pcn; providers = a.providers; payer = a.payer; rejected = a.rejected } };

    ghost inverse = { λ a. record { bin = a.bin; pcn = a.pcn; providers = a.providers; payer = a.payer; rejected = a.rejected } };
}

impl RouteRow {
    /// The row of these texts: the BIN number (101-A1), the processor control number (104-A4) without its
    /// padding, and the payer's number. Without a processor control number the row is for every one that no other
    /// row of the BIN names; an empty one is a field of ten spaces.
    pub fn new(bin: Octets, pcn: Option<Octets>, payer: u16) -> RouteRow
        ensures { result ≡ record { bin = bin; pcn = pcn; providers = None; payer = payer; rejected = None } }
    {
        RouteRow {
            bin,
            pcn,
            providers: None,
            payer,
            rejected: None,
        }
    }

    /// The same row for these providers alone.
    pub fn for_providers(self, providers: Providers) -> RouteRow
        ensures { result ≡ record {
          bin = self.bin;
          pcn = self.pcn;
          providers = Some providers;
          payer = self.payer;
          rejected = self.rejected;
        } }
    {
        let RouteRow {
            bin,
            pcn,
            payer,
            rejected,
            ..
        } = self;
        RouteRow {
            bin,
            pcn,
            providers: Some(providers),
            payer,
            rejected,
        }
    }

    /// The same row as one that leads to no payer: under its BIN number and processor control number the requests of its one
    /// provider up to this number stay rejected. They were, before the row that leads there; requests after it have that row's
    /// payer. Such a row wants a processor control number and a provider, and its payer's number says nothing.
    pub fn rejecting(self, last: u64) -> RouteRow
        ensures { result ≡ record {
          bin = self.bin;
          pcn = self.pcn;
          providers = self.providers;
          payer = self.payer;
          rejected = Some last;
        } }
    {
        let RouteRow {
            bin,
            pcn,
            providers,
            payer,
            ..
        } = self;
        RouteRow {
            bin,
            pcn,
            providers,
            payer,
            rejected: Some(last),
        }
    }

    /// The text of the BIN number (101-A1).
    pub fn bin(&self) -> &[u8]
        ensures { result.now ≡ self.now.bin }
    {
        self.bin.as_slice()
    }

    /// The text of the processor control number (104-A4).
    pub fn pcn(&self) -> Option<&[u8]>
        ensures { option_map (λ pcn. pcn.now) result ≡ self.now.pcn }
    {
        match &self.pcn {
            Some(pcn) => Some(pcn.as_slice()),
            None => None,
        }
    }

    /// The providers that the row is for, where it is not for all.
    pub fn providers(&self) -> Option<Providers>
        ensures { result ≡ self.now.providers }
    {
        self.providers
    }

    /// The last number that stays rejected, where the row leads to no payer.
    pub fn rejected(&self) -> Option<u64>
        ensures { result ≡ self.now.rejected }
    {
        self.rejected
    }

    /// The payer's number.
    pub fn payer(&self) -> u16
        ensures { result ≡ self.now.payer }
    {
        self.payer
    }

    /// A copy in memory of its own, from the allocator of the original.
    pub fn copy(&self) -> Result<RouteRow, AllocError>
        ensures { IfOk result (λ copy. copy ≡ self.now) }
    {
        let bin = self.bin.copy()?;
        let pcn = match &self.pcn {
            Some(pcn) => Some(pcn.copy()?),
            None => None,
        };
        Ok(RouteRow {
            bin,
            pcn,
            providers: self.providers,
            payer: self.payer,
            rejected: self.rejected,
        })
    }
}
