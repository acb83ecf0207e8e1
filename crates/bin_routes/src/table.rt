//! The table of routes.

ghost use Rattle.std.specs.Prelude.{◌≡◌, ◌⊎◌, [], None, Some, IfOk, IfErr, OnOk};
ghost use Rattle.bin_routes.specs.declared.fault.RoutesFault.TheVariants.{OutOfMemory};
ghost use Rattle.std.specs.FinMap.{get, contains_key};
ghost use Rattle.bin_routes.specs.Row.{filled_row};
ghost use Rattle.bin_routes.specs.Fault.{first_fault, fault_beside};
ghost use Rattle.bin_routes.specs.Table.{RouteMaps, routes_of, among, payer_at, payer_of, stays_rejected, payer_under, has_leading, has_for_all, with_leading, with_row, with_row_for_all, with_rejected, key_text};

use crate::fault::RoutesFault;
use crate::key::RouteKey;
use crate::payer::PayerNo;
use crate::rejected::{KeyText, rejected_of, text_of};
use crate::route::{Bin, Pcn, Route, is_among, payer_among};
use crate::row::RouteRow;
use std::alloc::Global;
use std::collections::BTreeMap;
use std::marker::Model;

/// The routes of the rows that it was made from.
#[derive(Drop)]
pub struct Routes {
    exact: BTreeMap<(Bin, Pcn), PayerNo>,
    others: BTreeMap<Bin, PayerNo>,
    ranged: Vec<Route>,
    rejected: BTreeMap<KeyText, u64>,
    switches: u16,
}

impl Model for Routes {
    ghost use Rattle.std.specs.FinMap.{from_entries};
    ghost use Rattle.bin_routes.specs.Table.{RouteMaps, coded_maps};

    ghost Value = { RouteMaps };

    ghost coded = { coded_maps };

    ghost view = { λ a. record { exact = from_entries a.exact.entries; others = from_entries a.others.entries; ranged = a.ranged.items; rejected = from_entries a.rejected.entries; switches = a.switches } };
}

impl Routes {
    /// The table of these rows, for payers numbered from 1 to `payers`. The first bad row decides, and in it the
    /// first of [`RoutesFault::BadBin`], [`RoutesFault::BadPcn`], [`RoutesFault::NoSuchPayer`] and
    /// [`RoutesFault::SameRow`]. Each row costs the logarithm of their number.
    #[tactic(auto, unfolding(crate::specs::Fault::first_fault), using(std::proofs::lemmas::Result::err_from_is_err_and, crate::proofs::Rows::stops))]
    pub fn new(alloc: Global, rows: &[RouteRow], payers: u16) -> Result<Routes, RoutesFault>
        ensures made { IfOk result (λ routes. (routes ≡ routes_of rows.now) × (first_fault payers rows.now ≡ None)) }
        ensures fault { IfErr result (λ fault. (fault ≡ OutOfMemory) ⊎ (first_fault payers rows.now ≡ Some fault)) }
    {
        let mut routes = Routes::empty(alloc);
        for (place, row) in rows.iter().enumerate() {
            routes.add(place, row, payers)?;
        }
        Ok(routes)
    }

    /// The same table, of a network with this many switches. What it says of payers is as it was.
    pub fn among(self, switches: u16) -> Routes
        ensures { result ≡ among switches self }
    {
        Routes { switches, ..self }
    }

    /// How many switches there are: they are numbered from 1. A table that was made of rows alone says 0.
    pub fn switches(&self) -> u16
        ensures { result ≡ self.now.switches }
    {
        self.switches
    }

    /// The payer of a header's BIN number and processor control number: that of the row of both, else that of the
    /// BIN's row without a processor control number.
    #[tactic(auto, unfolding(crate::specs::Table::payer_at))]
    pub fn route(&self, bin: &[u8; 6], pcn: &[u8; 10]) -> Option<PayerNo>
        ensures { result ≡ payer_at self.now bin.now pcn.now }
    {
        match self.exact_payer(bin, pcn) {
            Some(payer) => Some(payer),
            None => self.other_payer(bin),
        }
    }

    /// The payer of the fields of a header: of the rows of its BIN number and processor control number first the one that has
    /// its provider, then the one for all providers; else the same of the rows of the BIN alone. Where no row is for some
    /// providers alone it costs what [`Routes::route`] costs.
    pub fn payer(&self, key: &RouteKey) -> Option<PayerNo>
        ensures { result ≡ payer_of self.now key.now }
    {
        if self.ranged.as_slice().is_empty() {
            return self.route(&key.bin, &key.pcn);
        }
        self.payer_by_range(key)
    }

    /// The payer of the fields of a request's header and its number: that of the fields, and none where the request is one of
    /// those that stay rejected. One number's payer is the other's, as long as both have one.
    #[tactic(auto, unfolding(crate::specs::Table::payer_under))]
    pub fn payer_under(&self, number: u64, key: &RouteKey) -> Option<PayerNo>
        ensures { result ≡ payer_under self.now number key.now }
    {
        if self.stays_rejected(number, key) {
            return None;
        }
        self.payer(key)
    }

    /// Whether a request of these fields and this number is one of those that stay rejected.
    fn stays_rejected(&self, number: u64, key: &RouteKey) -> bool
        ensures { result ≡ stays_rejected self.now number key.now }
    {
        match self.last_rejected(key) {
            Some(last) => number <= last,
            None => false,
        }
    }

    /// The last number of these fields that stays rejected.
    #[tactic(auto, using(crate::proofs::Maps::get_is, crate::proofs::Maps::bins_total))]
    fn last_rejected(&self, key: &RouteKey) -> Option<u64>
        ensures { result ≡ get self.now.rejected (key_text key.now) }
    {
        self.rejected.get(&text_of(key)).copied()
    }

    /// The same, where some rows are.
    #[tactic(auto, unfolding(crate::specs::Table::payer_of))]
    fn payer_by_range(&self, key: &RouteKey) -> Option<PayerNo>
        ensures { result ≡ payer_of self.now key.now }
    {
        match payer_among(&self.ranged, &Some(key.pcn), key) {
            Some(payer) => Some(payer),
            None => match self.exact_payer(&key.bin, &key.pcn) {
                Some(payer) => Some(payer),
                None => match payer_among(&self.ranged, &None, key) {
                    Some(payer) => Some(payer),
                    None => self.other_payer(&key.bin),
                },
            },
        }
    }

    /// The payer of the row of a BIN number and processor control number for all providers.
    #[tactic(auto, using(crate::proofs::Maps::get_is, crate::proofs::Maps::processors_total))]
    fn exact_payer(&self, bin: &[u8; 6], pcn: &[u8; 10]) -> Option<PayerNo>
        ensures { result ≡ get self.now.exact (bin.now, pcn.now) }
    {
        self.exact.get(&(*bin, *pcn)).copied()
    }

    /// The payer of the row of a BIN number for all.
    #[tactic(auto, using(crate::proofs::Maps::get_is, crate::proofs::Maps::bins_total))]
    fn other_payer(&self, bin: &[u8; 6]) -> Option<PayerNo>
        ensures { result ≡ get self.now.others bin.now }
    {
        self.others.get(bin).copied()
    }

    /// The table of no rows.
    #[tactic(auto, unfolding(crate::specs::Table::routes_of))]
    fn empty(alloc: Global) -> Routes
        ensures { result ≡ routes_of [] }
    {
        Routes {
            exact: BTreeMap::new(alloc),
            others: BTreeMap::new(alloc),
            ranged: Vec::new(alloc),
            rejected: BTreeMap::new(alloc),
            switches: 0,
        }
    }

    /// Adds the row at a place.
    fn add(&mut self, place: usize, row: &RouteRow, payers: u16) -> Result<(), RoutesFault>
        ensures ok { OnOk result ((self.new ≡ with_row self.old (filled_row row.now))
            × (fault_beside self.old payers place row.now ≡ None)) }
        ensures fault { IfErr result (λ e. (e ≡ OutOfMemory) ⊎ (fault_beside self.old payers place row.now ≡ Some e)) }
    {
        match row.rejected() {
            None => self.add_leading(place, row, payers),
            Some(last) => self.add_rejecting(place, row, payers, last),
        }
    }

    /// Adds the row at a place, which leads to a payer.
    fn add_leading(&mut self, place: usize, row: &RouteRow, payers: u16) -> Result<(), RoutesFault>
        requires { row.now.rejected ≡ None }
        ensures ok { OnOk result ((self.new ≡ with_row self.old (filled_row row.now))
            × (fault_beside self.old payers place row.now ≡ None)) }
        ensures fault { IfErr result (λ e. (e ≡ OutOfMemory) ⊎ (fault_beside self.old payers place row.now ≡ Some e)) }
    {
        let route = Route::of_row(place, row, payers)?;
        if self.has(&route) {
            return Err(RoutesFault::SameRow(place));
        }
        self.put(route)
    }

    /// Adds the row at a place, which says that requests up to the last stay rejected.
    fn add_rejecting(
        &mut self,
        place: usize,
        row: &RouteRow,
        payers: u16,
        last: u64,
    ) -> Result<(), RoutesFault>
        requires { row.now.rejected ≡ Some last }
        ensures ok { OnOk result ((self.new ≡ with_row self.old (filled_row row.now))
            × (fault_beside self.old payers place row.now ≡ None)) }
        ensures fault { IfErr result (λ e. (e ≡ OutOfMemory) ⊎ (fault_beside self.old payers place row.now ≡ Some e)) }
    {
        let text = rejected_of(place, row, payers)?;
        if self.has_rejected(&text) {
            return Err(RoutesFault::SameRow(place));
        }
        self.put_rejected(text, last)
    }

    /// Whether requests of a key stay rejected.
    #[tactic(auto, using(crate::proofs::Maps::get_is, crate::proofs::Maps::bins_total))]
    fn has_rejected(&self, text: &KeyText) -> bool
        ensures { result ≡ contains_key self.now.rejected text.now }
    {
        self.rejected.contains_key(text)
    }

    /// Lets the requests of a key up to the last stay rejected.
    #[tactic(auto, using(crate::proofs::Maps::inserted, crate::proofs::Maps::bins_total, crate::proofs::Maps::exact_bins))]
    fn put_rejected(&mut self, text: KeyText, last: u64) -> Result<(), RoutesFault>
        ensures ok { OnOk result (self.new ≡ with_rejected self.old text last) }
        ensures fault { IfErr result (λ fault. fault ≡ OutOfMemory) }
    {
        self.rejected.insert(text, last)?;
        Ok(())
    }

    /// Whether there is a route for the same BIN number and processor control number.
    fn has(&self, route: &Route) -> bool
        ensures { result ≡ has_leading self.now route.now }
    {
        if route.providers.is_some() {
            return is_among(&self.ranged, route);
        }
        self.has_for_all(route)
    }

    /// Whether there is one for the same and all providers.
    #[tactic(auto, using(crate::proofs::Maps::get_is, crate::proofs::Maps::bins_total))]
    fn has_for_all(&self, route: &Route) -> bool
        ensures { result ≡ has_for_all self.now route.now }
    {
        match route.pcn {
            Some(pcn) => self.exact.contains_key(&(route.bin, pcn)),
            None => self.others.contains_key(&route.bin),
        }
    }

    /// Adds a route.
    fn put(&mut self, route: Route) -> Result<(), RoutesFault>
        ensures ok { OnOk result (self.new ≡ with_leading self.old route) }
        ensures fault { IfErr result (λ fault. fault ≡ OutOfMemory) }
    {
        if route.providers.is_some() {
            self.ranged.push(route)?;
            return Ok(());
        }
        self.put_for_all(route)
    }

    /// Adds a route for all providers.
    fn put_for_all(&mut self, route: Route) -> Result<(), RoutesFault>
        ensures ok { OnOk result (self.new ≡ with_row_for_all self.old route) }
        ensures fault { IfErr result (λ fault. fault ≡ OutOfMemory) }
    {
        let bin = route.bin;
        match route.pcn {
            Some(pcn) => {
                self.exact.insert((bin, pcn), route.payer)?;
                Ok(())
            }
            None => {
                self.others.insert(bin, route.payer)?;
                Ok(())
            }
        }
    }
}
