//! How many nodes settings may have, and how much each may keep.

ghost use Rattle.std.specs.Prelude.{◌≡◌, ◌≤◌};
ghost use Rattle.claim_model.specs.Limits.{limits_of, stated, widest, most_pharmacies, most_switches, most_payers, most_entries};

use std::marker::Model;

/// The most pharmacies of any settings: their numbers have two bytes in an envelope (own).
const MOST_PHARMACIES: u32 = 65_535;
/// The most switches of any settings (own).
const MOST_SWITCHES: u32 = 4_096;
/// The most payers of any settings (own).
const MOST_PAYERS: u32 = 4_096;
/// The most entries of a journal, slots of a table and rows of a book of any settings (own).
const MOST_ENTRIES: u32 = 16_777_216;

/// How many pharmacies, switches and payers settings may have at most, and how many entries, slots or rows a node (own).
#[derive(Clone, Copy, PartialEq, Eq)]
pub struct Limits {
    pharmacies: u32,
    switches: u32,
    payers: u32,
    entries: u32,
}

impl Model for Limits {
    ghost use Rattle.claim_model.specs.Limits.{Limits as Allowed, AreLimits};

    ghost Value = { Allowed };

    ghost view = { λ l. record { pharmacies = l.pharmacies; switches = l.switches; payers = l.payers; entries = l.entries } };

    ghost invariant = { λ l. AreLimits (record { pharmacies = l.pharmacies; switches = l.switches; payers = l.payers; entries = l.entries }) };

    ghost inverse = { λ l. record { pharmacies = l.pharmacies; switches = l.switches; payers = l.payers; entries = l.entries } };
}

impl Limits {
    /// What settings may have that state no limits: 256 pharmacies, 64 switches, 64 payers, 65,536 entries.
    pub fn stated() -> Limits
        ensures { result ≡ stated }
    {
        Limits {
            pharmacies: 256,
            switches: 64,
            payers: 64,
            entries: 65_536,
        }
    }

    /// The most that settings may state: 65,535 pharmacies, 4,096 switches, 4,096 payers, 16,777,216 entries.
    pub fn widest() -> Limits
        ensures { result ≡ widest }
    {
        Limits {
            pharmacies: MOST_PHARMACIES,
            switches: MOST_SWITCHES,
            payers: MOST_PAYERS,
            entries: MOST_ENTRIES,
        }
    }

    /// These limits; `None` where one is over the widest.
    pub fn new(pharmacies: u32, switches: u32, payers: u32, entries: u32) -> Option<Limits>
        ensures { result ≡ limits_of (record {
          pharmacies = pharmacies;
          switches = switches;
          payers = payers;
          entries = entries;
        }) }
    {
        if pharmacies > MOST_PHARMACIES
            || switches > MOST_SWITCHES
            || payers > MOST_PAYERS
            || entries > MOST_ENTRIES
        {
            return None;
        }
        Some(Limits {
            pharmacies,
            switches,
            payers,
            entries,
        })
    }

    /// The most pharmacies.
    pub fn pharmacies(self) -> u32
        ensures value { result ≡ self.pharmacies }
        ensures most { result ≤ most_pharmacies }
    {
        self.pharmacies
    }

    /// The most switches.
    pub fn switches(self) -> u32
        ensures value { result ≡ self.switches }
        ensures most { result ≤ most_switches }
    {
        self.switches
    }

    /// The most payers.
    pub fn payers(self) -> u32
        ensures value { result ≡ self.payers }
        ensures most { result ≤ most_payers }
    {
        self.payers
    }

    /// The most entries of a journal, slots of a table and rows of a book.
    pub fn entries(self) -> u32
        ensures value { result ≡ self.entries }
        ensures most { result ≤ most_entries }
    {
        self.entries
    }
}
