//! What a book is opened with, beside its payer and its plan.

ghost use Rattle.std.specs.Prelude.{◌≡◌, ◌≤◌, true, false};
ghost use Rattle.claim_model.specs.Limits.{most_entries};
ghost use Rattle.claim_profile.specs.Authorization.{largest_serial};
ghost use Rattle.claim_model.specs.Book.{carries_more};
ghost use Rattle.claim_model.specs.Judgement.{asks_reversals};
ghost use Rattle.payer_book.specs.Settings.{settings_of, settings_within};

use crate::fault::SettingFault;
use claim_model::Limits;
use std::marker::Model;

/// The largest serial number of an authorization, in twelve digits (own).
pub const LAST_SERIAL: u64 = 999_999_999_999;

/// The first serial number and the most rows of a book, whether its payer asks for a verdict on each claim that is
/// to be priced, whether it asks about reversals too, and whether answers carry what an advice says beside its rulings (own).
#[derive(Clone, Copy, PartialEq, Eq)]
pub struct BookSettings {
    serial: u64,
    cap: u32,
    asks: bool,
    reversals: bool,
    carries: bool,
}

impl Model for BookSettings {
    ghost use Rattle.claim_model.specs.Rows.{BookSettings as SettingParts};
    ghost use Rattle.payer_book.specs.Settings.{IsSettings};

    ghost Value = { SettingParts };

    ghost view = { λ s. record { serial = s.serial; cap = s.cap; asks = s.asks; reversals = s.reversals; carries = s.carries } };

    ghost invariant = { λ s. IsSettings s.serial s.cap };

    ghost inverse = { λ s. record { serial = s.serial; cap = s.cap; asks = s.asks; reversals = s.reversals; carries = s.carries } };
}

impl BookSettings {
    /// Settings of a book whose first payment has the serial number `serial`, 1 to 999,999,999,999,
    /// and which holds at most `cap` rows, 1 to 65,536. Other numbers are `BadSetting`.
    pub fn new(serial: u64, cap: u32) -> Result<BookSettings, SettingFault>
        ensures { result ≡ settings_of serial cap }
    {
        BookSettings::within(Limits::stated(), serial, cap)
    }

    /// The same within these limits, which say how many rows there may be at most.
    pub fn within(limits: Limits, serial: u64, cap: u32) -> Result<BookSettings, SettingFault>
        ensures { result ≡ settings_within limits serial cap }
    {
        if serial == 0 || serial > LAST_SERIAL || cap == 0 || cap > limits.entries() {
            return Err(SettingFault::BadSetting);
        }
        Ok(BookSettings {
            serial,
            cap,
            asks: false,
            reversals: false,
            carries: false,
        })
    }

    /// The same, of a payer that asks about claims.
    pub fn asking(self) -> BookSettings
        ensures { result ≡ record {
          serial = self.serial;
          cap = self.cap;
          asks = true;
          reversals = false;
          carries = self.carries;
        } }
    {
        BookSettings {
            serial: self.serial,
            cap: self.cap,
            asks: true,
            reversals: false,
            carries: self.carries,
        }
    }

    /// The same, of a payer that asks about claims and about reversals.
    pub fn asking_all(self) -> BookSettings
        ensures { result ≡ record {
          serial = self.serial;
          cap = self.cap;
          asks = true;
          reversals = true;
          carries = self.carries;
        } }
    {
        BookSettings {
            serial: self.serial,
            cap: self.cap,
            asks: true,
            reversals: true,
            carries: self.carries,
        }
    }

    /// The same, whose answers carry what an advice says beside its rulings.
    pub fn carrying(self) -> BookSettings
        ensures { result ≡ record {
          serial = self.serial;
          cap = self.cap;
          asks = self.asks;
          reversals = self.reversals;
          carries = true;
        } }
    {
        BookSettings {
            serial: self.serial,
            cap: self.cap,
            asks: self.asks,
            reversals: self.reversals,
            carries: true,
        }
    }

    /// Whether answers carry what an advice says beside its rulings, where the payer asks.
    pub fn carries(&self) -> bool
        ensures { result ≡ self.now.carries }
    {
        self.carries
    }

    /// Whether answers carry what an advice says beside its rulings.
    pub(crate) fn carries_more(&self) -> bool
        ensures { result ≡ carries_more self.now }
    {
        self.asks && self.carries
    }

    /// Whether the payer asks for a verdict on each claim that is to be priced, in place of pricing it by its plan.
    pub fn asks(&self) -> bool
        ensures { result ≡ self.now.asks }
    {
        self.asks
    }

    /// Whether a payer that asks does so about each reversal of a payment too.
    pub fn reversals(&self) -> bool
        ensures { result ≡ self.now.reversals }
    {
        self.reversals
    }

    /// Whether the payer asks about each reversal of a payment, which may then be rejected.
    pub(crate) fn asks_reversals(&self) -> bool
        ensures { result ≡ asks_reversals self.now }
    {
        self.asks && self.reversals
    }

    /// The serial number of the first payment.
    pub fn serial(&self) -> u64
        ensures value { result ≡ self.now.serial }
        ensures least { 1 ≤ result }
        ensures most { result ≤ largest_serial }
    {
        self.serial
    }

    /// The most rows.
    pub fn cap(&self) -> u32
        ensures value { result ≡ self.now.cap }
        ensures least { 1 ≤ result }
        ensures most { result ≤ most_entries }
    {
        self.cap
    }
}
