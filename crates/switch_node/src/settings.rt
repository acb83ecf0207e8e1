//! What a switch is opened with, and what is left of it when it stops.

ghost use Rattle.std.specs.Prelude.{◌≡◌, ◌≤◌};
ghost use Rattle.claim_model.specs.Limits.{most_entries};
ghost use Rattle.switch_node.specs.Settings.{nearest, settings_of, settings_within};

use crate::fault::SettingFault;
use claim_model::Limits;
use std::marker::Model;

/// How many requests a switch has in its table at most (own).
#[derive(Clone, Copy, PartialEq, Eq)]
pub struct SwitchSettings {
    cap: u32,
}

impl Model for SwitchSettings {
    ghost use Rattle.std.specs.Prelude.{ℕ, ◌≤◌};
    ghost use Rattle.claim_model.specs.Limits.{most_entries};

    ghost Value = { ℕ };

    ghost view = { λ s. s.cap };

    ghost invariant = { λ s. (1 ≤ s.cap) × (s.cap ≤ most_entries) };

    ghost inverse = { λ cap. record { cap = cap } };
}

impl SwitchSettings {
    /// Settings of a switch that has at most `cap` requests in its table, 1 to 65,536.
    ///
    /// # Errors
    /// `BadSetting` for every other number.
    pub fn new(cap: u32) -> Result<SwitchSettings, SettingFault>
        ensures { result ≡ settings_of cap }
    {
        SwitchSettings::within(Limits::stated(), cap)
    }

    /// The same within these limits, which say how many requests there may be at most.
    ///
    /// # Errors
    /// `BadSetting` for every other number.
    pub fn within(limits: Limits, cap: u32) -> Result<SwitchSettings, SettingFault>
        ensures { result ≡ settings_within limits cap }
    {
        if cap == 0 || cap > limits.entries() {
            return Err(SettingFault::BadSetting);
        }
        Ok(SwitchSettings { cap })
    }

    /// The settings whose cap is nearest to this number: 1 to 16,777,216.
    pub fn nearest(number: u32) -> SwitchSettings
        ensures { result ≡ nearest number }
    {
        let most = Limits::widest().entries();
        let cap = if number == 0 {
            1
        } else if number <= most {
            number
        } else {
            most
        };
        SwitchSettings { cap }
    }

    /// The most requests in the table.
    pub fn cap(self) -> u32
        ensures value { result ≡ self }
        ensures own { nearest result ≡ self }
        ensures least { 1 ≤ result }
        ensures most { result ≤ most_entries }
    {
        self.cap
    }
}
