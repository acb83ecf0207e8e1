//! What a pharmacy is opened with, beside its number.

ghost use Rattle.std.specs.Prelude.{◌≡◌, ◌≤◌, ◌<◌, ◌↔◌, length, IsOk, IfOk, IsTrue};
ghost use Rattle.std.specs.List.{list_all};
ghost use Rattle.d0_header.specs.Field.{is_plain};
ghost use Rattle.claim_model.specs.Journal.{opening_rule};
ghost use Rattle.pharmacy_journal.specs.Settings.{settings_of, AreSettings, AreStated, AreWithin};

use crate::fault::SettingFault;
use crate::rule::RetryRule;
use claim_model::Limits;
use std::alloc::AllocError;
use std::marker::Model;

/// The identity of a pharmacy, the switches that it tries in turn, its rule of retries and the most
/// entries of its journal (own).
#[derive(Drop)]
pub struct PharmacySettings {
    qualifier: [u8; 2],
    provider: [u8; 15],
    rule: RetryRule,
    cap: u32,
}

impl Model for PharmacySettings {
    ghost use Rattle.claim_model.specs.Journal.{PharmacySettings as Settings};
    ghost use Rattle.claim_model.specs.Journal.{opening_rule};
    ghost use Rattle.pharmacy_journal.specs.Settings.{settings_of, AreKept};

    ghost Value = { Settings };

    ghost view = { λ s. settings_of s.qualifier s.provider s.rule.nodes s.rule.again s.rule.tries s.cap };

    ghost invariant = { λ s. AreKept (settings_of s.qualifier s.provider s.rule.nodes s.rule.again s.rule.tries s.cap) };
}

impl PharmacySettings {
    /// Settings of the pharmacy with this service provider qualifier and ID (202-B2, 201-B1), padded with
    /// spaces, which tries the switches of these numbers in turn: after `again` ticks without an answer, 1 to
    /// 1,000, an entry is sent again, and after `tries` sends to one switch, 1 to 1,000, to the next. Its
    /// journal has at most `cap` entries, 1 to 65,536. There are at most 4,294,967,295 switches in the list.
    ///
    /// # Errors
    /// `BadSetting` for other numbers, and where the identity has a separator.
    pub fn new(
        qualifier: [u8; 2],
        provider: [u8; 15],
        nodes: Vec<u16>,
        again: u32,
        tries: u32,
        cap: u32,
    ) -> Result<PharmacySettings, SettingFault>
        requires { length nodes.items ≤ 4294967295 }
        ensures taken { IsOk result ↔ AreStated (settings_of qualifier provider nodes.items again tries cap) }
        ensures given { IfOk result (λ s. s ≡ settings_of qualifier provider nodes.items again tries cap) }
    {
        PharmacySettings::within(
            Limits::stated(),
            qualifier,
            provider,
            nodes,
            again,
            tries,
            cap,
        )
    }

    /// The same within these limits, which say how many entries there may be at most.
    pub fn within(
        limits: Limits,
        qualifier: [u8; 2],
        provider: [u8; 15],
        nodes: Vec<u16>,
        again: u32,
        tries: u32,
        cap: u32,
    ) -> Result<PharmacySettings, SettingFault>
        requires { length nodes.items ≤ 4294967295 }
        ensures taken { IsOk result
            ↔ AreWithin limits.entries (settings_of qualifier provider nodes.items again tries cap) }
        ensures given { IfOk result (λ s. s ≡ settings_of qualifier provider nodes.items again tries cap) }
    {
        if !in_limit(cap, limits.entries()) {
            return Err(SettingFault::BadSetting);
        }
        if !is_plain(&qualifier) || !is_plain(&provider) {
            return Err(SettingFault::BadSetting);
        }
        let rule = RetryRule::new(nodes, again, tries)?;
        Ok(PharmacySettings {
            qualifier,
            provider,
            rule,
            cap,
        })
    }

    /// Equal settings, in memory of their own.
    pub fn copy(&self) -> Result<PharmacySettings, AllocError>
        ensures { IfOk result (λ copy. copy ≡ self.now) }
    {
        let rule = self.rule.copy()?;
        let qualifier = self.qualifier;
        let provider = self.provider;
        Ok(PharmacySettings {
            qualifier,
            provider,
            rule,
            cap: self.cap,
        })
    }

    /// The service provider ID qualifier (202-B2).
    pub fn qualifier(&self) -> [u8; 2]
        ensures { result ≡ self.now.qualifier }
    {
        self.qualifier
    }

    /// The service provider ID (201-B1), filled with spaces.
    pub fn provider(&self) -> [u8; 15]
        ensures { result ≡ self.now.provider }
    {
        self.provider
    }

    /// The switches, in the order in which they are tried.
    pub fn nodes(&self) -> &[u16]
        ensures value { result.now ≡ self.now.nodes }
        ensures in_limit { length result.now ≤ 4294967295 }
    {
        self.rule.nodes()
    }

    /// After how many ticks an entry is sent again.
    pub fn again(&self) -> u32
        ensures value { result ≡ self.now.again }
        ensures settings { AreSettings self.now }
    {
        self.rule.again()
    }

    /// How often an entry is sent to one switch.
    pub fn tries(&self) -> u32
        ensures value { result ≡ self.now.tries }
        ensures settings { AreSettings self.now }
    {
        self.rule.tries()
    }

    /// The rule of retries with which the pharmacy opens.
    pub fn rule(&self) -> &RetryRule
        ensures { result.now ≡ opening_rule self.now }
    {
        &self.rule
    }

    /// The most entries.
    pub fn cap(&self) -> u32
        ensures value { result ≡ self.now.cap }
        ensures settings { AreSettings self.now }
    {
        self.cap
    }
}

/// Whether a number is 1 to `most`.
pub(crate) fn in_limit(number: u32, most: u32) -> bool
    ensures { IsTrue result ↔ ((0 < number) × (number ≤ most)) }
{
    number > 0 && number <= most
}

/// Whether no byte is a separator.
fn is_plain(text: &[u8]) -> bool
    ensures { result ≡ list_all is_plain text.now }
{
    text.iter().all(|byte| !matches!(*byte, 0x1c..=0x1e))
}
