//! The journal of a stopped pharmacy, and how a pharmacy stops and starts.

ghost use Rattle.std.specs.Prelude.{◌≡◌, ◌<◌, ◌≤◌, ◌-◌, [], length, map, None, Some, IsSome, IfOk, IfErr, OnOk, OnErr, true, false};
ghost use Rattle.std.specs.Option.{option_copied};
ghost use Rattle.claim_profile.specs.Readable.{readable_header};
ghost use Rattle.claim_model.specs.Limits.{most_entries};
ghost use Rattle.claim_model.specs.Journal.{stopped, started, is_own, with_rule};
ghost use Rattle.pharmacy_journal.specs.Settings.{rule_of};
ghost use Rattle.pharmacy_journal.specs.Retry.{phases_of};
ghost use Rattle.pharmacy_journal.specs.Reading.{is_own_request};
ghost use Rattle.pharmacy_journal.specs.Resting.{added, IsMadeByAdding, RefusesWhere, is_row, is_kept_answer, restarted_rounds, with_restarted, empty_journal};
ghost use Rattle.pharmacy_journal.specs.Entries.{kept_of, next_id, IsEntry};

use crate::fault::{RowFault, SettleFault};
use crate::pharmacy::{Pharmacy, first_timetable};
use crate::rule::RetryRule;
use crate::settings::PharmacySettings;
use crate::slot::Slot;
use crate::timetable::Timetable;
use crate::transaction::{OpenTxn, judge};
use claim_profile::check_readable;
use d0_header::RequestHeader;
use envelope::{LARGEST_PAYLOAD, TxnId};
use octets::Octets;
use std::alloc::{AllocError, Global};
use std::marker::Model;

/// A journal without phases: its requests, numbered from 1, each with its answer if there is one.
#[derive(Drop)]
pub struct JournalAtRest {
    pub(crate) number: u16,
    pub(crate) settings: PharmacySettings,
    pub(crate) rule: RetryRule,
    pub(crate) slots: Vec<Slot>,
}

impl Model for JournalAtRest {
    ghost use Rattle.std.specs.Prelude.{map};
    ghost use Rattle.claim_model.specs.Journal.{JournalAtRest as Resting};

    ghost Value = { Resting };

    ghost use Rattle.pharmacy_journal.specs.Entries.{kept_of, IsAtRest};

    ghost view = { λ j. record { number = j.number; settings = j.settings; rule = j.rule; entries = map kept_of j.slots.items } };

    ghost invariant = { λ j. IsAtRest j.number j.settings j.rule j.slots.items };
}

impl Pharmacy {
    /// Stops the pharmacy. Every entry is kept, and no phase.
    pub fn stop(self) -> JournalAtRest
        ensures { result ≡ stopped self }
    {
        let Pharmacy {
            number,
            settings,
            rule,
            timetable: _,
            slots,
        } = self;
        JournalAtRest {
            number,
            settings,
            rule,
            slots,
        }
    }
}

impl JournalAtRest {
    /// A journal without entries of the pharmacy of this number. Number and list of switches are not
    /// empty.
    pub fn new(
        alloc: Global,
        number: u16,
        settings: PharmacySettings,
    ) -> Result<JournalAtRest, AllocError>
        requires some_number { 0 < number }
        requires some_node { 0 < length settings.nodes }
        ensures { IfOk result (λ j. j ≡ empty_journal number settings) }
    {
        let _again = settings.again();
        let rule = settings.rule().copy()?;
        let _going = rule.again();
        Ok(JournalAtRest {
            number,
            settings,
            rule,
            slots: Vec::new(alloc),
        })
    }

    /// The same journal, which goes by another rule of retries, whose list of switches is not empty.
    pub fn with_rule(self, rule: RetryRule) -> JournalAtRest
        requires { 0 < length rule.nodes }
        ensures { result ≡ with_rule rule self }
    {
        let _going = rule.again();
        let JournalAtRest {
            number,
            settings,
            rule: _,
            slots,
        } = self;
        JournalAtRest {
            number,
            settings,
            rule,
            slots,
        }
    }

    /// Starts the pharmacy: each open entry is one round of waiting before its first send. Where memory
    /// is refused, the journal comes back.
    pub fn start(self) -> Result<Pharmacy, (JournalAtRest, AllocError)>
        ensures ok { IfOk result (λ p. p ≡ started self) }
        ensures err { IfErr result (λ e. e.0 ≡ self) }
    {
        match restarted(*self.slots.allocator(), &self.rule, &self.slots) {
            Ok(timetable) => {
                let JournalAtRest {
                    number,
                    settings,
                    rule,
                    slots,
                } = self;
                Ok(Pharmacy {
                    number,
                    settings,
                    rule,
                    timetable,
                    slots,
                })
            }
            Err(error) => Err((self, error)),
        }
    }

    /// The pharmacy's number.
    pub fn number(&self) -> u16
        ensures value { result ≡ self.now.number }
        ensures some { 0 < result }
    {
        self.number
    }

    /// What it was opened with.
    pub fn settings(&self) -> &PharmacySettings
        ensures value { result.now ≡ self.now.settings }
        ensures some_node { 0 < length result.now.nodes }
    {
        &self.settings
    }

    /// The rule of retries that it goes by.
    pub fn rule(&self) -> &RetryRule
        ensures value { result.now ≡ self.now.rule }
        ensures some_node { 0 < length result.now.nodes }
    {
        &self.rule
    }

    /// What it was opened with, where the journal is no longer needed.
    pub fn into_settings(self) -> PharmacySettings
        ensures value { result ≡ self.settings }
        ensures some_node { 0 < length result.nodes }
    {
        let JournalAtRest { settings, .. } = self;
        settings
    }

    /// The allocator that the journal was opened with.
    pub fn allocator(&self) -> Global {
        *self.slots.allocator()
    }

    /// How many entries there are.
    #[tactic(auto, using(crate::proofs::StopStart::made_by_adding))]
    pub fn entries(&self) -> usize
        ensures value { result ≡ length self.now.entries }
        ensures in_limit { result ≤ self.now.settings.cap }
        ensures small { result ≤ most_entries }
        ensures made { IsMadeByAdding self.now }
    {
        self.slots.len()
    }

    /// Adds an entry at the next number.
    ///
    /// # Errors
    /// `BadRow` where the journal is full, the request is not readable or of another provider, or the
    /// answer has more than 32,768 bytes or is none to the request; the journal is then as it was.
    pub fn add(&mut self, request: &[u8], answer: Option<&[u8]>) -> Result<(), RowFault>
        ensures ok { OnOk result (added self.old request.now (option_copied answer.entry) ≡ Some self.new) }
        ensures err { OnErr result (self.new ≡ self.old) }
        ensures fault { RefusesWhere (added self.old request.now (option_copied answer.entry) ≡ None) result }
    {
        self.admit_row(request, answer)?;
        let slot = self.row(request, answer)?;
        self.slots.push(slot)?;
        Ok(())
    }

    /// Whether an entry may be added.
    fn admit_row(&self, request: &[u8], answer: Option<&[u8]>) -> Result<(), RowFault>
        ensures ok { OnOk result (is_row self.now request.now (option_copied answer.entry) ≡ true) }
        ensures fault { RefusesWhere (is_row self.now request.now (option_copied answer.entry) ≡ false) result }
    {
        if self.entries() >= self.settings.cap() as usize {
            return Err(RowFault::BadRow);
        }
        own_request(&self.settings, request)?;
        match answer {
            None => Ok(()),
            Some(answer) => kept_answer(request, answer),
        }
    }

    /// The next entry, of a request and an answer that may be added.
    fn row(&self, request: &[u8], answer: Option<&[u8]>) -> Result<Slot, AllocError>
        requires { is_row self.now request.now (option_copied answer) ≡ true }
        ensures kept { IfOk result (λ slot. kept_of slot
            ≡ record { request = request.now; answer = option_copied answer.entry }) }
        ensures entry { IfOk result
            (λ slot. IsEntry self.now.settings (next_id self.now.number self.now.entries) slot) }
    {
        let number = self.entries() as u64 + 1;
        let Some(id) = TxnId::new(self.number, number) else {
            unreachable!()
        };
        let alloc = *self.slots.allocator();
        let txn = OpenTxn::new(id, Vec::from_slice(alloc, request)?);
        match answer {
            None => Ok(Slot::Waiting(txn)),
            Some(answer) => {
                let answer = Octets::copy_of(alloc, answer)?;
                Ok(Slot::Settled(txn.settled(answer)))
            }
        }
    }
}

/// Whether a request is readable and the pharmacy's own.
fn own_request(settings: &PharmacySettings, request: &[u8]) -> Result<(), RowFault>
    ensures ok { OnOk result (is_own_request settings.now request.now ≡ true) }
    ensures fault { RefusesWhere (is_own_request settings.now request.now ≡ false) result }
{
    match check_readable(request) {
        Some(framed) => own_header(settings, framed.header()),
        None => Err(RowFault::BadRow),
    }
}

/// Whether a header is of this provider.
fn own_header(settings: &PharmacySettings, header: &RequestHeader) -> Result<(), RowFault>
    ensures ok { OnOk result (is_own settings.now header.now ≡ true) }
    ensures fault { OnErr result (is_own settings.now header.now ≡ false) }
{
    if header.qualifier() == settings.qualifier() && header.provider() == settings.provider() {
        Ok(())
    } else {
        Err(RowFault::BadRow)
    }
}

/// Whether an answer may stand beside a readable request.
fn kept_answer(request: &[u8], answer: &[u8]) -> Result<(), RowFault>
    requires { IsSome (readable_header request.now) }
    ensures ok { OnOk result (is_kept_answer request.now (Some answer.now) ≡ true) }
    ensures fault { RefusesWhere (is_kept_answer request.now (Some answer.now) ≡ false) result }
{
    if answer.len() > LARGEST_PAYLOAD {
        return Err(RowFault::BadRow);
    }
    match judge(request, answer) {
        Ok(()) => Ok(()),
        Err(SettleFault::OutOfMemory) => Err(RowFault::OutOfMemory),
        Err(SettleFault::Unreadable) => Err(RowFault::BadRow),
    }
}

/// The timetable of a pharmacy that starts.
pub(crate) fn restarted(
    alloc: Global,
    rule: &RetryRule,
    slots: &[Slot],
) -> Result<Timetable, AllocError>
    requires { 0 < length rule.now.nodes }
    ensures { IfOk result (λ t. t ≡ restarted_rounds (rule_of rule.now) slots.now) }
{
    let mut timetable = first_timetable(alloc, rule)?;
    let phase = timetable.last_round();
    for slot in slots {
        enter_again(&mut timetable, slot, phase)?;
    }
    Ok(timetable)
}

/// Adds an entry, in this phase where it is open.
fn enter_again(timetable: &mut Timetable, slot: &Slot, phase: u64) -> Result<(), AllocError>
    requires phase { phase ≡ phases_of timetable.old.rule - timetable.old.rule.again }
    requires on_circle { phase < phases_of timetable.old.rule }
    ensures { OnOk result (timetable.new ≡ with_restarted timetable.old slot.now) }
{
    match slot {
        Slot::Waiting(_) => timetable.enter(phase),
        Slot::Settled(_) => timetable.enter_settled(),
    }
}
