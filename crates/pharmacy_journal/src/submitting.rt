//! Submitting a request.

ghost use Rattle.std.specs.Prelude.{◌≡◌, ◌<◌, length, true, None, Some, Ok, IfOk, IfErr, OnOk, OnErr, IsSome};
ghost use Rattle.claim_profile.specs.Readable.{readable_header};
ghost use Rattle.claim_model.specs.Readable.{has_code};
ghost use Rattle.claim_model.specs.Journal.{Journal, submit_fault};
ghost use Rattle.pharmacy_journal.specs.Reading.{header_of, is_own_request};
ghost use Rattle.pharmacy_journal.specs.Entries.{next_id};
ghost use Rattle.pharmacy_journal.specs.Refusing.{IsFirstFault};
ghost use Rattle.pharmacy_journal.specs.Sendings.{packet_of};
ghost use Rattle.pharmacy_journal.specs.Steps.{with_waiting, Submits, RefusesToSubmit};

use crate::pharmacy::Pharmacy;
use crate::sent::Sent;
use crate::slot::Slot;
use crate::transaction::OpenTxn;
use claim_model::{Fault, Refusal};
use claim_profile::{LONGEST_REQUEST, TransactionCode};
use d0_header::RequestHeader;
use d0_segments::check_request;
use envelope::TxnId;
use std::alloc::AllocError;

impl Pharmacy {
    /// Enters a request under the next number, and gives that number and its packet for the first switch.
    ///
    /// # Errors
    /// The first that stands: `Unreadable` (the text is not framed as a request), `Version`, `CodeNotCarried`,
    /// `NotOwnProvider`, `TooLong`, `JournalFull`. The journal is then as it was.
    pub fn submit(&mut self, text: &[u8]) -> Result<(u64, Sent), Fault>
        ensures ok { Submits self.old text.now self.new result }
        ensures err { OnErr result (self.new ≡ self.old) }
        ensures fault { RefusesToSubmit self.old text.now result }
    {
        self.admit(text)?;
        let txn = self.next_txn(text)?;
        let sent = self.first_packet(&txn)?;
        let number = txn.id().number();
        self.keep(txn)?;
        Ok((number, sent))
    }

    /// Whether a text may be submitted.
    fn admit(&self, text: &[u8]) -> Result<(), Fault>
        ensures ok { OnOk result (submit_fault self.now text.now (header_of text.now) ≡ None) }
        ensures fault { IfErr result (λ e. IsFirstFault self.now text.now e) }
    {
        let header = read_header(text)?;
        match self.fault_of(&header, text) {
            None => Ok(()),
            Some(why) => Err(Fault::Refused(why)),
        }
    }

    /// Why a framed request is not submitted.
    fn fault_of(&self, header: &RequestHeader, text: &[u8]) -> Option<Refusal>
        ensures { result ≡ submit_fault self.now text.now (Some header.now) }
    {
        if header.version() != *b"D0" {
            return Some(Refusal::Version);
        }
        if !is_kind_carried(header) {
            return Some(Refusal::CodeNotCarried);
        }
        if header.qualifier() != self.settings.qualifier()
            || header.provider() != self.settings.provider()
        {
            return Some(Refusal::NotOwnProvider);
        }
        if text.len() > LONGEST_REQUEST {
            return Some(Refusal::TooLong);
        }
        if self.entries() >= self.settings.cap() as usize {
            return Some(Refusal::JournalFull);
        }
        None
    }

    /// The transaction of a request at the next number.
    fn next_txn(&self, text: &[u8]) -> Result<OpenTxn, AllocError>
        requires { IsSome (readable_header text.now) }
        ensures { IfOk result (λ t. t ≡ record { id = next_id self.now.number self.now.entries; request = text.now }) }
    {
        let number = self.entries() as u64 + 1;
        let Some(id) = TxnId::new(self.number, number) else {
            unreachable!()
        };
        OpenTxn::in_packet(*self.slots.allocator(), id, text)
    }

    /// The packet of a new transaction, for the first switch.
    fn first_packet(&self, txn: &OpenTxn) -> Result<Sent, AllocError>
        requires { txn.now.id.pharmacy ≡ self.now.number }
        ensures { IfOk result (λ sent. sent ≡ packet_of self.now txn.now.id.number 0 txn.now.request) }
    {
        let packet = txn.packet(*self.slots.allocator())?;
        Ok(Sent::new(self.rule.nodes()[0], packet))
    }

    /// Enters a transaction at the next number.
    fn keep(&mut self, txn: OpenTxn) -> Result<(), AllocError>
        requires id { txn.id ≡ next_id self.old.number self.old.entries }
        requires own { is_own_request self.old.settings txn.request ≡ true }
        requires room { length self.old.entries < self.old.settings.cap }
        ensures ok { OnOk result (self.new ≡ with_waiting self.old txn.request) }
        ensures err { OnErr result (self.new ≡ self.old) }
    {
        self.slots.reserve(1)?;
        self.timetable.enter(0)?;
        self.slots.push_reserved(Slot::Waiting(txn));
        Ok(())
    }
}

/// The header of a text that is framed as a request.
#[tactic(auto, using(crate::proofs::ReadingLemmas::unframed))]
fn read_header(text: &[u8]) -> Result<RequestHeader, Fault>
    ensures ok { IfOk result (λ header. header_of text.now ≡ Some header) }
    ensures fault { IfErr result (λ e. (j : Journal) → IsFirstFault j text.now e) }
{
    match check_request(text) {
        Ok(framed) => Ok(*framed.header()),
        Err(_) => Err(Fault::Refused(Refusal::Unreadable)),
    }
}

/// Whether a request is of a kind that is submitted: a billing or a reversal.
fn is_kind_carried(header: &RequestHeader) -> bool
    ensures { result ≡ has_code header.now }
{
    match TransactionCode::read(header.code()) {
        Some(TransactionCode::Billing | TransactionCode::Reversal) => true,
        None => false,
    }
}
