//! Hearing an answer.

ghost use Rattle.std.specs.Prelude.{◌≡◌, ◌<◌, ◌≤◌, ℕ, length, true, Option, Ok, IfOk, IfSome, OnOk, OnErr, bytes_eq, if◌then◌else◌};
ghost use Rattle.std.specs.Bool.{OnTrue};
ghost use Rattle.std.specs.List.{slice_get};
ghost use Rattle.envelope.specs.Envelope.{longest_payload};
ghost use Rattle.claim_model.specs.Journal.{Has, settle_by};
ghost use Rattle.claim_model.specs.declared.refusal.Refusal.TheVariants.{AlreadySettled, Differs};
ghost use Rattle.pharmacy_journal.specs.Entries.{entry_of, is_waiting};
ghost use Rattle.pharmacy_journal.specs.Hearing.{packet_text, answers, IsAnsweredBy, state_told, state_heard, settled_slot, settled_at};
ghost use Rattle.pharmacy_journal.specs.Steps.{Hears, RefusesToHear, RefusesAs, IsReadableAnswer};

use crate::fault::SettleFault;
use crate::kept::place_of;
use crate::pharmacy::Pharmacy;
use crate::slot::Slot;
use crate::transaction::judge;
use claim_model::{Fault, Refusal};
use core::mem::replace_with;
use envelope::{Envelope, HEAD, Kind, payload_is_behind_its_head};
use octets::Octets;
use std::alloc::{AllocError, Global};

impl Pharmacy {
    /// Settles the entry of an answer's number, for good.
    ///
    /// # Errors
    /// `NotMine`, `NoSuchNumber`, `Unreadable`, `AlreadySettled`, `Differs`, the first of these that
    /// stands; the journal is then as it was.
    pub fn hear(&mut self, envelope: &Envelope<'_>) -> Result<(), Fault>
        ensures ok { Hears self.old envelope.now self.new result }
        ensures err { OnErr result (self.new ≡ self.old) }
        ensures fault { RefusesToHear self.old envelope.now result }
    {
        self.settle(envelope, None, false)
    }

    /// As [`hear`](Pharmacy::hear), of the packet that the envelope was read from. The answer is kept as the packet's
    /// end, which takes no memory where the packet is shared.
    pub fn hear_packet(&mut self, envelope: &Envelope<'_>, packet: &Octets) -> Result<(), Fault>
        requires { packet.now ≡ packet_text envelope.now }
        ensures ok { Hears self.old envelope.now self.new result }
        ensures err { OnErr result (self.new ≡ self.old) }
        ensures fault { RefusesToHear self.old envelope.now result }
    {
        self.settle(envelope, Some(packet), false)
    }

    /// As [`hear_packet`](Pharmacy::hear_packet), of a packet whose answer is readable and fits its request, as each that is
    /// for this pharmacy does where nodes sent it: the answer is not read.
    pub fn hear_known(&mut self, envelope: &Envelope<'_>, packet: &Octets) -> Result<(), Fault>
        requires packet { packet.now ≡ packet_text envelope.now }
        requires readable { IsReadableAnswer self.old envelope.now }
        ensures ok { Hears self.old envelope.now self.new result }
        ensures err { OnErr result (self.new ≡ self.old) }
        ensures fault { RefusesToHear self.old envelope.now result }
    {
        self.settle(envelope, Some(packet), true)
    }

    /// Settles the entry of an answer's number. Where the answer is known to be readable and to fit its request, it is not
    /// read.
    #[inline(always)]
    fn settle(
        &mut self,
        envelope: &Envelope<'_>,
        packet: Option<&Octets>,
        known: bool,
    ) -> Result<(), Fault>
        requires packet { IfSome packet (λ packet. packet.now ≡ packet_text envelope.now) }
        requires readable { OnTrue known (IsReadableAnswer self.old envelope.now) }
        ensures ok { Hears self.old envelope.now self.new result }
        ensures err { OnErr result (self.new ≡ self.old) }
        ensures fault { RefusesToHear self.old envelope.now result }
    {
        let id = envelope.id();
        if id.pharmacy() != self.number {
            return Err(Fault::Refused(Refusal::NotMine));
        }
        let Some(place) = place_of(id.number(), self.slots.len()) else {
            return Err(Fault::Refused(Refusal::NoSuchNumber));
        };
        verdict(&self.slots[place], envelope, known)?;
        let answer = answer_of(*self.slots.allocator(), envelope, packet)?;
        self.timetable.settle(place);
        settle_at(&mut self.slots, place, answer);
        Ok(())
    }
}

/// The payload of an envelope: the end of its packet where that is at hand, and else a copy.
fn answer_of(
    alloc: Global,
    envelope: &Envelope<'_>,
    packet: Option<&Octets>,
) -> Result<Octets, AllocError>
    requires { IfSome packet (λ packet. packet.now ≡ packet_text envelope.now) }
    ensures value { IfOk result (λ answer. answer ≡ envelope.now.payload) }
    ensures short { IfOk result (λ answer. length answer ≤ longest_payload) }
{
    payload_is_behind_its_head();
    let payload = envelope.payload();
    match packet {
        Some(packet) => packet.tail(HEAD),
        None => Octets::copy_of(alloc, payload),
    }
}

/// Whether an envelope settles an entry. Where its answer is known to fit the entry's request, it is not read.
fn verdict(slot: &Slot, envelope: &Envelope<'_>, known: bool) -> Result<(), Fault>
    requires { OnTrue known (answers slot.now envelope.now ≡ true) }
    ensures open { OnOk result (IsAnsweredBy slot.now envelope.now.payload) }
    ensures ok { (phase : Option ℕ)
        → OnOk result (state_heard slot.now phase envelope.now ≡ Ok (Has envelope.now.payload)) }
    ensures fault { (phase : Option ℕ) → RefusesAs (state_heard slot.now phase envelope.now) result }
{
    if known {
        return known_verdict(slot, envelope);
    }
    match envelope.kind() {
        Kind::Request => Err(Fault::Refused(Refusal::Unreadable)),
        Kind::Answer => verdict_on(slot, envelope.payload()),
    }
}

/// Whether an envelope settles an entry whose request its answer fits.
#[tactic(auto, using(crate::proofs::Hearings::opened_by))]
fn known_verdict(slot: &Slot, envelope: &Envelope<'_>) -> Result<(), Fault>
    requires { answers slot.now envelope.now ≡ true }
    ensures open { OnOk result (IsAnsweredBy slot.now envelope.now.payload) }
    ensures ok { (phase : Option ℕ)
        → OnOk result (state_heard slot.now phase envelope.now ≡ Ok (Has envelope.now.payload)) }
    ensures fault { (phase : Option ℕ) → RefusesAs (state_heard slot.now phase envelope.now) result }
{
    beside(slot, envelope.payload())
}

/// Whether a payload of kind 2 settles an entry.
fn verdict_on(slot: &Slot, payload: &[u8]) -> Result<(), Fault>
    ensures open { OnOk result (IsAnsweredBy slot.now payload.now) }
    ensures ok { (phase : Option ℕ) → OnOk result (state_told slot.now phase payload.now ≡ Ok (Has payload.now)) }
    ensures fault { (phase : Option ℕ) → RefusesAs (state_told slot.now phase payload.now) result }
{
    match judge(slot.request(), payload) {
        Ok(()) => beside(slot, payload),
        Err(SettleFault::OutOfMemory) => Err(Fault::OutOfMemory),
        Err(SettleFault::Unreadable) => Err(Fault::Refused(Refusal::Unreadable)),
    }
}

/// Whether an entry waits, beside an answer that fits its request.
fn beside(slot: &Slot, answer: &[u8]) -> Result<(), Fault>
    ensures open { OnOk result (is_waiting slot.now ≡ true) }
    ensures ok { (phase : Option ℕ)
        → OnOk result (settle_by answer.now (entry_of slot.now phase).state ≡ Ok (Has answer.now)) }
    ensures fault { (phase : Option ℕ) → RefusesAs (settle_by answer.now (entry_of slot.now phase).state) result }
{
    match slot {
        Slot::Waiting(_) => Ok(()),
        Slot::Settled(txn) => Err(Fault::Refused(refusal_beside(txn.answer(), answer))),
    }
}

/// Why an answer to a settled entry is refused.
fn refusal_beside(held: &[u8], answer: &[u8]) -> Refusal
    ensures { result ≡ (if bytes_eq held.now answer.now then AlreadySettled else Differs) }
{
    if held == answer {
        Refusal::AlreadySettled
    } else {
        Refusal::Differs
    }
}

/// Gives the open entry at a place its answer.
fn settle_at(slots: &mut Vec<Slot>, place: usize, answer: Octets)
    requires in_range { place < length slots.old.items }
    requires fits { IfSome (slice_get slots.old.items place) (λ slot. IsAnsweredBy slot answer) }
    ensures { slots.new.items ≡ settled_at slots.old.items place answer }
{
    replace_with(&mut slots[place], answer, settled);
}

/// An open entry with its answer.
fn settled(slot: Slot, answer: Octets) -> (Slot, ())
    requires { IsAnsweredBy slot answer }
    ensures { result.0 ≡ settled_slot slot answer }
{
    match slot {
        Slot::Waiting(txn) => (Slot::Settled(txn.settled(answer)), ()),
        Slot::Settled(txn) => (Slot::Settled(txn), ()),
    }
}
