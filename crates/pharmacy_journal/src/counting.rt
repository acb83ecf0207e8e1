//! The payments that a pharmacy counts.

ghost use Rattle.std.specs.Prelude.{◌≡◌, ◌≢◌, ℕ, ◌+◌, ◌<◌, ◌≤◌, ◌++◌, [], length, map, take, drop, not, IfOk, OnOk};
ghost use Rattle.std.specs.Option.{option_to_list};
ghost use Rattle.d0_segments.specs.Pieces.{groups_of};
ghost use Rattle.d0_segments.specs.FramedParts.{shared_in, group_in};
ghost use Rattle.claim_profile.specs.Order.{order_of};
ghost use Rattle.claim_model.specs.Bytes.{order_in};
ghost use Rattle.claim_model.specs.Payments.{auth_reversed};
ghost use Rattle.claim_model.specs.Counted.{firsts};
ghost use Rattle.claim_model.specs.Journal.{stopped};
ghost use Rattle.pharmacy_journal.specs.Entries.{kept_of};
ghost use Rattle.pharmacy_journal.specs.Listing.{rulings_of};
ghost use Rattle.pharmacy_journal.specs.Counting.{fill_billed, outcomes_framed, outcomes_by, rulings_told, outcomes, payment_of, has_auth, with_first, without, counted_in};
ghost use Rattle.claim_profile.specs.declared.answer_reading.AnswerFault.TheVariants.{OutOfMemory as NoAnswerMemory};
ghost use Rattle.pharmacy_journal.specs.Telling.{told_by, NamesAll, ReversesAll, NamesMore, ReversesMore, Joins, JoinsOne, CountsPaid};

use crate::at_rest::JournalAtRest;
use crate::pharmacy::Pharmacy;
use crate::slot::Slot;
use claim_profile::{Amounts, AnswerFault, Auth, Fill, Order, Ruling, order_at, read_answer_into};
use d0_header::RequestHeader;
use d0_segments::{Framed, check_request};
use std::alloc::{AllocError, Global};
use std::collections::BTreeSet;
use std::marker::Model;

/// A payment as the pharmacy was told of it.
#[derive(Clone, Copy)]
pub struct CountedPayment {
    auth: Auth,
    fill: Fill,
    amounts: Amounts,
}

impl Model for CountedPayment {
    ghost use Rattle.claim_model.specs.Counted.{Counted};

    ghost Value = { Counted };

    ghost view = { λ p. record { auth = p.auth; fill = p.fill; amounts = p.amounts } };

    ghost inverse = { λ v. record { auth = v.auth; fill = v.fill; amounts = v.amounts } };
}

impl CountedPayment {
    /// The authorization number (503-F3).
    pub fn auth(&self) -> Auth
        ensures { result ≡ self.now.auth }
    {
        self.auth
    }

    /// What was paid for.
    pub fn fill(&self) -> Fill
        ensures { result ≡ self.now.fill }
    {
        self.fill
    }

    /// What was paid.
    pub fn amounts(&self) -> Amounts
        ensures { result ≡ self.now.amounts }
    {
        self.amounts
    }
}

impl Pharmacy {
    /// The payments that the pharmacy counts: those that a Paid or Duplicate answer to one of its claims
    /// names, unless a Reversed answer names them. Fill and amounts are those of the first such answer; the
    /// order is that of numbers and then of places.
    pub fn paid(&self) -> Result<Vec<CountedPayment>, AllocError>
        ensures { CountsPaid (stopped self.now) result }
    {
        paid_in(self.allocator(), self.slots.as_slice())
    }
}

impl JournalAtRest {
    /// The payments that the pharmacy counts, as for one that is up.
    pub fn paid(&self) -> Result<Vec<CountedPayment>, AllocError>
        ensures { CountsPaid self.now result }
    {
        paid_in(self.allocator(), self.slots.as_slice())
    }
}

/// The payments that these entries count.
#[tactic(auto, using(crate::proofs::Payable::counted_by))]
fn paid_in(alloc: Global, slots: &[Slot]) -> Result<Vec<CountedPayment>, AllocError>
    ensures { IfOk result (λ paid. paid.items ≡ counted_in (outcomes (map kept_of slots.now))) }
{
    let told = read_all(alloc, slots)?;
    counted_of(told)
}

/// What entries tell: the payments that are named, in order, and the authorizations that are reversed.
#[derive(Drop)]
pub(crate) struct Told {
    pub(crate) named: Vec<CountedPayment>,
    pub(crate) reversed: BTreeSet<Auth>,
}

/// What no entries tell.
pub(crate) fn nothing_told(alloc: Global) -> Told
    ensures named { result.named.items ≡ [] }
    ensures reversed { result.reversed.keys ≡ [] }
{
    Told {
        named: Vec::new(alloc),
        reversed: BTreeSet::new(alloc),
    }
}

/// The payments that are counted of what entries tell.
pub(crate) fn counted_of(told: Told) -> Result<Vec<CountedPayment>, AllocError>
    ensures { IfOk result (λ paid. paid.items ≡ without told.reversed.keys (firsts told.named.items)) }
{
    let Told { named, reversed } = told;
    first_of_each(named, reversed)
}

/// What these entries tell.
fn read_all(alloc: Global, slots: &[Slot]) -> Result<Told, AllocError>
    ensures named { IfOk result (λ t. NamesAll t (outcomes (map kept_of slots.now))) }
    ensures reversed { IfOk result (λ t. ReversesAll t (outcomes (map kept_of slots.now))) }
{
    let mut told = nothing_told(alloc);
    for slot in slots {
        read_slot(alloc, slot, &mut told)?;
    }
    Ok(told)
}

/// Adds what an entry tells.
fn read_slot(alloc: Global, slot: &Slot, told: &mut Told) -> Result<(), AllocError>
    ensures named { OnOk result (NamesMore told.old told.new (told_by slot.now)) }
    ensures reversed { OnOk result (ReversesMore told.old told.new (told_by slot.now)) }
{
    let rulings = rulings_of_into(Vec::new(alloc), slot)?;
    take_slot(told, slot, rulings.as_slice())
}

/// The rulings of an entry's answer, in a list whose memory is used again.
pub(crate) fn rulings_of_into(list: Vec<Ruling>, slot: &Slot) -> Result<Vec<Ruling>, AllocError>
    ensures { IfOk result (λ rulings. rulings.items ≡ rulings_of (kept_of slot.now).answer) }
{
    match slot {
        Slot::Waiting(_) => Ok(emptied(list)),
        Slot::Settled(txn) => rulings_in(list, txn.answer()),
    }
}

/// Adds what an entry with these rulings tells.
pub(crate) fn take_slot(told: &mut Told, slot: &Slot, rulings: &[Ruling]) -> Result<(), AllocError>
    requires { rulings.now ≡ rulings_of (kept_of slot.now).answer }
    ensures named { OnOk result (NamesMore told.old told.new (told_by slot.now)) }
    ensures reversed { OnOk result (ReversesMore told.old told.new (told_by slot.now)) }
{
    match slot {
        Slot::Waiting(_) => Ok(()),
        Slot::Settled(txn) => take_all(told, txn.request(), rulings),
    }
}

/// Adds what the rulings on the groups of a request tell.
#[tactic(auto, using(crate::proofs::Payable::no_fills, crate::proofs::Payable::or_false))]
fn take_all(told: &mut Told, request: &[u8], rulings: &[Ruling]) -> Result<(), AllocError>
    ensures named { OnOk result (NamesMore told.old told.new (outcomes_by request.now rulings.now)) }
    ensures reversed { OnOk result (ReversesMore told.old told.new (outcomes_by request.now rulings.now)) }
{
    match check_request(request) {
        Ok(framed) => take_groups(told, &framed, rulings),
        Err(_) => Ok(()),
    }
}

/// Adds what the rulings on the groups of a framed request tell.
fn take_groups(
    told: &mut Told,
    framed: &Framed<'_, RequestHeader>,
    rulings: &[Ruling],
) -> Result<(), AllocError>
    ensures named { OnOk result (NamesMore told.old told.new (outcomes_framed framed.now rulings.now)) }
    ensures reversed { OnOk result (ReversesMore told.old told.new (outcomes_framed framed.now rulings.now)) }
{
    let count = framed.group_count().min(rulings.len());
    for place in 0..count {
        take_one(told, fill_at(framed, place), &rulings[place])?;
    }
    Ok(())
}

/// Adds what the ruling on one group tells.
fn take_one(told: &mut Told, fill: Option<Fill>, ruling: &Ruling) -> Result<(), AllocError>
    ensures named { OnOk result (told.new.named.items
        ≡ told.old.named.items ++ option_to_list (payment_of fill ruling.now)) }
    ensures reversed { OnOk result (Joins (auth_reversed ruling.now) told.old.reversed.keys told.new.reversed.keys) }
{
    let payment = payment_of(fill, ruling);
    let auth = auth_reversed(ruling);
    take_payment(&mut told.named, payment)?;
    take_reversal(&mut told.reversed, auth)
}

/// Adds a payment, where there is one.
fn take_payment(
    named: &mut Vec<CountedPayment>,
    payment: Option<CountedPayment>,
) -> Result<(), AllocError>
    ensures { OnOk result (named.new.items ≡ named.old.items ++ option_to_list payment) }
{
    if let Some(payment) = payment {
        named.push(payment)?;
    }
    Ok(())
}

/// Adds an authorization, where there is one.
fn take_reversal(reversed: &mut BTreeSet<Auth>, auth: Option<Auth>) -> Result<(), AllocError>
    ensures { OnOk result (Joins auth reversed.old.keys reversed.new.keys) }
{
    if let Some(auth) = auth {
        take_auth(reversed, auth)?;
    }
    Ok(())
}

/// Adds an authorization, and tells whether it is new.
fn take_auth(auths: &mut BTreeSet<Auth>, auth: Auth) -> Result<bool, AllocError>
    ensures new { IfOk result (λ new. new ≡ not (has_auth auths.old.keys auth)) }
    ensures has { OnOk result (JoinsOne auth auths.old.keys auths.new.keys) }
{
    let new = auths.insert(auth)?;
    Ok(new)
}

/// The payment that a ruling names on a group that bills this fill.
fn payment_of(fill: Option<Fill>, ruling: &Ruling) -> Option<CountedPayment>
    ensures { result ≡ payment_of fill ruling.now }
{
    let fill = fill?;
    match ruling {
        Ruling::Paid { auth, amounts, .. } | Ruling::Duplicate { auth, amounts, .. } => {
            Some(CountedPayment {
                auth: *auth,
                fill,
                amounts: *amounts,
            })
        }
        _ => None,
    }
}

/// The authorization that a ruling reverses.
fn auth_reversed(ruling: &Ruling) -> Option<Auth>
    ensures { result ≡ auth_reversed ruling.now }
{
    match ruling {
        Ruling::Reversed { auth, .. } => Some(*auth),
        _ => None,
    }
}

/// The first payment of each authorization that is not among `seen`: these come to the front of the list, and the others go.
fn first_of_each(
    named: Vec<CountedPayment>,
    seen: BTreeSet<Auth>,
) -> Result<Vec<CountedPayment>, AllocError>
    ensures { IfOk result (λ counted. counted.items ≡ without seen.keys (firsts named.items)) }
{
    let mut payments = named;
    let mut seen = seen;
    let mut kept = 0;
    for place in 0..payments.len() {
        let payment = payments[place];
        kept = count(&mut payments, &mut seen, payment, kept)?;
    }
    payments.truncate(kept);
    Ok(payments)
}

/// Counts a payment, where its authorization was not seen: it comes after the first payments of the list, which are counted, so
/// many. Gives how many are counted then.
fn count(
    payments: &mut Vec<CountedPayment>,
    seen: &mut BTreeSet<Auth>,
    payment: CountedPayment,
    kept: usize,
) -> Result<usize, AllocError>
    requires { kept < length payments.old.items }
    ensures counted { IfOk result (λ more. take more payments.new.items
        ≡ with_first seen.old.keys (take kept payments.old.items) payment) }
    ensures one { IfOk result (λ more. more ≤ kept + 1) }
    ensures rest { OnOk result ((k : ℕ) → kept < k → drop k payments.new.items ≡ drop k payments.old.items) }
    ensures same { OnOk result (length payments.new.items ≡ length payments.old.items) }
    ensures seen { OnOk result (JoinsOne payment.auth seen.old.keys seen.new.keys) }
{
    if take_auth(seen, payment.auth())? {
        payments[kept] = payment;
        return Ok(kept + 1);
    }
    Ok(kept)
}

/// A list without what it held.
fn emptied(list: Vec<Ruling>) -> Vec<Ruling>
    ensures { result.items ≡ [] }
{
    let mut list = list;
    list.clear();
    list
}

/// The rulings of an answer, none where the bytes are no answer, in a list whose memory is used again.
fn rulings_in(list: Vec<Ruling>, answer: &[u8]) -> Result<Vec<Ruling>, AllocError>
    ensures { IfOk result (λ rulings. rulings.items ≡ rulings_told answer.now) }
{
    let alloc = *list.allocator();
    match read_answer_into(list, answer) {
        Ok(answer) => Ok(answer.into_rulings()),
        Err(fault) => {
            answer_memory(fault)?;
            Ok(Vec::new(alloc))
        }
    }
}

/// Whether an answer was not read for its own sake.
fn answer_memory(fault: AnswerFault) -> Result<(), AllocError>
    ensures { OnOk result (fault ≢ NoAnswerMemory) }
{
    match fault {
        AnswerFault::OutOfMemory => Err(AllocError),
        _ => Ok(()),
    }
}

/// The fill that the group at a place bills, where it reads as a claim.
fn fill_at(framed: &Framed<'_, RequestHeader>, place: usize) -> Option<Fill>
    requires { place < length (groups_of framed.now.body.bytes.now) }
    ensures { result ≡ fill_billed
        (order_in (order_of framed.now.header (shared_in framed.now) (group_in framed.now place))) }
{
    match order_at(framed, place) {
        Ok(Order::Claim(claim)) => Some(claim.fill),
        Ok(Order::Reversal(_)) => None,
        Err(_) => None,
    }
}
