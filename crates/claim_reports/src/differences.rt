//! What a pharmacy counts beside what a payer paid.

ghost use Rattle.std.specs.Prelude.{◌≡◌, ◌++◌, map, IfErr, IfOk};
ghost use Rattle.std.specs.List.{filter_map};
ghost use Rattle.std.specs.Ordering.{nat_cmp};
ghost use Rattle.std.specs.BTreeMap.{IsFromIterResult, get};
ghost use Rattle.claim_reports.specs.declared.differences.Counted.{Counted};
ghost use Rattle.claim_reports.specs.declared.differences.Entry.{Entry};
ghost use Rattle.claim_reports.specs.declared.differences.Made.{Made};
ghost use Rattle.claim_reports.specs.declared.fault.ReportFault.TheVariants.{OutOfMemory};
ghost use Rattle.claim_reports.specs.Comparing.{is_open_entry, Findings, counted_finding, made_finding, same_figures};

use crate::fault::ReportFault;
use std::alloc::{AllocError, Global};
use std::collections::BTreeMap;

/// What a payment is for, and what it comes to.
#[derive(Clone, Copy, PartialEq, Eq)]
pub struct Figures {
    /// The prescription's number (402-D2).
    pub prescription: u64,
    /// The fill number (403-D3).
    pub fill: u64,
    /// The ingredient cost paid (506-F6) in cents.
    pub cost: u64,
    /// The dispensing fee paid (507-F7) in cents.
    pub fee: u64,
    /// The patient's part (505-F5) in cents.
    pub copay: u64,
    /// The total (509-F9) in cents.
    pub cents: u64,
}

/// A payment that a pharmacy counts.
#[derive(Clone, Copy)]
pub struct Counted {
    /// Its authorization (503-F3), as a number.
    pub auth: u64,
    /// What it is for, and what it comes to.
    pub figures: Figures,
}

/// A payment of a payer's book.
#[derive(Clone, Copy)]
pub struct Made {
    /// Its authorization (503-F3), as a number.
    pub auth: u64,
    /// The number of the pharmacy's billing.
    pub number: u64,
    /// What it is for, and what it comes to.
    pub figures: Figures,
    /// The number of the pharmacy's reversal, where it was reversed.
    pub reversed_by: Option<u64>,
}

/// An entry of a pharmacy's journal.
#[derive(Clone, Copy)]
pub struct Entry {
    /// Its number.
    pub number: u64,
    /// Whether it has no answer yet.
    pub open: bool,
}

/// What differs about an authorization. The last word of `Reversed` and `NotCounted` is whether the answer that would settle
/// it may still be on its way: the pharmacy's entry is open.
#[derive(Clone, Copy, PartialEq, Eq)]
pub enum Difference {
    /// The pharmacy counts it, and the payer has not paid it.
    NotPaid(u64, Figures),
    /// The pharmacy counts other figures, which come first, than the payer paid.
    Differs(u64, Figures, Figures),
    /// The pharmacy counts it, and the payer has reversed it.
    Reversed(u64, Figures, bool),
    /// It stands at the payer, and the pharmacy does not count it.
    NotCounted(u64, Figures, bool),
}

/// What the pharmacy counts and the payer has not, or has otherwise, in the order in which the pharmacy counts them; then what
/// stands at the payer and the pharmacy does not count, in the order of the book.
///
/// # Errors
/// Want of memory.
pub fn compare(
    alloc: Global,
    counted: &[Counted],
    entries: &[Entry],
    made: &[Made],
) -> Result<Vec<Difference>, ReportFault>
    ensures found { IfOk result (λ found. Findings counted.now entries.now made.now found.items) }
    // It is refused for want of memory alone.
    ensures memory { IfErr result (λ e. e ≡ OutOfMemory) }
{
    let held = entries_by_number(alloc, entries)?;
    let paid = made_by_auth(alloc, made)?;
    let known = counted_by_auth(alloc, counted)?;
    Ok(found(alloc, &held, &known, &paid, counted, made)?)
}

/// The entries by their numbers; of several with one the last.
pub(crate) fn entries_by_number(
    alloc: Global,
    entries: &[Entry],
) -> Result<BTreeMap<u64, Entry>, AllocError>
    ensures { IfOk result (IsFromIterResult nat_cmp (map (λ (e : Entry). (e.number, e)) entries.now)) }
{
    entries
        .iter()
        .map(|entry| (entry.number, *entry))
        .collect(alloc)
}

/// The payments of a book by their authorizations.
fn made_by_auth(alloc: Global, made: &[Made]) -> Result<BTreeMap<u64, Made>, AllocError>
    ensures { IfOk result (IsFromIterResult nat_cmp (map (λ (m : Made). (m.auth, m)) made.now)) }
{
    made.iter()
        .map(|payment| (payment.auth, *payment))
        .collect(alloc)
}

/// The payments that a pharmacy counts by their authorizations.
fn counted_by_auth(alloc: Global, counted: &[Counted]) -> Result<BTreeMap<u64, Counted>, AllocError>
    ensures { IfOk result (IsFromIterResult nat_cmp (map (λ (c : Counted). (c.auth, c)) counted.now)) }
{
    counted
        .iter()
        .map(|payment| (payment.auth, *payment))
        .collect(alloc)
}

/// What is found of the payments that the pharmacy counts, and of those of the book.
fn found(
    alloc: Global,
    held: &BTreeMap<u64, Entry>,
    known: &BTreeMap<u64, Counted>,
    paid: &BTreeMap<u64, Made>,
    counted: &[Counted],
    made: &[Made],
) -> Result<Vec<Difference>, AllocError>
    ensures { IfOk result (λ found. found.items
        ≡ filter_map (counted_finding (get nat_cmp held.now) (get nat_cmp paid.now)) counted.now
        ++ filter_map (made_finding (get nat_cmp held.now) (get nat_cmp known.now)) made.now) }
{
    let of_counted = counted
        .iter()
        .filter_map(|payment| counted_finding(held, paid, payment));
    let of_made = made
        .iter()
        .filter_map(|payment| made_finding(held, known, payment));
    of_counted.chain(of_made).collect(alloc)
}

/// What is found of a payment that the pharmacy counts.
#[tactic(auto, unfolding(crate::specs::Comparing::counted_finding))]
fn counted_finding(
    held: &BTreeMap<u64, Entry>,
    paid: &BTreeMap<u64, Made>,
    counted: &Counted,
) -> Option<Difference>
    ensures { result ≡ counted_finding (get nat_cmp held.now) (get nat_cmp paid.now) counted.now }
{
    let Some(made) = paid.get(&counted.auth) else {
        return Some(Difference::NotPaid(counted.auth, counted.figures));
    };
    match made.reversed_by {
        Some(number) => {
            let is_open = is_open(held, number);
            Some(Difference::Reversed(counted.auth, counted.figures, is_open))
        }
        None => {
            if made.figures.are(counted.figures) {
                return None;
            }
            Some(Difference::Differs(counted.auth, counted.figures, made.figures))
        }
    }
}

/// What is found of a payment of the book.
fn made_finding(
    held: &BTreeMap<u64, Entry>,
    known: &BTreeMap<u64, Counted>,
    made: &Made,
) -> Option<Difference>
    ensures { result ≡ made_finding (get nat_cmp held.now) (get nat_cmp known.now) made.now }
{
    if made.reversed_by.is_some() || known.contains_key(&made.auth) {
        return None;
    }
    let is_open = is_open(held, made.number);
    Some(Difference::NotCounted(made.auth, made.figures, is_open))
}

impl Figures {
    /// Whether each of them is that of others.
    fn are(self, others: Figures) -> bool
        ensures { result ≡ same_figures self others }
    {
        self.cents == others.cents
            && self.cost == others.cost
            && self.fee == others.fee
            && self.copay == others.copay
            && self.prescription == others.prescription
            && self.fill == others.fill
    }
}

/// Whether the entry of a number has no answer yet.
fn is_open(held: &BTreeMap<u64, Entry>, number: u64) -> bool
    ensures { result ≡ is_open_entry (get nat_cmp held.now number) }
{
    held.get(&number).is_some_and(|entry| entry.open)
}
