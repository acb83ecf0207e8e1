//! Which entries the next tick sends, without a look at the others.

ghost use Rattle.std.specs.Prelude.{◌≡◌, ◌<◌, ◌-◌, ◌++◌, ◌∷◌, [], ℕ, length, None, Some, OnOk, OnErr, IfOk, IfSome, slice_set};
ghost use Rattle.std.specs.List.{filter};
ghost use Rattle.pharmacy_journal.specs.Retry.{rule_with, IsRule, phases_of};
ghost use Rattle.pharmacy_journal.specs.Timetable.{ticked_rounds, due_next, next_node, is_quiet, is_open, have_open, bucket_at, open_at, with_place, AreBelow};

use crate::bucket::Bucket;
use crate::retry::Retry;
use std::alloc::{AllocError, Global};
use std::marker::Model;

/// The phases of a journal's entries, by place from 0. One clock turns for all of them, and the open
/// entries stand in buckets by their lead's remainder, so that a tick finds those that it sends. An entry's lead never
/// changes, so it stays in one bucket for good.
#[derive(Drop)]
pub(crate) struct Timetable {
    retry: Retry,
    leads: Vec<Option<u64>>,
    buckets: Vec<Bucket>,
}

impl Model for Timetable {
    ghost use Rattle.pharmacy_journal.specs.Timetable.{Rounds, IsKept, seen_phases};

    ghost Value = { Rounds };

    ghost view = { λ t. record { rule = t.retry.rule; phases = seen_phases t.retry t.leads.items } };

    ghost invariant = { λ t. IsKept t.retry.rule t.leads.items t.buckets.items };
}

impl Timetable {
    /// No entries yet.
    pub(crate) fn new(
        alloc: Global,
        again: u32,
        tries: u32,
        nodes: u32,
    ) -> Result<Timetable, AllocError>
        requires { IsRule (rule_with again tries nodes) }
        ensures { IfOk result (λ t. t ≡ record { rule = rule_with again tries nodes; phases = [] }) }
    {
        let retry = Retry::new(again, tries, nodes);
        let buckets = empty_buckets(alloc, again)?;
        Ok(Timetable {
            retry,
            leads: Vec::new(alloc),
            buckets,
        })
    }

    /// The phase that is one wait before the circle's beginning.
    pub(crate) fn last_round(&self) -> u64
        ensures value { result ≡ phases_of self.now.rule - self.now.rule.again }
        ensures on_circle { result < phases_of self.now.rule }
    {
        self.retry.last_round()
    }

    /// Adds an open entry in a phase.
    pub(crate) fn enter(&mut self, phase: u64) -> Result<(), AllocError>
        requires { phase < phases_of self.old.rule }
        ensures ok { OnOk result (self.new ≡ record self.old { phases = self.old.phases ++ Some phase ∷ [] }) }
        ensures err { OnErr result (self.new ≡ self.old) }
    {
        let lead = self.retry.lead_to(phase);
        let bucket = self.retry.bucket_of(lead);
        let place = self.leads.len();
        self.leads.reserve(1)?;
        put(&mut self.buckets, bucket, place)?;
        self.leads.push_reserved(Some(lead));
        Ok(())
    }

    /// Adds a settled entry.
    pub(crate) fn enter_settled(&mut self) -> Result<(), AllocError>
        ensures ok { OnOk result (self.new ≡ record self.old { phases = self.old.phases ++ None ∷ [] }) }
        ensures err { OnErr result (self.new ≡ self.old) }
    {
        self.leads.push(None)?;
        Ok(())
    }

    /// Settles an entry: it has no phase from now on.
    pub(crate) fn settle(&mut self, place: usize)
        requires { place < length self.old.phases }
        ensures { self.new ≡ record self.old { phases = slice_set self.old.phases place None } }
    {
        if let Some(lead) = self.leads[place] {
            let bucket = self.retry.bucket_of(lead);
            self.leads[place] = None;
            leave_hole(&mut self.buckets, bucket, self.leads.as_slice());
        }
    }

    /// Whether no entry is open. Of each bucket the places are walked up to the first open one, as long as none was found.
    pub(crate) fn is_idle(&self) -> bool
        ensures { result ≡ is_quiet self.now }
    {
        !have_open(self.buckets.as_slice(), self.leads.as_slice())
    }

    /// Places among which are those of the entries that the next tick sends, in order. The others are of settled
    /// entries, and no more than those.
    pub(crate) fn due_next(&self) -> &[usize]
        ensures due { filter (is_open self.now.phases) result.now ≡ due_next self.now }
        ensures in_range { AreBelow (length self.now.phases) result.now }
    {
        let bucket = self.retry.next_bucket();
        self.buckets[bucket].places()
    }

    /// The switch, by its place in the list, at which an entry is after the next tick; none where it is settled.
    pub(crate) fn next_node(&self, place: usize) -> Option<usize>
        requires { place < length self.now.phases }
        ensures value { result ≡ next_node self.now place }
        ensures in_range { IfSome result (λ node. node < self.now.rule.nodes) }
    {
        match self.leads[place] {
            Some(lead) => Some(self.retry.next_node(lead)),
            None => None,
        }
    }

    /// One tick.
    pub(crate) fn tick(&mut self)
        ensures { self.new ≡ ticked_rounds self.old }
    {
        self.retry.tick();
    }
}

/// As many empty buckets.
fn empty_buckets(alloc: Global, count: u32) -> Result<Vec<Bucket>, AllocError>
    ensures count { IfOk result (λ buckets. length buckets.items ≡ count) }
    ensures empty { IfOk result (λ buckets. (b : ℕ) → bucket_at buckets.items b ≡ []) }
{
    let mut buckets = Vec::with_capacity(alloc, count as usize)?;
    for _ in 0..count {
        buckets.push(Bucket::new(alloc))?;
    }
    Ok(buckets)
}

/// Puts a place into a bucket, after the places that are there.
fn put(buckets: &mut Vec<Bucket>, bucket: usize, place: usize) -> Result<(), AllocError>
    requires { bucket < length buckets.old.items }
    ensures ok { OnOk result (buckets.new.items ≡ with_place buckets.old.items bucket place) }
    ensures err { OnErr result (buckets.new.items ≡ buckets.old.items) }
{
    buckets[bucket].push(place)?;
    Ok(())
}

/// Whether one of the buckets has the place of an open entry.
fn have_open(buckets: &[Bucket], leads: &[Option<u64>]) -> bool
    ensures { result ≡ have_open leads.now buckets.now }
{
    buckets.iter().any(|bucket| bucket.has_open(leads))
}

/// A place of a bucket has become a hole. Open entries stay where they are, in every bucket.
fn leave_hole(buckets: &mut Vec<Bucket>, bucket: usize, leads: &[Option<u64>])
    requires { bucket < length buckets.old.items }
    ensures as_many { length buckets.new.items ≡ length buckets.old.items }
    ensures same_open { (b : ℕ) → open_at leads.now buckets.new.items b ≡ open_at leads.now buckets.old.items b }
    ensures in_range { (b n : ℕ)
        → AreBelow n (bucket_at buckets.old.items b) → AreBelow n (bucket_at buckets.new.items b) }
{
    buckets[bucket].leave_hole(leads);
}
