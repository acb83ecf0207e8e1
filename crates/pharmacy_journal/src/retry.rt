//! When an open entry is sent again, and to which switch: one number on a circle for each entry.

ghost use Rattle.std.specs.Prelude.{◌≡◌, ◌<◌, ◌-◌, ◌%◌, ℕ, ◌==◌, Some};
ghost use Rattle.pharmacy_journal.specs.Retry.{rule_with, IsRule, phases_of, phase_at, turned, is_due, node_of};

use std::marker::Model;

/// A rule of retries (own) and one clock for the whole journal, which goes round with the ticks. An
/// entry is as far ahead of the clock as its lead says, so that a tick changes no entry.
#[derive(Drop)]
pub(crate) struct Retry {
    again: u64,
    tries: u64,
    nodes: u64,
    /// Phases at one switch.
    round: u64,
    /// All phases.
    circle: u64,
    clock: u64,
}

impl Model for Retry {
    ghost use Rattle.std.specs.Prelude.{◌≡◌, ◌<◌, ◌≤◌, ◌*◌, ◌^◌};
    ghost use Rattle.pharmacy_journal.specs.Retry.{Dial, rule_with, IsRule};

    ghost Value = { Dial };

    ghost view = { λ r. record { rule = rule_with r.again r.tries r.nodes; clock = r.clock } };

    ghost invariant = { λ r. (IsRule (rule_with r.again r.tries r.nodes)) × (r.round ≡ r.again * r.tries)
        × (r.circle ≡ r.again * r.tries * r.nodes) × (r.clock < r.circle) × (r.circle < 2 ^ 62) };
}

impl Retry {
    /// The clock at the circle's beginning.
    pub(crate) fn new(again: u32, tries: u32, nodes: u32) -> Retry
        requires { IsRule (rule_with again tries nodes) }
        ensures { result ≡ record { rule = rule_with again tries nodes; clock = 0 } }
    {
        let (again, tries, nodes) = (u64::from(again), u64::from(tries), u64::from(nodes));
        let round = again * tries;
        Retry {
            again,
            tries,
            nodes,
            round,
            circle: round * nodes,
            clock: 0,
        }
    }

    /// The lead with which an entry is in this phase now.
    #[tactic(auto, using(crate::proofs::Circle::ahead, crate::proofs::Circle::behind))]
    pub(crate) fn lead_to(&self, phase: u64) -> u64
        requires { phase < phases_of self.now.rule }
        ensures phase { phase_at self.now result ≡ phase }
        ensures on_circle { result < phases_of self.now.rule }
    {
        if self.clock <= phase {
            phase - self.clock
        } else {
            phase + (self.circle - self.clock)
        }
    }

    /// The phase that is one wait before the circle's beginning.
    pub(crate) fn last_round(&self) -> u64
        ensures value { result ≡ phases_of self.now.rule - self.now.rule.again }
        ensures on_circle { result < phases_of self.now.rule }
    {
        self.circle - self.again
    }

    /// The bucket of a lead.
    pub(crate) fn bucket_of(&self, lead: u64) -> usize
        ensures value { result ≡ lead % self.now.rule.again }
        ensures in_range { result < self.now.rule.again }
    {
        (lead % self.again) as usize
    }

    /// The bucket whose entries the next tick sends.
    #[tactic(auto, using(crate::proofs::Circle::next_remainder, crate::proofs::Circle::whole_round, crate::proofs::Circle::whole_round_from_start))]
    pub(crate) fn next_bucket(&self) -> usize
        ensures in_range { result < self.now.rule.again }
        ensures due { (lead : ℕ) → is_due self.now.rule (Some (phase_at (turned self.now) lead))
            ≡ ((lead % self.now.rule.again) == result) }
    {
        let past = (self.clock + 1) % self.again;
        if past == 0 {
            0
        } else {
            (self.again - past) as usize
        }
    }

    /// The switch, by its place in the list, at which an entry of this lead is after the next tick.
    pub(crate) fn next_node(&self, lead: u64) -> usize
        requires { lead < phases_of self.now.rule }
        ensures value { result ≡ node_of self.now.rule (phase_at (turned self.now) lead) }
        ensures in_range { result < self.now.rule.nodes }
    {
        let phase = self.next_phase(lead);
        (phase / self.round) as usize
    }

    /// The phase of an entry of this lead after the next tick: at most once round the circle from the next clock.
    #[tactic(auto, using(crate::proofs::Circle::goes_on, crate::proofs::Circle::comes_round))]
    fn next_phase(&self, lead: u64) -> u64
        requires { lead < phases_of self.now.rule }
        ensures value { result ≡ phase_at (turned self.now) lead }
        ensures on_circle { result < phases_of self.now.rule }
    {
        let ahead = self.clock + 1 + lead;
        if ahead < self.circle {
            ahead
        } else {
            ahead - self.circle
        }
    }

    /// One tick.
    pub(crate) fn tick(&mut self)
        ensures { self.new ≡ turned self.old }
    {
        self.clock = (self.clock + 1) % self.circle;
    }
}
