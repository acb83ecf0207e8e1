//! What holds of every world, since events led to it from the opening of settings that a world takes.

ghost use Rattle.std.specs.Prelude.{◌≡◌, ℕ, List, Some};
ghost use Rattle.claim_model.specs.Words.{TxnId};
ghost use Rattle.claim_model.specs.Journal.{JournalAtRest};
ghost use Rattle.claim_model.specs.Held.{journal_at};
ghost use Rattle.claim_model.specs.World.{Event, run};
ghost use Rattle.claim_model.specs.Promises.{RequestsAreSubmitted, AnswersAreDecided, AnswersAreWhole, OneAnswer, OneStandingPayment, ReversedByOwner, CountedPaymentsStand, StandingAreCounted, StaysDecided, DeliveriesMeet, AdjudicationsMeet};
ghost use Rattle.claim_recovery.specs.Recovered.{IsOpen, Answerable, RecoveredAlone};
ghost use Rattle.world_core.specs.Parts.{context_of};
ghost use Rattle.world_core.specs.Headline.{PaidIsKept, FillIsPaidOnce};

use crate::laws::{fill_is_paid_once, paid_is_kept};
use crate::world::World;
use claim_model::{
    answers_are_decided, answers_are_whole, counted_payments_stand, decisions_stay,
    deliveries_meet_few_refusals, one_answer, one_standing_payment, requests_are_submitted,
    reversed_by_owner, standing_payments_are_counted,
};
use claim_recovery::nobody_else_is_touched;

impl World {
    /// Whatever two nodes hold for one number is the same, now and after any further events: no two different
    /// answers to one numbered transaction.
    pub fn one_answer(&self)
        ensures { (events : List Event)
            → OneAnswer (context_of self.now) self.now.world (run (context_of self.now) self.now.world events) }
    {
        let _ = &self.parts;
        one_answer();
    }

    /// No fill has two payments that nobody reversed, over the books of all payers.
    pub fn one_standing_payment(&self)
        ensures standing { OneStandingPayment (context_of self.now) self.now.world }
        // What `payment` gives of any two payers for any two authorizations: two payments of one fill that nobody
        // reversed are one payment of one payer.
        ensures payment { FillIsPaidOnce (context_of self.now) self.now.world }
    {
        let _ = &self.parts;
        one_standing_payment();
        fill_is_paid_once();
    }

    /// Each payment that a pharmacy counts stands at its payer with the same fill and amounts, or was reversed there
    /// by a reversal that this pharmacy asked for and still holds open, as it does each number whose ruling reverses
    /// that payment.
    pub fn counted_payments_stand(&self)
        ensures counted { CountedPaymentsStand (context_of self.now) self.now.world }
        // What `paid` gives of a pharmacy, `payment` gives of the payer that the authorization names.
        ensures paid { PaidIsKept (context_of self.now) self.now.world }
    {
        let _ = &self.parts;
        counted_payments_stand();
        paid_is_kept();
    }

    /// Each payment that an answer in a pharmacy's journal names, and that stands in the book of its payer, is one
    /// that the pharmacy counts.
    pub fn standing_payments_are_counted(&self)
        ensures { StandingAreCounted (context_of self.now) self.now.world }
    {
        let _ = &self.parts;
        standing_payments_are_counted();
    }

    /// Each request for a number, in a packet, a table or a book, is what the number's pharmacy submitted under it.
    pub fn requests_are_submitted(&self)
        ensures { RequestsAreSubmitted (context_of self.now) self.now.world }
    {
        let _ = &self.parts;
        requests_are_submitted();
    }

    /// Each answer to a number, in a packet, a table or a journal, is that of the number's row in the book of the
    /// payer to which its request is routed, or the fixed rejection where there is no route.
    pub fn answers_are_decided(&self)
        ensures { AnswersAreDecided (context_of self.now) self.now.world }
    {
        let _ = &self.parts;
        answers_are_decided();
    }

    /// Each answer that a node holds to a number has a ruling on each transaction of its request.
    pub fn answers_are_whole(&self)
        ensures { AnswersAreWhole (context_of self.now) self.now.world }
    {
        let _ = &self.parts;
        answers_are_whole();
    }

    /// Each reversal that was made came from the pharmacy whose provider identity the payment has.
    pub fn reversed_by_owner(&self)
        ensures { ReversedByOwner (context_of self.now) self.now.world }
    {
        let _ = &self.parts;
        reversed_by_owner();
    }

    /// A delivery is refused only because there is no such packet, the node is down, the switch does not wait for
    /// the answer, the pharmacy has it already, the book or its serial numbers are used up, or the payer asks and has
    /// no advice. So is an adjudication of a packet for a payer that asks.
    pub fn deliveries_meet_few_refusals(&self)
        ensures deliveries { DeliveriesMeet (context_of self.now) self.now.world }
        ensures adjudications { AdjudicationsMeet (context_of self.now) self.now.world }
    {
        let _ = &self.parts;
        deliveries_meet_few_refusals();
    }

    /// What journals and books had decided stays decided, whatever events come.
    pub fn decisions_stay(&self)
        ensures { (events : List Event)
            → StaysDecided self.now.world (run (context_of self.now) self.now.world events) }
    {
        decisions_stay();
    }

    /// Every open entry can still be answered: where its request has no route, or the book of its payer would answer
    /// it, some accepted events settle it, at most one wait of ticks of its own pharmacy, three starts, and four
    /// deliveries of packets that are sent on the way. After them the pharmacy holds the answer, and every other
    /// pharmacy, entry and book is as it was, but for the one row that the payer's book may have got.
    pub fn open_entries_recover(&self)
        ensures { (id : TxnId) (request : List ℕ) (journal : JournalAtRest)
            → journal_at self.now.world id.pharmacy ≡ Some journal → IsOpen self.now.world id request
            → Answerable (context_of self.now) self.now.world id request
            → RecoveredAlone (context_of self.now) self.now.world journal id request }
    {
        let _ = &self.parts;
        nobody_else_is_touched();
    }
}
