//! Where requests and answers come from, whatever events come.

ghost use Rattle.std.specs.Prelude.{List};
ghost use Rattle.claim_model.specs.Context.{Context};
ghost use Rattle.claim_model.specs.Settings.{WorldSettings};
ghost use Rattle.claim_model.specs.World.{World, Event, run};
ghost use Rattle.claim_model.specs.Promises.{Always, Reached, RequestsAreSubmitted, AnswersAreDecided, AnswersAreWhole, OneAnswer, StaysDecided};

/// Each request for an id, in a packet, a switch's table or a payer's book, is the request of that
/// number in that pharmacy's journal.
pub fn requests_are_submitted()
    ensures { Always RequestsAreSubmitted }
{}

/// Each answer for an id, in a packet, a table, a journal or a book, is the answer of that id's row in
/// the book of the payer to which its request is routed, or the fixed rejection where it has no route.
pub fn answers_are_decided()
    ensures { Always AnswersAreDecided }
{}

/// An answer that a node holds has a ruling on each transaction of its request, at each place from 1 on.
pub fn answers_are_whole()
    ensures { Always AnswersAreWhole }
{}

/// No two nodes hold different answers to one numbered transaction, now or after any further events.
pub fn one_answer()
    ensures { (ctx : Context) (settings : WorldSettings) (w : World) (events : List Event) → Reached ctx settings w
        → OneAnswer ctx w (run ctx w events) }
{}

/// What a journal or a book had decided stays decided, whatever events come.
#[tactic(auto, using(crate::proofs::Stays::stays_decided))]
pub fn decisions_stay()
    ensures { (ctx : Context) (w : World) (events : List Event) → StaysDecided w (run ctx w events) }
{}
