//! What is true of every written answer, for the proofs of the crates above.

ghost use Rattle.std.specs.Prelude.{◌≡◌, ◌≤◌, ℕ, List, length, Some, Ok};
ghost use Rattle.d0_header.specs.Request.{Request, IsRequest};
ghost use Rattle.claim_profile.specs.declared.ruling.Ruling.{Ruling};
ghost use Rattle.claim_profile.specs.declared.ruling.HeaderStatus.{HeaderStatus};
ghost use Rattle.claim_profile.specs.declared.ruling.HeaderStatus.TheVariants.{Rejected as RejectedStatus};
ghost use Rattle.claim_profile.specs.Answer.{answer_text};
ghost use Rattle.claim_profile.specs.Ruling.{AnswerParts, answer_of, advice_of};
ghost use Rattle.claim_profile.specs.Unnamed.{unnamed_parts};
ghost use Rattle.claim_profile.specs.Readable.{readable_header, longest_request};
ghost use Rattle.claim_profile.specs.Answering.{Answers, answered, unrouted, unrouted_text, IsCarried};

use d0_header::{request_text_laws, response_text_laws};
use d0_segments::response_laws;
use overpunch::{amount_reads_back, number_reads_back};

/// An answer to a request of a sound header, with one ruling for each transaction that it counts, fits into
/// an envelope and is read as its own header and exactly these rulings.
#[tactic(auto, using(crate::proofs::WrittenAnswers::answer_short, crate::proofs::WrittenAnswers::answer_reads))]
pub fn answer_laws()
    ensures short { (h : Request) (status : HeaderStatus) (rulings : List Ruling) → Answers h status rulings
        → length (answer_text h status rulings) ≤ longest_request }
    ensures reads_back { (h : Request) (status : HeaderStatus) (rulings : List Ruling) → Answers h status rulings
        → answer_of (answer_text h status rulings) ≡ Ok (answered h status rulings) }
{
    response_text_laws();
    response_laws();
    number_reads_back();
    amount_reads_back();
}

/// What is read of a book's answer is read of it as an advice too, but for its authorization numbers.
#[tactic(auto, using(crate::proofs::Unnamed::parts_same))]
pub fn advice_laws()
    ensures { (bytes : List ℕ) (a : AnswerParts) → answer_of bytes ≡ Ok a → advice_of bytes ≡ Ok (unnamed_parts a) }
{}

/// The fixed rejection of a request that is routed nowhere, code 01 for each transaction, is such an answer.
#[tactic(auto, using(crate::proofs::CarriedHeaders::unrouted_answers))]
pub fn unrouted_laws()
    ensures short { (h : Request) → IsRequest h → length (unrouted_text h) ≤ longest_request }
    ensures reads_back { (h : Request) → IsRequest h → answer_of (unrouted_text h)
        ≡ Ok (answered h RejectedStatus (unrouted h)) }
{
    answer_laws();
}

/// The header of a readable request is sound, of version D0, and that of a billing or a reversal.
pub fn readable_laws()
    ensures { (text : List ℕ) (h : Request) → readable_header text ≡ Some h → IsCarried h }
{
    request_text_laws();
}
