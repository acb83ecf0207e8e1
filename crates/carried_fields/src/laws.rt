//! What is true of every answer that carries, for the proofs of the crates above.

ghost use Rattle.std.specs.Prelude.{◌≡◌, ◌≤◌, ℕ, List, [], length, Some, Ok};
ghost use Rattle.d0_header.specs.Request.{Request};
ghost use Rattle.d0_header.specs.Response.{Response};
ghost use Rattle.d0_segments.specs.Parts.{TransmissionParts};
ghost use Rattle.d0_segments.specs.Framing.{response_kind, transmission_of};
ghost use Rattle.claim_profile.specs.declared.ruling.Ruling.{Ruling};
ghost use Rattle.claim_profile.specs.declared.ruling.HeaderStatus.{HeaderStatus};
ghost use Rattle.claim_profile.specs.Answer.{answer_text};
ghost use Rattle.claim_profile.specs.Ruling.{AnswerParts, answer_of, advice_of};
ghost use Rattle.claim_profile.specs.Readable.{longest_request};
ghost use Rattle.claim_profile.specs.Answering.{Answers, answered};
ghost use Rattle.carried_fields.specs.Carrying.{carried_text, carrying_text, kept_text};

use claim_profile::{advice_laws, answer_laws};
use d0_header::response_text_laws;
use d0_segments::response_laws;

/// An answer that carries what an advice says fits into an envelope and is read as the book's own header and rulings,
/// whatever the advice is. Without an advice it is the plain answer, and an answer that carries an answer that carries
/// is that answer.
pub fn carrying_laws()
    // What is carried, where the bytes are an advice that has a group for each ruling, and the answer is not too long.
    ensures carried { (h : Request) (status : HeaderStatus) (rulings : List Ruling) (said : List ℕ)
        (t : TransmissionParts Response) (advice : AnswerParts) → Answers h status rulings
        → transmission_of response_kind said ≡ Some t → advice_of said ≡ Ok advice → length t.groups ≡ length rulings
        → length (carried_text h status rulings t advice.rulings) ≤ longest_request
        → carrying_text h status rulings said ≡ carried_text h status rulings t advice.rulings }
    ensures short { (h : Request) (status : HeaderStatus) (rulings : List Ruling) (said : List ℕ) → Answers h status rulings
        → length (carrying_text h status rulings said) ≤ longest_request }
    ensures reads_back { (h : Request) (status : HeaderStatus) (rulings : List Ruling) (said : List ℕ)
        → Answers h status rulings → answer_of (carrying_text h status rulings said) ≡ Ok (answered h status rulings) }
    ensures plain { (h : Request) (status : HeaderStatus) (rulings : List Ruling)
        → carrying_text h status rulings [] ≡ answer_text h status rulings }
    ensures again { (h : Request) (status : HeaderStatus) (rulings : List Ruling) (said : List ℕ) → Answers h status rulings
        → carrying_text h status rulings (carrying_text h status rulings said) ≡ carrying_text h status rulings said }
    ensures kept { (h : Request) (status : HeaderStatus) (rulings : List Ruling) (said : List ℕ) → Answers h status rulings
        → carrying_text h status rulings (kept_text h status rulings said) ≡ carrying_text h status rulings said }
{
    response_text_laws();
    response_laws();
    answer_laws();
    advice_laws();
}
