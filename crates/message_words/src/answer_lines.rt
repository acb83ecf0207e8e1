//! What is found of an answer, as it is written.

ghost use Rattle.std.specs.Prelude.{◌≡◌, ◌+◌, [], ◌∷◌, codes};
ghost use Rattle.claim_profile.specs.Ruling.{answer_of};
ghost use Rattle.claim_profile.specs.declared.answer_reading.AnswerFault.TheVariants as faults;
ghost use Rattle.message_words.specs.AnswerWords.{answer_fault_said, answer_said, answer_told, read_said, rulings_said};
ghost use Rattle.message_words.specs.FaultWords.{told_seen};
ghost use Rattle.message_words.specs.Sayings.{Finds};

use crate::facts::Fact;
use crate::fault_lines::Told;
use crate::finding_page::FindingPage;
use crate::sentences::NO_ANSWER;
use claim_profile::{AnswerFault, Ruling, read_answer};
use d0_segments::check_response;
use std::alloc::Global;

impl FindingPage {
    /// Writes what is found of an answer that stands at a place of the message.
    #[tactic(auto, unfolding(crate::specs::AnswerWords::answer_said))]
    pub(crate) fn answer(&mut self, alloc: Global, bytes: &[u8], place: usize)
        ensures { Finds (answer_said place bytes.now) self.old self.new }
    {
        match check_response(bytes) {
            Ok(_) => self.framed_answer(alloc, bytes),
            Err(fault) => self.framing_fault(fault, bytes, place),
        }
    }

    /// Writes the rulings of a framed response, or why it reads as no answer.
    fn framed_answer(&mut self, alloc: Global, bytes: &[u8])
        ensures { Finds (read_said (answer_of bytes.now)) self.old self.new }
    {
        match read_answer(alloc, bytes) {
            Ok(answer) => self.rulings(answer.rulings()),
            Err(AnswerFault::OutOfMemory) => self.refuse(),
            Err(fault) => self.answer_fault(answer_told(fault)),
        }
    }

    /// Writes rulings.
    fn rulings(&mut self, rulings: &[Ruling])
        ensures { Finds (rulings_said 1 rulings.now) self.old self.new }
    {
        let mut transaction = 1u64;
        for ruling in rulings {
            self.ruling(transaction, ruling);
            transaction += 1;
        }
    }

    /// Writes why a framed response reads as no answer.
    fn answer_fault(&mut self, told: Told)
        ensures { Finds (answer_fault_said (told_seen told) ∷ []) self.old self.new }
    {
        self.tell(
            NO_ANSWER,
            &[
                Fact::Words(told.name.as_bytes()),
                Fact::Words(told.words.as_bytes()),
            ],
        );
    }
}

/// A fault of an answer.
fn answer_told(fault: AnswerFault) -> Told
    ensures { told_seen result ≡ answer_told fault }
{
    match fault {
        AnswerFault::OutOfMemory => Told::of("OutOfMemory", "out of memory"),
        AnswerFault::Framing => Told::of("Framing", "it is not framed as a response"),
        AnswerFault::NoStatus => Told::of(
            "NoStatus",
            "a transaction has not exactly one response status (112-AN)",
        ),
        AnswerFault::BadStatus => Told::of(
            "BadStatus",
            "a response status (112-AN) is not P, D, A or R, or contradicts the header",
        ),
        AnswerFault::BadAmount => Told::of(
            "BadAmount",
            "the amounts of a transaction are missing, no amounts or negative",
        ),
        AnswerFault::BadAuthorization => Told::of(
            "BadAuthorization",
            "an authorization number (503-F3) is missing or none",
        ),
        AnswerFault::BadRejects => Told::of(
            "BadRejects",
            "the reject codes are missing, no codes or not as many as their count (510-FA)",
        ),
        AnswerFault::BadClaim => Told::of(
            "BadClaim",
            "a prescription number (402-D2) or its qualifier (455-EM) is missing or none",
        ),
    }
}
