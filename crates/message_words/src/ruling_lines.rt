//! Rulings, as they are told.

ghost use Rattle.std.specs.Prelude.{[], ◌∷◌};
ghost use Rattle.message_words.specs.AnswerWords.{payment, reversed, ruling_said};
ghost use Rattle.message_words.specs.Facts.{given_row};
ghost use Rattle.message_words.specs.Sayings.{Finds};

use crate::facts::Fact;
use crate::finding_page::FindingPage;
use crate::sentences::{DUPLICATE, PAID, REJECTION, REVERSED, Sentence};
use claim_profile::{Amounts, Auth, Ruling};

impl FindingPage {
    /// Writes a ruling.
    pub(crate) fn ruling(&mut self, transaction: u64, ruling: &Ruling)
        ensures { Finds (ruling_said transaction ruling.now ∷ []) self.old self.new }
    {
        match ruling {
            Ruling::Paid {
                auth,
                prescription,
                amounts,
            } => self.payment(PAID, transaction, *auth, *prescription, *amounts),
            Ruling::Duplicate {
                auth,
                prescription,
                amounts,
            } => self.payment(DUPLICATE, transaction, *auth, *prescription, *amounts),
            Ruling::Reversed { auth, prescription } => {
                self.reversed(transaction, *auth, *prescription);
            }
            Ruling::Rejected { rejects } => self.tell(
                REJECTION,
                &[Fact::Number(transaction), Fact::Codes(rejects.as_slice())],
            ),
        }
    }

    /// Writes a payment, or one that was made before.
    fn payment(
        &mut self,
        sentence: Sentence,
        transaction: u64,
        auth: Auth,
        prescription: u64,
        amounts: Amounts,
    )
        ensures { Finds (payment (given_row sentence.entry) transaction auth prescription amounts ∷ [])
            self.old self.new }
    {
        let digits = auth.digits();
        self.tell(
            sentence,
            &[
                Fact::Number(transaction),
                Fact::Printed(&digits),
                Fact::Number(prescription),
                Fact::Dollars(amounts.cost()),
                Fact::Dollars(amounts.fee()),
                Fact::Dollars(amounts.copay()),
                Fact::Dollars(amounts.total()),
            ],
        );
    }

    /// Writes a reversal.
    fn reversed(&mut self, transaction: u64, auth: Auth, prescription: u64)
        ensures { Finds (reversed transaction auth prescription ∷ []) self.old self.new }
    {
        let digits = auth.digits();
        self.tell(
            REVERSED,
            &[
                Fact::Number(transaction),
                Fact::Printed(&digits),
                Fact::Number(prescription),
            ],
        );
    }
}
