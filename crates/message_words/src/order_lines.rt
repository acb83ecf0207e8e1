//! What a transaction asks for, as it is told.

ghost use Rattle.std.specs.Prelude.{[], ◌∷◌};
ghost use Rattle.message_words.specs.RequestWords.{asked, billing, reversed_order};
ghost use Rattle.message_words.specs.Sayings.{Finds};

use crate::facts::Fact;
use crate::finding_page::FindingPage;
use crate::sentences::{BILLING, REVERSAL, REVERSAL_OF_ONE};
use claim_profile::{Claim, Order, Reversal};

impl FindingPage {
    /// Writes an order.
    pub(crate) fn order(&mut self, transaction: u64, order: &Order)
        ensures { Finds (asked transaction order.now ∷ []) self.old self.new }
    {
        match order {
            Order::Claim(claim) => self.billing(transaction, claim),
            Order::Reversal(reversal) => self.reversal(transaction, reversal),
        }
    }

    /// Writes a billing.
    fn billing(&mut self, transaction: u64, claim: &Claim)
        ensures { Finds (billing transaction claim.now ∷ []) self.old self.new }
    {
        self.tell(
            BILLING,
            &[
                Fact::Number(transaction),
                Fact::Number(u64::from(claim.fill.fill)),
                Fact::Number(claim.fill.prescription),
                Fact::Printed(claim.cardholder.as_slice()),
                Fact::Units(claim.quantity),
                Fact::Printed(claim.product.as_slice()),
                Fact::Dollars(claim.cost),
                Fact::Dollars(claim.fee),
            ],
        );
    }

    /// Writes a reversal.
    fn reversal(&mut self, transaction: u64, reversal: &Reversal)
        ensures { Finds (reversed_order transaction reversal.now ∷ []) self.old self.new }
    {
        let (number, prescription) = (
            Fact::Number(transaction),
            Fact::Number(reversal.prescription),
        );
        match reversal.fill {
            Some(fill) => self.tell(
                REVERSAL,
                &[number, prescription, Fact::Number(u64::from(fill))],
            ),
            None => self.tell(REVERSAL_OF_ONE, &[number, prescription]),
        }
    }
}
