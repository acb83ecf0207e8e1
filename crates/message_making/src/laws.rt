//! What holds of every message that was made, as facts that a caller cites by a call.

ghost use Rattle.std.specs.Prelude.{◌≡◌, None};
ghost use Rattle.message_making.specs.declared.fields.PlainBilling.{PlainBilling};
ghost use Rattle.message_making.specs.declared.fields.PlainReversal.{PlainReversal};
ghost use Rattle.message_making.specs.Judged.{wrong_in_billing, wrong_in_reversal};
ghost use Rattle.message_making.specs.PlainFields.{billing_said, reversal_said};
ghost use Rattle.message_making.specs.ReadBack.{IsReadBilling, IsReadReversal};

use claim_profile::{billing_laws, reversal_laws};

/// A message that was made is readable, and is the order that its fields say.
pub fn made_messages_read_back()
    ensures billing { (b : PlainBilling) → wrong_in_billing b ≡ None → IsReadBilling (billing_said b) }
    ensures reversal { (r : PlainReversal) → wrong_in_reversal r ≡ None → IsReadReversal (reversal_said r) }
{
    billing_laws();
    reversal_laws();
}
