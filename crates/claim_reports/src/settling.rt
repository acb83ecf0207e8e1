//! What a payer sends a pharmacy for a period.

ghost use Rattle.std.specs.Prelude.{◌≡◌, ◌+◌, min, IfOk};
ghost use Rattle.claim_reports.specs.Causes.{RefusesFor};
ghost use Rattle.claim_reports.specs.Ledger.{over};

use crate::fault::ReportFault;
use crate::ledger::Moved;

/// What is sent for a period, and what is carried into the next, in cents.
#[derive(Clone, Copy)]
pub struct Settled {
    /// What the payer sends.
    pub check: u64,
    /// What the pharmacy owes where more was reversed than paid: it is taken off the next.
    pub owed: u64,
}

/// What is sent for what was moved, where this many cents were owed before.
///
/// # Errors
/// `TooLarge` where a sum has more than 64 bits.
pub fn settle(moved: Moved, owed: u64) -> Result<Settled, ReportFault>
    // Nothing is lost between what was moved, what is sent and what is owed.
    ensures whole { IfOk result (λ settled. settled.check + (moved.reversed + owed) ≡ moved.paid + settled.owed) }
    // Nothing is sent while something is owed.
    ensures one { IfOk result (λ settled. min settled.check settled.owed ≡ 0) }
    // It is refused where what was reversed and what was owed come to more than 64 bits, and for nothing else.
    ensures refuses { RefusesFor result (over (moved.reversed + owed)) }
{
    let Some(back) = moved.reversed.checked_add(owed) else {
        return Err(ReportFault::TooLarge);
    };
    if moved.paid < back {
        Ok(Settled {
            check: 0,
            owed: back - moved.paid,
        })
    } else {
        Ok(Settled {
            check: moved.paid - back,
            owed: 0,
        })
    }
}
