//! What holds of lists of events and of reached worlds.

ghost use Rattle.std.specs.Prelude.{◌≡◌, ◌++◌, List};
ghost use Rattle.claim_model.specs.Context.{Context};
ghost use Rattle.claim_model.specs.World.{World, Event, run};
ghost use Rattle.claim_model.specs.Promises.{Always};
ghost use Rattle.world_core.specs.Headline.{PaidIsKept, FillIsPaidOnce};

use claim_model::{counted_payments_stand, one_standing_payment};

/// A list of events and then another lead where both as one list lead.
pub fn runs_add_up()
    ensures { (ctx : Context) (w : World) (events more : List Event)
        → run ctx w (events ++ more) ≡ run ctx (run ctx w events) more }
{}

/// The payments that a pharmacy counts are kept.
pub(crate) fn paid_is_kept()
    ensures { Always PaidIsKept }
{
    counted_payments_stand();
}

/// No fill is paid twice.
pub(crate) fn fill_is_paid_once()
    ensures { Always FillIsPaidOnce }
{
    one_standing_payment();
}
