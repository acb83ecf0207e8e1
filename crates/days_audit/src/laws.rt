//! What logs of days promise: no premise on the days before.

ghost use Rattle.std.specs.Prelude.{ℕ, List, Option};
ghost use Rattle.std.specs.Global.{Vec};
ghost use Rattle.bin_routes.specs.Table.{RouteMaps};
ghost use Rattle.claim_model.specs.Bytes.{bytes_with};
ghost use Rattle.claim_model.specs.Logs.{NodeLog};
ghost use Rattle.claim_model.specs.Promises.{AnswersAreDecided, AnswersAreWhole, CountedPaymentsStand, OneAnswer, OneStandingPayment, RequestsAreSubmitted, ReversedByOwner, StandingAreCounted};
ghost use Rattle.claim_model.specs.Settings.{Accepts};
ghost use Rattle.world_setup.specs.Seen.{settings_seen};
ghost use Rattle.world_setup.specs.declared.settings.WorldSettings.{WorldSettings};
ghost use Rattle.vouched_runs.specs.Agreeing.{Agree, AreKept};
ghost use Rattle.vouched_runs.specs.Days.{OneForEach};
ghost use Rattle.vouched_runs.specs.Parties.{Parties};
ghost use Rattle.days_audit.specs.Begun.{BeginWith, HasDays};
ghost use Rattle.days_audit.specs.Promised.{KeptByDays, KeptOverDays, reading_of};

use claim_model::bytes_keep_laws;
use payer_book::kept_rows_follow_rules;
use vouched_runs::{agreeing_states_keep_promises, vouched_states_agree};

/// Parties with which logs begin, one log each, say by themselves what nodes keep: each is as the settings open it, or was read
/// from a record.
pub fn begun_parties_are_kept()
    ensures { (routes : RouteMaps) (s : WorldSettings) (rests : List (Option (Vec ℕ))) (logs : List NodeLog)
        (p : Parties) → Accepts (bytes_with routes) (settings_seen s) → BeginWith s rests logs p → OneForEach p logs
        → AreKept (bytes_with routes) (settings_seen s) p }
{
    bytes_keep_laws();
    kept_rows_follow_rules();
}

/// Days keep all promises, where they begin and where they end; and they end with states that agree, so that the next days may
/// begin there. It is not asked how the states came about with which they begin.
pub fn days_keep_promises()
    ensures one_standing { KeptByDays OneStandingPayment }
    ensures counted { KeptByDays CountedPaymentsStand }
    ensures in_full { KeptByDays StandingAreCounted }
    ensures reversed { KeptByDays ReversedByOwner }
    ensures requests { KeptByDays RequestsAreSubmitted }
    ensures answers { KeptByDays AnswersAreDecided }
    ensures whole { KeptByDays AnswersAreWhole }
    ensures one_answer { KeptOverDays OneAnswer }
    ensures agree { (s : WorldSettings) (rests : List (Option (Vec ℕ))) (logs : List NodeLog) (calls : ℕ)
        (days : HasDays s rests logs calls) → Accepts (reading_of s) (settings_seen s)
        → Agree (reading_of s) days.are.after }
{
    bytes_keep_laws();
    kept_rows_follow_rules();
    agreeing_states_keep_promises();
    vouched_states_agree();
}
