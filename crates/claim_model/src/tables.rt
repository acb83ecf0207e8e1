//! What the tables of switches keep, whatever events come.

ghost use Rattle.std.specs.Prelude.{List};
ghost use Rattle.claim_model.specs.Context.{Context};
ghost use Rattle.claim_model.specs.Settings.{WorldSettings, opening};
ghost use Rattle.claim_model.specs.World.{Event, run};
ghost use Rattle.claim_model.specs.InFlight.{TablesInFlight};

/// Whatever events come, the in-flight table of a switch that is up has no id twice, and at most as many
/// entries as its cap says, where that is one at least: the cap of its settings, or that of an event.
pub fn tables_keep_their_cap()
    ensures { (ctx : Context) (settings : WorldSettings) (events : List Event)
        → TablesInFlight settings events (run ctx (opening settings) events) }
{}
