//! How all open entries can be settled at once.

ghost use Rattle.claim_model.specs.Context.{Context};
ghost use Rattle.claim_model.specs.Settings.{WorldSettings};
ghost use Rattle.claim_model.specs.World.{World};
ghost use Rattle.claim_model.specs.Promises.{Reached};
ghost use Rattle.claim_recovery.specs.Help.{Timely};
ghost use Rattle.claim_recovery.specs.Everyone.{RoomForAll, AllRecovered, open_ids};

/// One list of accepted events, of ticks, starts and deliveries of packets that are sent on the way, settles every
/// open entry of every pharmacy, where each book has room and serials for those that it has not decided yet.
pub fn all_open_entries_recover()
    ensures { (ctx : Context) (settings : WorldSettings) (w : World) → Reached ctx settings w → Timely settings
        → RoomForAll ctx w (open_ids w) → AllRecovered ctx w }
{}
