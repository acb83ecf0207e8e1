//! What is left alone once all is settled.

ghost use Rattle.std.specs.Prelude.{ℕ};
ghost use Rattle.claim_model.specs.Context.{Context};
ghost use Rattle.claim_model.specs.World.{World};
ghost use Rattle.claim_recovery.specs.Quiet.{TicksInVain, StaysSettled};

/// Where every entry of a pharmacy has its answer, a tick sends nothing and changes nothing, and no event but
/// a submission, a stop or a start of this pharmacy changes it.
pub fn settled_pharmacies_are_quiet()
    ensures ticks { (ctx : Context) (w : World) (n : ℕ) → TicksInVain ctx w n }
    ensures events { (ctx : Context) (w : World) (n : ℕ) → StaysSettled ctx w n }
{}
