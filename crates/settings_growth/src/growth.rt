//! Growth upon growth.

ghost use Rattle.claim_model.specs.Context.{Context};
ghost use Rattle.claim_model.specs.Settings.{WorldSettings};
ghost use Rattle.settings_growth.specs.Growth.{Grows};

/// Settings that are the same have grown; and what has grown twice has grown. So a log that was left behind goes over at once.
pub fn growth_goes_on()
    ensures same { (ctx : Context) (s : WorldSettings) → Grows ctx ctx s s }
    ensures twice { (ctx wider widest : Context) (s t u : WorldSettings)
        → Grows ctx wider s t → Grows wider widest t u → Grows ctx widest s u }
{}
