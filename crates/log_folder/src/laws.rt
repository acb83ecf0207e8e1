//! What holds of a log at every moment while it is closed, as a fact that a caller cites by a call.

ghost use Rattle.std.specs.Prelude.{List, ℕ, ◌∷◌};
ghost use Rattle.log_turning.specs.declared.turning.Turned.{Turned};
ghost use Rattle.log_folder.specs.Deeds.{Deed, Found, IsFollowed};
ghost use Rattle.log_folder.specs.Deaths.{IsOneOrTheOther, left};
ghost use Rattle.log_folder.specs.Plans.{closing_plan};

/// Who dies while a log is closed, at any moment, and whatever the disk forgets of what was not synced: under the log's name stands
/// the log, as it was or closed, or a beginning of that; or the new one, whole, and then the closed one has a name of its own, and
/// all its bytes, on disk.
pub fn closing_leaves_a_log()
    ensures { (bytes : List ℕ) (turned : Turned) (before now : List Deed)
        → IsFollowed (closing_plan bytes turned) (Found bytes ∷ before) now
        → IsOneOrTheOther bytes turned (left now) }
{}
