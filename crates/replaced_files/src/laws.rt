//! What holds of files at every moment while they are replaced, as a fact that a caller cites by a call.

ghost use Rattle.std.specs.Prelude.{◌≡◌, List, ℕ};
ghost use Rattle.replaced_files.specs.declared.replacing.Fate.{Fate};
ghost use Rattle.replaced_files.specs.Steps.{IsFollowed};
ghost use Rattle.replaced_files.specs.Deeds.{Deed};
ghost use Rattle.replaced_files.specs.Deaths.{IsOldOr, left, new_bytes, untouched};
ghost use Rattle.replaced_files.specs.Plans.{replacing_plan};

/// Who dies while files are replaced, at any moment: under each name stand the bytes that stood there before, or the new ones of this
/// file, whole.
pub fn replacing_leaves_a_file()
    ensures { (fates : List Fate) (place : ℕ) (before now : List Deed) → left place before ≡ untouched
        → IsFollowed (replacing_plan fates) before now → IsOldOr (new_bytes place fates) (left place now) }
{}
