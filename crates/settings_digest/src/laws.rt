//! What holds of all settings and of all logs, as facts that a caller cites by a call.

ghost use Rattle.std.specs.Prelude.{◌≡◌, ℕ, ◌≤◌, List, take, Option};
ghost use Rattle.kept_logs.specs.Stamps.{KeptLog};
ghost use Rattle.world_settings.specs.Document.{Document, living_in};
ghost use Rattle.kept_logs.specs.Logs.{kept_text};
ghost use Rattle.settings_digest.specs.Said.{said};
ghost use Rattle.settings_digest.specs.Fits.{FitsDocument};
ghost use Rattle.settings_digest.specs.Digests.{digest_in, turned_in, turned_under};

/// Settings that say the same text are the same in every field, and files that spell the same settings have the same digest.
pub fn said_tells_settings()
    ensures same { (d e : Document) → FitsDocument d → FitsDocument e → said d ≡ said e → d ≡ e }
    ensures digest { (file other : List ℕ) → living_in file ≡ living_in other → digest_in file ≡ digest_in other }
{}

/// A log is read under the digest that it was written under, and so are the first bytes of it, from the third on: whatever it
/// begins with.
pub fn logs_keep_their_digest()
    ensures text { (file : List ℕ) (rest : Option (List ℕ)) (bytes : List ℕ) (log : KeptLog)
        → turned_under file rest (kept_text (turned_under file rest bytes) log) ≡ turned_under file rest bytes }
    ensures cut { (file : List ℕ) (rest : Option (List ℕ)) (bytes : List ℕ) (log : KeptLog) (n : ℕ)
        → 3 ≤ n → turned_under file rest (take n (kept_text (turned_under file rest bytes) log))
        ≡ turned_under file rest bytes }
    ensures new { (file : List ℕ) (rest : Option (List ℕ)) (log : KeptLog)
        → turned_under file rest (kept_text (turned_in file rest) log) ≡ turned_in file rest }
{}
