//! What holds of every log and its text, as facts that a caller cites by a call.

ghost use Rattle.std.specs.Prelude.{◌≡◌, ◌⊎◌, ℕ, ◌+◌, ◌<◌, ◌≤◌, ◌++◌, true, List, length, take, Some, Ok, Err};
ghost use Rattle.claim_model.specs.Nodes.{AnyNode};
ghost use Rattle.world_setup.specs.Seen.{settings_seen};
ghost use Rattle.world_setup.specs.declared.settings.WorldSettings.{WorldSettings};
ghost use Rattle.node_state.specs.Resting.{resumed};
ghost use Rattle.kept_logs.specs.declared.fault.LogFault.TheVariants.{Short};
ghost use Rattle.kept_logs.specs.Stamps.{KeptLog, Stamped, stamped_text, with_record};
ghost use Rattle.kept_logs.specs.Digests.{version_of};
ghost use Rattle.kept_logs.specs.Frames.{frame_text, frame_at, is_zeros, CutOff};
ghost use Rattle.kept_logs.specs.Logs.{KeptReading, Reading, kept_text, kept_in, log_in, KeptAs};
ghost use Rattle.kept_logs.specs.Fits.{FitsKept};
ghost use Rattle.kept_logs.specs.Cuts.{EachIsByte, ReadsBack, Begins, IsLogOf, IsOfLog};
ghost use Rattle.kept_logs.specs.Rests.{FitsRest, Rest, begins, calls_before, references_before, rest_in, rest_text};

/// The first n bytes of a log's text are read as the calls whose records stand whole in them, for every n; a log has
/// no text of fewer bytes than its head has.
pub fn log_reads_back()
    ensures cut { (digest : List ℕ) (log : KeptLog) (n : ℕ)
        → length digest ≡ 33 → FitsKept log → 46 ≤ n → ReadsBack digest n log }
    ensures short { (digest : List ℕ) (log : KeptLog) (n : ℕ)
        → length digest ≡ 33 → n < 46 → kept_in digest (take n (kept_text digest log)) ≡ Err Short }
    ensures whole { (digest : List ℕ) (log : KeptLog)
        → length digest ≡ 33 → FitsKept log → KeptAs digest (kept_text digest log) log }
{}

/// The text of a log with one record more is its text, and after it that record under the next number.
pub fn log_takes_one_more()
    ensures { (digest : List ℕ) (log : KeptLog) (r : Stamped)
        → kept_text digest (with_record log r)
        ≡ kept_text digest log ++ frame_text (version_of digest) (length log.calls + 1) (stamped_text r) }
{}

/// Bytes that are read as a log are its text, and after it nothing, or the beginning of a record that is cut off, or zeros,
/// as some file systems leave them in the place of bytes that a crash has lost.
pub fn log_is_its_text()
    ensures text { (digest bytes : List ℕ) (read : KeptReading)
        → length digest ≡ 33 → EachIsByte bytes → kept_in digest bytes ≡ Ok read → IsLogOf digest bytes read }
    ensures calls { (digest bytes : List ℕ) (read : Reading)
        → length digest ≡ 33 → EachIsByte bytes → log_in digest bytes ≡ Ok read → IsOfLog digest bytes read }
    ensures cut { (version number : ℕ) (bytes : List ℕ) → EachIsByte bytes
        → frame_at version number bytes ≡ CutOff → Begins version number bytes ⊎ (is_zeros bytes ≡ true) }
{}

/// The text of what a log begins with is read as that; so a log which goes on after closed ones begins with the node that its
/// record starts, and with their calls and references before it.
pub fn rests_read_back()
    ensures reads { (r : Rest) → FitsRest r → rest_in (rest_text r) ≡ Some r }
    ensures begins { (s : WorldSettings) (r : Rest) (state : AnyNode)
        → FitsRest r → resumed (settings_seen s) r.node r.kept ≡ Some state
        → begins s r.node (Some (rest_text r)) ≡ Some state }
    ensures calls { (r : Rest) → FitsRest r → calls_before (Some (rest_text r)) ≡ r.calls }
    ensures references { (r : Rest) → FitsRest r → references_before (Some (rest_text r)) ≡ r.references }
{}
