//! What holds of every node that is served, as facts that a caller cites by a call.

ghost use Rattle.std.specs.Prelude.{◌≡◌, ℕ, ◌<◌, ◌≤◌, ◌^◌, ◌++◌, true, not, List, length, take, Option, Ok};
ghost use Rattle.std.specs.List.{All, AllByRecursion, list_all};
ghost use Rattle.input_text.specs.Printing.{unprinted};
ghost use Rattle.input_text.specs.Words.{is_space};
ghost use Rattle.claim_model.specs.Node.{Node};
ghost use Rattle.world_settings.specs.Document.{document_seen};
ghost use Rattle.crash_safety.specs.Network.{Process, file};
ghost use Rattle.kept_logs.specs.Stamps.{KeptLog, bare};
ghost use Rattle.kept_logs.specs.Logs.{kept_text};
ghost use Rattle.kept_logs.specs.Cuts.{first_calls};
ghost use Rattle.kept_logs.specs.Fits.{FitsKept, FitsStamped};
ghost use Rattle.settings_digest.specs.Digests.{turned_under};
ghost use Rattle.node_service.specs.Opened.{IsOpened};
ghost use Rattle.node_service.specs.Payments.{word_of};
ghost use Rattle.node_service.specs.Serving.{Serving, after_line, cleared};
ghost use Rattle.node_service.specs.Lines.{IsRestart, IsSame, IsServing, after_lines, joined, lines_kept, with_records};

/// What a line adds hangs neither on the records that are to be appended nor on the words that are to be written.
#[tactic(auto, using(crate::proofs::Lines::adds, crate::proofs::Lines::adds_all))]
pub fn lines_add()
    ensures one { (s : Serving) (line : List ℕ) → after_line s line ≡ joined s (after_line (cleared s) line) }
    ensures all { (s : Serving) (lines : List (List ℕ)) → after_lines s lines ≡ joined s (after_lines (cleared s) lines) }
{}

/// A node that was opened makes the log of its file, and goes on to: each line adds its calls to the log, and their records
/// to what is to be appended.
#[tactic(auto, using(crate::proofs::Lines::is_opened_serving, crate::proofs::Lines::cleared_serves))]
pub fn served_logs_grow()
    ensures opened { (settings : List ℕ) (node : Node) (rest : Option (List ℕ)) (bytes : List ℕ) (kept : ℕ) (s : Serving)
        → IsOpened settings node rest bytes kept s
        → (log : KeptLog) × IsServing rest (turned_under settings rest bytes) (take kept bytes) log s }
    ensures lines { (rest : Option (List ℕ)) (digest bytes : List ℕ) (log : KeptLog) (s : Serving) (lines : List (List ℕ))
        → IsServing rest digest bytes log s → AllByRecursion FitsStamped (lines_kept s lines)
        → IsServing rest digest bytes (with_records log (lines_kept s lines)) (after_lines s lines) }
    ensures cleared { (rest : Option (List ℕ)) (digest bytes : List ℕ) (log : KeptLog) (s : Serving)
        → IsServing rest digest bytes log s → IsServing rest digest (bytes ++ s.records) log (cleared s) }
{}

/// A node that was served, and whose file has all its records, is opened again as it was, under the same settings and with the
/// same rest: nothing of the file is cut, nothing is to be appended.
pub fn restarts_are_the_same()
    ensures { (settings file : List ℕ) (rest : Option (List ℕ)) (bytes : List ℕ) (log : KeptLog) (s t : Serving) (kept : ℕ)
        → IsServing rest (turned_under settings rest file) bytes log s → document_seen t.settings ≡ document_seen s.settings
        → IsOpened settings log.node rest (bytes ++ s.records) kept t
        → (kept ≡ length (bytes ++ s.records)) × IsSame s t }
{}

/// A crash leaves of a log's file a beginning that has the text of its synced calls, whatever was noted of them; after it a
/// record may be cut off. Such a file is read as the log of the process after that crash, and opens as the process that is
/// restarted: what the theorems on crashes say of processes is true of files.
#[tactic(auto, using(crate::proofs::Crashes::crashed_restarts))]
pub fn crashed_files_restart()
    ensures { (settings begun : List ℕ) (node : Node) (rest : Option (List ℕ)) (p : Process) (kept : KeptLog) (n : ℕ)
        → bare kept ≡ record { node = node; calls = file p } → FitsKept kept
        → length (kept_text (turned_under settings rest begun) (first_calls (length p.synced) kept)) ≤ n
        → IsRestart settings node rest p (take n (kept_text (turned_under settings rest begun) kept)) }
{}

/// What `put_word` writes is one word, and spells the bytes that it was given.
#[tactic(auto, using(crate::proofs::Words::word_back, crate::proofs::Words::word_inner))]
pub fn words_read_back()
    ensures inner { (bytes : List ℕ) → list_all (λ b. not (is_space b)) (word_of bytes) ≡ true }
    ensures back { (bytes : List ℕ) → All (λ b. b < 2 ^ 8) bytes → unprinted (word_of bytes) ≡ Ok bytes }
{}
