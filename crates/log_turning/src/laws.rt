//! What holds of every log that turned over, as facts that a caller cites by a call.

ghost use Rattle.std.specs.Prelude.{◌≡◌, ℕ, ◌^◌, ◌<◌, ◌++◌, List, length, Option, Some};
ghost use Rattle.claim_model.specs.Node.{Node};
ghost use Rattle.claim_model.specs.Logs.{Logged};
ghost use Rattle.kept_logs.specs.Stamps.{bare_calls};
ghost use Rattle.node_service.specs.Opened.{MakesAll, replayed_behind};
ghost use Rattle.log_turning.specs.Files.{file_text, part_in};
ghost use Rattle.log_turning.specs.Turned.{IsTurned};
ghost use Rattle.log_turning.specs.declared.turning.Turned.{Turned};

/// A node that goes on in a new log is the node of all its calls: what it is after any calls of the new log, it is after those of the
/// closed one and these; and it makes all of them.
pub fn turned_logs_go_on()
    ensures replays { (text : List ℕ) (node : Node) (rest : Option (List ℕ)) (bytes : List ℕ) (turned : Turned)
        (more : List Logged) → (is : IsTurned text node rest bytes turned)
        → replayed_behind is.last.settings node (Some turned.rest.items) more
        ≡ replayed_behind is.last.settings node rest (bare_calls is.closed.calls ++ more) }
    ensures makes { (text : List ℕ) (node : Node) (rest : Option (List ℕ)) (bytes : List ℕ) (turned : Turned)
        (more : List Logged) → (is : IsTurned text node rest bytes turned)
        → MakesAll is.last.settings node (Some turned.rest.items) more
        → MakesAll is.last.settings node rest (bare_calls is.closed.calls ++ more) }
{}

/// The file of a log that begins with a rest has this rest and this log.
#[tactic(auto, using(crate::proofs::FilesBack::file_back))]
pub fn files_have_their_parts()
    ensures { (rest log : List ℕ) → length rest < 2 ^ 64
        → part_in (file_text rest log) ≡ record { rest = Some rest; log = log } }
{}
