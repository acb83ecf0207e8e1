//! What holds of every process over bytes, as facts that a caller cites by a call.

ghost use Rattle.std.specs.Prelude.{◌≡◌, ◌⊎◌, ℕ, List, [], ◌++◌, None};
ghost use Rattle.claim_model.specs.Laws.{Laws};
ghost use Rattle.claim_model.specs.Node.{Node};
ghost use Rattle.claim_model.specs.Settings.{Accepts};
ghost use Rattle.world_setup.specs.Seen.{settings_seen};
ghost use Rattle.world_setup.specs.declared.settings.WorldSettings.{WorldSettings as Settings};
ghost use Rattle.node_logged.specs.Setting.{context_of};
ghost use Rattle.kept_logs.specs.Fits.{FitsNode};
ghost use Rattle.node_service.specs.Opened.{Spells};
ghost use Rattle.node_process.specs.Acts.{Act};
ghost use Rattle.node_process.specs.Safe.{IsRun, IsUnopened, Whose};
ghost use Rattle.node_process.specs.Histories.{BeginsWith, CanBegin, Happening, IsCourse, IsHistory, acts_of, happenings, left_of};
ghost use Rattle.node_process.specs.Joined.{BeginsAtRest, IsNetwork, KeepPromises, Owners, Turn};

/// What `serve_all` asks of the system, at each moment of it, goes on from what the process before it left: over a log that
/// begins with the settings, and over one that goes on after closed logs and begins with their rest.
#[tactic(auto, using(crate::proofs::Following::follows))]
pub fn processes_follow_one_another()
    ensures { (whose : Whose) (begun : List ℕ) (acts : List Act) (history : List Happening)
        → IsHistory whose begun history → acts_of history ≡ [] → BeginsWith (left_of begun history) acts
        → IsUnopened acts ⊎ IsRun whose acts → IsHistory whose begun (happenings acts ++ history) }
{}

/// Whatever is heard and done by the processes of a node, one after another, each as `serve_all` leaves it at any moment, and
/// whatever their deaths leave of the file of its log: what is on the disk, in the file and in memory is what a process of
/// `crash_safety` has that makes the same calls, syncs, crashes and restarts; and what was said is what its synced calls sent.
/// What happens later goes on from there. The log may begin with the settings, or go on after closed logs and begin with
/// their rest: the process begins with the node that the settings open, or with the one that the rest starts, and has the
/// calls of this log alone.
pub fn files_are_processes()
    ensures { (whose : Whose) (begun : List ℕ) (settings : Settings) (later before : List Happening)
        → Spells whose.settings settings → FitsNode whose.node → CanBegin whose begun → IsHistory whose begun (later ++ before)
        → IsCourse whose begun settings before (later ++ before) }
{}

/// Of all nodes together, each a process over its own file, whatever dies and is heard: of the bytes that the disks have for
/// certain, and of the files as they lie, no fill has two standing payments, counted payments stand, and no number has two
/// answers. What ties the nodes is that each packet that a line has a node take was sent by a call which its sender had on its
/// disk before; a process says no other (`files_are_processes`). The files with which all begin are those of some network at
/// rest; empty ones are.
#[tactic(auto, using(crate::proofs::Joining::empty_rest))]
pub fn files_keep_promises()
    ensures promises { (text : List ℕ) (settings : Settings) (owners : Owners) (all : List Turn) → Spells text settings
        → Laws (context_of settings) → Accepts (context_of settings) (settings_seen settings) → IsNetwork text owners all
        → BeginsAtRest settings owners → KeepPromises settings owners all }
    ensures empty { (settings : Settings) (owners : Owners) → ((node : Node) → (owners.whose node).node ≡ node)
        → ((node : Node) → (owners.whose node).rest ≡ None) → ((node : Node) → owners.begun node ≡ [])
        → BeginsAtRest settings owners }
{}
