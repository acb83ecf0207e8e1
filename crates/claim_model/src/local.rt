//! What a call on one node hangs on, and what it leaves alone.

ghost use Rattle.std.specs.Prelude.{◌≡◌, ℕ, List};
ghost use Rattle.claim_model.specs.Context.{Context};
ghost use Rattle.claim_model.specs.Numbered.{numbered};
ghost use Rattle.claim_model.specs.Node.{Node, Call};
ghost use Rattle.claim_model.specs.World.{World, Event, Delivery, Adjudication, step};
ghost use Rattle.claim_model.specs.Nodes.{Asked, asked, asked_step};
ghost use Rattle.claim_model.specs.Logs.{logged_by};
ghost use Rattle.claim_model.specs.Local.{IsLocal, StaysEnabled};

/// A node's step in a world depends on that node alone, and changes no other.
#[tactic(auto, using(crate::proofs::Steps::local, crate::proofs::Steps::step_asked))]
pub fn calls_are_local()
    ensures calls { (ctx : Context) (w : World) (node : Node) (call : Call) → IsLocal ctx w node call }
    // An event is the one call that it asks for.
    ensures events { (ctx : Context) (w : World) (event : Event)
        → step ctx w event ≡ asked_step ctx w (asked w.packets event) }
{}

/// Two packets with the same sender, addressee and bytes serve alike: delivered, either leads to the same world with the
/// same packets, and adds the same to each log; and so do they with one advice.
#[tactic(auto, using(crate::proofs::Serving::delivers_alike, crate::proofs::Serving::logs_alike, crate::proofs::Serving::adjudicates_alike, crate::proofs::Serving::adjudications_logged_alike))]
pub fn equal_packets_serve_alike()
    ensures step { (ctx : Context) (w : World) (j k : ℕ) → numbered w.packets j ≡ numbered w.packets k
        → step ctx w (Delivery j) ≡ step ctx w (Delivery k) }
    ensures logged { (ctx : Context) (w : World) (j k : ℕ) (node : Node) → numbered w.packets j ≡ numbered w.packets k
        → logged_by node (asked w.packets (Delivery j)) (step ctx w (Delivery j))
        ≡ logged_by node (asked w.packets (Delivery k)) (step ctx w (Delivery k)) }
    ensures advised { (ctx : Context) (w : World) (j k : ℕ) (advice : List ℕ) → numbered w.packets j ≡ numbered w.packets k
        → step ctx w (Adjudication j advice) ≡ step ctx w (Adjudication k advice) }
    ensures advised_logged { (ctx : Context) (w : World) (j k : ℕ) (advice : List ℕ) (node : Node)
        → numbered w.packets j ≡ numbered w.packets k
        → logged_by node (asked w.packets (Adjudication j advice)) (step ctx w (Adjudication j advice))
        ≡ logged_by node (asked w.packets (Adjudication k advice)) (step ctx w (Adjudication k advice)) }
{}

/// What a node would accept now it would accept, and send the same for, after any events in which it makes no call: packets
/// are never used up, and no other node takes anything from it.
pub fn enabled_calls_stay()
    ensures { (ctx : Context) (w : World) (event : Event) (a : Asked) (events : List Event)
        → StaysEnabled ctx w event a events }
{}
