//! What holds of every node, as facts that a caller cites by a call.

ghost use Rattle.std.specs.Prelude.{◌≡◌, [], true};
ghost use Rattle.claim_model.specs.Context.{Context};
ghost use Rattle.claim_model.specs.Node.{Tick, Done};
ghost use Rattle.node_state.specs.Nodes.{AnyNode, node_step, is_idle_node};

/// A tick leaves an idle node as it is, and sends nothing.
pub fn idle_node_ticks()
    ensures { (ctx : Context) (state : AnyNode)
        → is_idle_node state ≡ true → node_step ctx state Tick ≡ Done state [] }
{}
