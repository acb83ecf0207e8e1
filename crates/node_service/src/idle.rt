//! Calls that change nothing.

ghost use Rattle.std.specs.Prelude.{◌≡◌};
ghost use Rattle.world_setup.specs.Seen.{call_seen};
ghost use Rattle.node_service.specs.Serving.{is_idle_call};

use node_state::NodeState;
use world_setup::Call;

/// Whether a call is a tick that leaves the node as it is and sends nothing.
pub(crate) fn is_idle_call(state: &NodeState, call: &Call) -> bool
    ensures { result ≡ is_idle_call state.now (call_seen call.now) }
{
    match call {
        Call::Tick => state.is_idle(),
        Call::Submit(_) => false,
        Call::Take { .. } => false,
        Call::Stop => false,
        Call::Start => false,
        Call::Plan { .. } => false,
        Call::Terms { .. } => false,
        Call::Retry { .. } => false,
        Call::Cap { .. } => false,
        Call::Adjudicate { .. } => false,
    }
}
