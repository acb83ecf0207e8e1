//! What links do to the packets that they carry.

ghost use Rattle.std.specs.Prelude.{◌≡◌, ◌++◌, ◌∷◌, [], OnOk};

use crate::node::Node;
use std::alloc::{AllocFailed, Global};
use std::marker::Model;

/// What a link does to one packet (own).
#[derive(Clone, Copy, PartialEq, Eq)]
pub enum Action {
    /// It arrives.
    Deliver,
    /// It is lost.
    Lose,
    /// It arrives twice.
    Twice,
    /// It arrives once the next packet of the link was treated; until then it is held.
    Hold,
}

/// Actions in the order of a link's packets.
#[derive(Drop)]
pub struct Actions {
    list: Vec<Action>,
}

impl Model for Actions {
    ghost use Rattle.std.specs.Prelude.{List};
    ghost use Rattle.world_setup.specs.declared.link.Action.{Action};

    ghost Value = { List Action };

    ghost view = { λ actions. actions.list.items };
}

impl Actions {
    /// No actions.
    pub fn new(alloc: Global) -> Actions
        ensures { result ≡ [] }
    {
        Actions {
            list: Vec::new(alloc),
        }
    }

    /// Adds an action at the end.
    pub fn push(&mut self, action: Action) -> Result<(), AllocFailed<Action>>
        ensures { OnOk result (self.new ≡ self.old ++ action ∷ []) }
    {
        self.list.push(action)
    }

    /// The actions.
    pub fn as_slice(&self) -> &[Action]
        ensures { result.now ≡ self.now }
    {
        self.list.as_slice()
    }
}

/// The faults of the link from one node to another: the i-th of its packets takes the i-th of these actions, and
/// packets beyond them arrive (own).
#[derive(Drop)]
pub struct LinkFault {
    /// The node that sends.
    pub from: Node,
    /// The node that the packets are for.
    pub to: Node,
    /// What happens to the packets, in their order.
    pub actions: Actions,
}
