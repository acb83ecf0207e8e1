//! The nodes of a world, each kind in the order of its numbers, from 1.

ghost use Rattle.std.specs.Prelude.{◌≡◌};

use crate::world::World;
use node_state::{PayerNode, PharmacyNode, SwitchNode};

impl World {
    /// All pharmacies.
    pub fn pharmacies(&self) -> &[PharmacyNode]
        ensures { result.now ≡ self.now.world.pharmacies }
    {
        self.parts.nodes.pharmacies.as_slice()
    }

    /// All switches.
    pub fn switches(&self) -> &[SwitchNode]
        ensures { result.now ≡ self.now.world.switches }
    {
        self.parts.nodes.switches.as_slice()
    }

    /// All payers.
    pub fn payers(&self) -> &[PayerNode]
        ensures { result.now ≡ self.now.world.payers }
    {
        self.parts.nodes.payers.as_slice()
    }
}
