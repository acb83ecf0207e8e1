//! The lines of all nodes.

ghost use Rattle.std.specs.Prelude.{OnOk};
ghost use Rattle.world_core.specs.Parts.{context_of};
ghost use Rattle.world_report.specs.Adding.{AddsLines};
ghost use Rattle.world_report.specs.Nodes.{world_lines};

use crate::nodes::{put_payers, put_pharmacies, put_switches};
use std::alloc::{AllocError, Global};
use world_core::World;

/// Appends the lines of all nodes: the pharmacies, then the switches, then the payers.
///
/// # Errors
/// Where memory is refused.
pub fn put_nodes(out: &mut Vec<u8>, alloc: Global, world: &World) -> Result<(), AllocError>
    ensures { OnOk result (AddsLines out.old out.new (world_lines (context_of world.now) world.now.world)) }
{
    put_pharmacies(out, alloc, world.pharmacies())?;
    put_switches(out, alloc, world.switches())?;
    put_payers(out, alloc, world.payers())
}
