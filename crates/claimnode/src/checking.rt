//! Whether settings have a node.

ghost use Rattle.std.specs.Prelude.{ℕ, List, IfErr, IfOk, OnOk};
ghost use Rattle.claim_model.specs.Node as model;
ghost use Rattle.world_setup.specs.Seen.{node_seen};
ghost use Rattle.node_service.specs.Refused.{NoSettings};
ghost use Rattle.node_service.specs.declared.fault.ServiceFault.TheVariants.{Settings};
ghost use Rattle.claimnode.specs.Checked.{HasNode, IsUnchecked, TellsOfNode};

use crate::finding::Finding;
use node_log::is_there;
use node_service::ServiceFault;
use payer_book::HashKeys;
use std::alloc::Global;
use world_settings::{living_settings_fault, read_checked_settings};
use world_setup::Node;

/// Refuses settings that have no such node, before a file is made for its log.
///
/// # Errors
/// The text spells no settings, or such as no world takes, or they have no such node.
pub(crate) fn check_settings(alloc: Global, node: Node, text: &[u8]) -> Result<(), Finding>
    ensures has { OnOk result (HasNode text.now (node_seen node)) }
    ensures refused { IfErr result (λ why. IsUnchecked text.now (node_seen node) why) }
{
    match has_node(alloc, text, node) {
        Ok(true) => Ok(()),
        Ok(false) => Err(Finding::Service(ServiceFault::NoSuchNode)),
        Err(ServiceFault::Settings) => Err(why_refused(alloc, text)),
        Err(fault) => Err(Finding::Service(fault)),
    }
}

/// Whether the settings that a text spells, and that a world takes, have a node.
#[tactic(auto, using(node_service::proofs::Refusals::no_settings))]
fn has_node(alloc: Global, text: &[u8], node: Node) -> Result<bool, ServiceFault>
    ensures told { IfOk result (λ has. TellsOfNode text.now (node_seen node) has) }
    ensures refused { IfErr result (λ why. NoSettings text.now why) }
{
    let settings = read_checked_settings(alloc, &HashKeys::fixed(), text)?;
    Ok(is_there(settings.settings(), node))
}

/// What is wrong in settings that are refused.
fn why_refused(alloc: Global, text: &[u8]) -> Finding
    ensures { (spelled : List ℕ) (node : model.Node) → NoSettings spelled Settings → IsUnchecked spelled node result }
{
    match living_settings_fault(alloc, text) {
        Ok(Some(why)) => Finding::Settings(why),
        Ok(None) => Finding::Service(ServiceFault::Settings),
        Err(refused) => Finding::OutOfMemory(refused),
    }
}
