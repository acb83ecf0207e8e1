//! Answers that a pharmacy has of a switch, to requests that had no route.

ghost use Rattle.std.specs.Prelude.{◌≡◌, IfOk, OnOk, ◌++◌};
ghost use Rattle.claim_model.specs.Bytes.{bytes_with};
ghost use Rattle.claim_model.specs.Readable.{readable, route_key};
ghost use Rattle.std.specs.Option.{option_map};
ghost use Rattle.claim_model.specs.Node.{Pharmacy};
ghost use Rattle.world_setup.specs.Seen.{node_seen};
ghost use Rattle.log_growth.specs.Rejected.{AreReroutedIn, id_of, is_rerouted, rerouted_at, rerouted_key, rerouted_of, rerouted_to};

use crate::over::OverFault;
use bin_routes::{RouteKey, Routes};
use claim_model::readable_requests;
use claim_profile::check_readable;
use envelope::TxnId;
use node_service::{Service, ServiceFault};
use payer_book::HashKeys;
use request_route::{is_rejected, is_routed, key_of};
use std::alloc::{AllocError, Global};
use world_setup::Node;

/// The numbers of a pharmacy's entries whose answer is the rejection of a switch, for want of a route, though the settings that
/// the text spells give their requests one, and what a route may look at in these: forwarded now they could get another answer.
/// None of another node.
///
/// # Errors
/// `Refused` where the log does not open.
pub fn rerouted(
    alloc: Global,
    text: &[u8],
    node: Node,
    bytes: &[u8],
) -> Result<Vec<(u64, RouteKey)>, OverFault>
    ensures { IfOk result (λ found. AreReroutedIn text.now (node_seen node) bytes.now found.items) }
{
    match Service::open(alloc, &HashKeys::fixed(), text, node, None, bytes) {
        Ok((service, _)) => Ok(rerouted_of(alloc, node, &service)?),
        Err(ServiceFault::OutOfMemory) => Err(OverFault::OutOfMemory),
        Err(fault) => Err(OverFault::Refused(node, fault)),
    }
}

/// Those of a node that is open.
fn rerouted_of(
    alloc: Global,
    node: Node,
    service: &Service,
) -> Result<Vec<(u64, RouteKey)>, AllocError>
    ensures { IfOk result (λ found. found.items ≡ rerouted_of service.now (node_seen node)) }
{
    match node {
        Node::Pharmacy(pharmacy) => all_rerouted(alloc, service, pharmacy),
        Node::Switch(_) => Ok(Vec::new(alloc)),
        Node::Payer(_) => Ok(Vec::new(alloc)),
    }
}

/// Those of a pharmacy.
#[tactic(auto, using(crate::proofs::Rejecting::one_more))]
fn all_rerouted(
    alloc: Global,
    service: &Service,
    pharmacy: u16,
) -> Result<Vec<(u64, RouteKey)>, AllocError>
    ensures { IfOk result (λ found. found.items ≡ rerouted_of service.now (Pharmacy pharmacy)) }
{
    let mut found = Vec::new(alloc);
    for place in 0..service.state().entries(alloc)? {
        let number = place as u64 + 1;
        let key = rerouted_key(alloc, service, pharmacy, number)?;
        put_key(&mut found, number, key)?;
    }
    Ok(found)
}

/// Adds the entry of a number, where it has a key.
fn put_key(
    found: &mut Vec<(u64, RouteKey)>,
    number: u64,
    key: Option<RouteKey>,
) -> Result<(), AllocError>
    ensures { OnOk result (found.new.items ≡ found.old.items ++ rerouted_at number key) }
{
    match key {
        Some(key) => Ok(found.push((number, key))?),
        None => Ok(()),
    }
}

/// What a route may look at in the request of the entry of a number, where it has such an answer.
fn rerouted_key(
    alloc: Global,
    service: &Service,
    pharmacy: u16,
    number: u64,
) -> Result<Option<RouteKey>, AllocError>
    ensures { IfOk result (λ key. key ≡ rerouted_key service.now pharmacy number) }
{
    if !is_rerouted(alloc, service, pharmacy, number)? {
        return Ok(None);
    }
    match service.state().request(alloc, number)? {
        Some(request) => Ok(key_in(service.settings().routes(), request.as_slice())),
        None => Ok(None),
    }
}

/// What a route may look at in a request.
fn key_in(_routes: &Routes, request: &[u8]) -> Option<RouteKey>
    ensures { result ≡ option_map route_key (readable (bytes_with _routes.now) request.now) }
{
    readable_requests();
    match check_readable(request) {
        Some(framed) => Some(key_of(framed.header())),
        None => None,
    }
}

/// Whether the entry of a number has such an answer.
fn is_rerouted(
    alloc: Global,
    service: &Service,
    pharmacy: u16,
    number: u64,
) -> Result<bool, AllocError>
    ensures { IfOk result (λ yes. yes ≡ is_rerouted service.now pharmacy number) }
{
    let Some(id) = TxnId::new(pharmacy, number) else {
        return Ok(false);
    };
    let Some(answer) = service.state().held(alloc, id)? else {
        return Ok(false);
    };
    if !is_rejected(answer.as_slice()) {
        return Ok(false);
    }
    match service.state().request(alloc, number)? {
        Some(request) => Ok(is_routed(service.settings().routes(), id, request.as_slice())),
        None => Ok(false),
    }
}
