//! Calls on one node of a list, in which nodes are numbered from 1.

ghost use Rattle.std.specs.Prelude.{◌≡◌, ◌<◌, ◌≤◌, ◌⊎◌, suc, length, IfOk, IfNone, IfSome, OnErr};
ghost use Rattle.std.specs.Option.{option_copied};
ghost use Rattle.claim_model.specs.Numbered.{numbered};
ghost use Rattle.world_setup.specs.Seen.{lent_seen};
ghost use Rattle.node_state.specs.Outcomes.{Makes, Refuses};
ghost use Rattle.node_state.specs.Taking.{IsReadable};
ghost use Rattle.world_core.specs.Calling.{called};
ghost use Rattle.world_core.specs.Room.{most_of, room_due};

use bin_routes::Routes;
use node_state::{Kind, PharmacyNode, Powered};
use octets::Octets;
use std::alloc::Global;
use world_setup::{Call, Fault, Refusal, Sent};

/// The place, from 0, of the node of a number, where there are this many nodes.
fn place_of(number: u16, count: usize) -> Option<usize>
    ensures place { IfSome result (λ place. (number ≡ suc place) × (place < count)) }
    ensures nobody { IfNone result ((number ≡ 0) ⊎ (count < number)) }
{
    if number == 0 || number as usize > count {
        return None;
    }
    Some(number as usize - 1)
}

/// The node of a number.
pub(crate) fn node_of<N>(nodes: &[N], number: u16) -> Option<&N>
    ensures { option_copied result ≡ numbered nodes.now number }
{
    if number == 0 {
        return None;
    }
    nodes.get(number as usize - 1)
}

/// The node of a number makes a call. A packet that it takes is readable.
pub(crate) fn ask_node<K: Kind>(
    nodes: &mut Vec<Powered<K>>,
    alloc: Global,
    routes: &Routes,
    number: u16,
    call: Call<&Octets>,
) -> Result<Vec<Sent>, Fault>
    requires { IsReadable (lent_seen call)
        (called (λ node. K.step routes.now node (lent_seen call)) nodes.old.items number) }
    ensures ok { Makes (called
        (λ node. K.step routes.now node (lent_seen call.entry)) nodes.old.items number) nodes.new.items result }
    ensures fault { Refuses (called
        (λ node. K.step routes.now node (lent_seen call.entry)) nodes.old.items number) result }
    ensures few { IfOk result (λ sent. length sent.items
        ≤ most_of (λ node. K.most node (lent_seen call.entry)) (numbered nodes.old.items number)) }
    ensures err { OnErr result (nodes.new.items ≡ nodes.old.items) }
{
    match place_of(number, nodes.len()) {
        Some(place) => nodes[place].step_known(alloc, routes, call),
        None => Err(Fault::Refused(Refusal::NoSuchNode)),
    }
}

/// How many packets the next tick of the pharmacy of a number sends at most.
pub(crate) fn most_due(nodes: &[PharmacyNode], number: u16) -> usize
    ensures { result ≡ room_due nodes.now number }
{
    match place_of(number, nodes.len()) {
        Some(place) => nodes[place].most_due(),
        None => 0,
    }
}
