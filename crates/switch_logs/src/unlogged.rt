//! The switches that have no log.

ghost use Rattle.std.specs.Prelude.{◌≡◌, ◌<◌, ◌≤◌, ◌+◌, ◌++◌, ◌∷◌, [], length, IfOk, IfSome, IsSome, OnOk, map};
ghost use Rattle.std.specs.Arc.{arc_value};
ghost use Rattle.std.specs.List.{AllByRecursion};
ghost use Rattle.claim_model.specs.Node.{Switch};
ghost use Rattle.world_setup.specs.Seen.{node_seen};
ghost use Rattle.node_log.specs.LogSeen.{logs_seen};
ghost use Rattle.run_merge.specs.Naming.{has_log};
ghost use Rattle.node_logged.specs.Setting.{opened};
ghost use Rattle.switch_logs.specs.MadeLogs.{FitsUnder, Stand, all_under, if_none, log_of, unlogged, who};

use node_log::{NodeLog, is_same_node};
use node_logged::Held;
use std::alloc::{AllocError, Global};
use std::sync::Arc;
use world_setup::{Call, CheckedSettings, Fault, Node};

/// The switches of settings, each of which either has a log or stands here with the log that is being made of it.
#[derive(Drop)]
pub(crate) struct Unlogged {
    switches: Vec<Held>,
}

impl Unlogged {
    /// The switches that have no log among these, as they open.
    pub(crate) fn new(
        alloc: Global,
        shared: &Arc<CheckedSettings>,
        logs: &[NodeLog],
    ) -> Result<Unlogged, AllocError>
        ensures { IfOk result (λ u. Stand (arc_value shared.now)
            (unlogged (logs_seen logs.now) (length (arc_value shared.now).switches.items)) u.switches.items) }
    {
        let mut switches = Vec::new(alloc);
        for place in 0..count(shared) {
            add_unlogged(alloc, shared, logs, place, &mut switches)?;
        }
        Ok(Unlogged { switches })
    }

    /// Whether each switch has a log.
    pub(crate) fn is_empty(&self) -> bool {
        self.switches.is_empty()
    }

    /// Whether this node is one of these switches.
    pub(crate) fn has(&self, node: Node) -> bool {
        self.place(node).is_some()
    }

    /// Has one of these switches stop, start, and take these packets, in order. A node that is none of them is passed over.
    #[tactic(auto, using(std::proofs::lemmas::Result::on_ok_weaker, crate::proofs::Standing::same_who))]
    pub(crate) fn hand(
        &mut self,
        alloc: Global,
        node: Node,
        packets: Vec<Call>,
    ) -> Result<(), AllocError>
        ensures { OnOk result (map who self.new.switches.items ≡ map who self.old.switches.items) }
    {
        match self.place(node) {
            Some(place) => hand_to(alloc, &mut self.switches[place], packets),
            None => Ok(()),
        }
    }

    /// The place of a switch among these.
    fn place(&self, node: Node) -> Option<usize>
        ensures { IfSome result (λ place. place < length self.now.switches.items) }
    {
        for (place, switch) in self.switches.iter().enumerate() {
            if switch.is_of(node) {
                return Some(place);
            }
        }
        None
    }

    /// The logs that were made.
    pub(crate) fn into_logs(self, alloc: Global) -> Result<Vec<NodeLog>, AllocError>
        ensures { IfOk result (λ made. (logs_seen made.items ≡ map log_of self.switches.items)
            × AllByRecursion FitsUnder self.switches.items) }
    {
        let mut logs = Vec::new(alloc);
        for switch in self.switches {
            logs.push(switch.into_log())?;
        }
        Ok(logs)
    }
}

/// Adds the switch at a place, as it opens, where none of these logs is of it.
#[tactic(auto, using(crate::proofs::Standing::switch_opens))]
fn add_unlogged(
    alloc: Global,
    shared: &Arc<CheckedSettings>,
    logs: &[NodeLog],
    place: usize,
    switches: &mut Vec<Held>,
) -> Result<(), AllocError>
    requires there { place < length (arc_value shared.now).switches.items }
    requires few { place < 65535 }
    ensures { OnOk result (map who switches.new.items ≡ map who switches.old.items
        ++ all_under (arc_value shared.now) (if_none (logs_seen logs.now) (Switch (place + 1)))) }
{
    let node = Node::Switch(place as u16 + 1);
    if has_log(node, logs) {
        return Ok(());
    }
    add(alloc, shared, node, switches)
}

/// Adds a node of the settings, as it opens.
fn add(
    alloc: Global,
    shared: &Arc<CheckedSettings>,
    node: Node,
    switches: &mut Vec<Held>,
) -> Result<(), AllocError>
    requires { IsSome (opened (arc_value shared.now) (node_seen node)) }
    ensures { OnOk result (map who switches.new.items ≡ map who switches.old.items
        ++ (arc_value shared.now, node_seen node) ∷ []) }
{
    let held = Held::new(alloc, shared, node)?;
    switches.push(held)?;
    Ok(())
}

/// How many switches there are.
fn count(settings: &CheckedSettings) -> usize
    ensures is { result ≡ length settings.now.switches.items }
    ensures few { result ≤ 65535 }
{
    settings.settings().switches.len()
}

/// Has a switch stop, start, and take these packets, in order; one that it refuses is not in its log.
fn hand_to(alloc: Global, switch: &mut Held, packets: Vec<Call>) -> Result<(), AllocError>
    ensures { OnOk result (who switch.new ≡ who switch.old) }
{
    restart(alloc, switch)?;
    for packet in packets {
        take(alloc, switch, packet)?;
    }
    Ok(())
}

/// Has a switch stop, unless it is down, and start.
fn restart(alloc: Global, switch: &mut Held) -> Result<(), AllocError>
    ensures { OnOk result (who switch.new ≡ who switch.old) }
{
    match switch.restart(alloc) {
        Ok(()) => Ok(()),
        Err(_) => Err(AllocError),
    }
}

/// Has a switch take a packet, unless it refuses it.
fn take(alloc: Global, switch: &mut Held, packet: Call) -> Result<(), AllocError>
    ensures { OnOk result (who switch.new ≡ who switch.old) }
{
    match switch.call(alloc, packet) {
        Ok(()) => Ok(()),
        Err(Fault::OutOfMemory) => Err(AllocError),
        Err(_) => Ok(()),
    }
}

/// Whether one of these logs is of this node.
fn has_log(node: Node, logs: &[NodeLog]) -> bool
    ensures { result ≡ has_log (node_seen node) (logs_seen logs.now) }
{
    for log in logs {
        if is_same_node(log.node(), node) {
            return true;
        }
    }
    false
}
