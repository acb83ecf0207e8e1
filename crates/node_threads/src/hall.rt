//! All nodes of a running system.

ghost use Rattle.std.specs.Prelude.{◌≡◌, ◌≤◌, length, vec_len, is_some, IfOk};
ghost use Rattle.std.specs.Arc.{arc_value};
ghost use Rattle.node_log.specs.ExistingNodes.{is_there, is_numbered};
ghost use Rattle.world_setup.specs.Seen.{node_seen, settings_seen};
ghost use Rattle.node_threads.specs.Halls.{kind_count, kind_node};

use crate::station::Station;
use node_logged::Held;
use std::alloc::{AllocError, Global};
use std::marker::Model;
use std::sync::{Arc, Wait};
use world_setup::{CheckedSettings, LinkFault, Node, Packet};

/// All nodes of a running system, each kind in the order of its numbers.
#[derive(Drop)]
pub(crate) struct Hall {
    alloc: Global,
    shared: Arc<CheckedSettings>,
    pharmacies: Vec<Station>,
    switches: Vec<Station>,
    payers: Vec<Station>,
}

impl Model for Hall {
    ghost use Rattle.std.specs.Prelude.{vec_len};
    ghost use Rattle.std.specs.Arc.{arc_value};
    ghost use Rattle.world_setup.specs.declared.settings.WorldSettings.{WorldSettings};
    ghost use Rattle.node_threads.specs.Halls.{AreStations};

    ghost Value = { WorldSettings };

    ghost view = { λ h. arc_value h.shared };

    ghost invariant = { λ h.
        AreStations (arc_value h.shared) (vec_len h.pharmacies) (vec_len h.switches) (vec_len h.payers) };
}

impl Hall {
    /// All nodes of the settings as they open.
    pub(crate) fn opening<R: Wait>(
        rt: &R,
        alloc: Global,
        shared: Arc<CheckedSettings>,
    ) -> Result<Hall, AllocError>
        ensures { IfOk result (λ hall. hall ≡ arc_value shared) }
    {
        let pharmacies = stations(rt, alloc, &shared, NodeKind::Pharmacy)?;
        let switches = stations(rt, alloc, &shared, NodeKind::Switch)?;
        let payers = stations(rt, alloc, &shared, NodeKind::Payer)?;
        Ok(Hall {
            alloc,
            shared,
            pharmacies,
            switches,
            payers,
        })
    }

    /// Where the memory of the system comes from.
    pub(crate) fn alloc(&self) -> Global {
        self.alloc
    }

    /// What all nodes share.
    pub(crate) fn shared(&self) -> &CheckedSettings
        ensures { result.now ≡ self.now }
    {
        &self.shared
    }

    /// The station of a node, if there is one.
    pub(crate) fn station(&self, node: Node) -> Option<&Station>
        ensures { is_some result ≡ is_there (settings_seen self.now) (node_seen node) }
    {
        match node {
            Node::Pharmacy(number) => numbered(self.pharmacies.as_slice(), number),
            Node::Switch(number) => numbered(self.switches.as_slice(), number),
            Node::Payer(number) => numbered(self.payers.as_slice(), number),
        }
    }

    /// The stations of pharmacies.
    pub(crate) fn pharmacies(&self) -> &[Station] {
        self.pharmacies.as_slice()
    }

    /// The stations of switches.
    pub(crate) fn switches(&self) -> &[Station] {
        self.switches.as_slice()
    }

    /// The stations of payers.
    pub(crate) fn payers(&self) -> &[Station] {
        self.payers.as_slice()
    }

    /// Treats packets, which a station sent, on their links. One for a node that is not there is lost.
    pub(crate) fn send<R: Wait>(&self, rt: &R, from: &Station, packets: Vec<Packet>) {
        for packet in packets {
            self.send_one(rt, from, packet);
        }
    }

    /// Treats a packet on its link.
    fn send_one<R: Wait>(&self, rt: &R, from: &Station, packet: Packet) {
        if let Some(to) = self.station(packet.to) {
            from.carry(rt, to, packet);
        }
    }

    /// Adds the actions of each fault at the end of those of its link. A fault of a node that is not there does nothing.
    pub(crate) fn add_faults<R: Wait>(
        &self,
        rt: &R,
        faults: &[LinkFault],
    ) -> Result<(), AllocError> {
        for fault in faults {
            self.add_fault(rt, fault)?;
        }
        Ok(())
    }

    /// Adds the actions of a fault at the end of those of its link.
    fn add_fault<R: Wait>(&self, rt: &R, fault: &LinkFault) -> Result<(), AllocError> {
        let Some(from) = self.station(fault.from) else {
            return Ok(());
        };
        let Some(to) = self.station(fault.to) else {
            return Ok(());
        };
        from.add_actions(rt, to, fault.actions.as_slice())
    }

    /// Closes all inboxes.
    pub(crate) fn close<R: Wait>(&self, rt: &R) {
        close_all(rt, self.pharmacies.as_slice());
        close_all(rt, self.switches.as_slice());
        close_all(rt, self.payers.as_slice());
    }

    /// All nodes with their logs, pharmacies first and payers last, each kind in the order of its numbers, and what they shared.
    pub(crate) fn into_nodes(self) -> Result<(Arc<CheckedSettings>, Vec<Held>), AllocError>
        ensures { IfOk result (λ r. arc_value r.0 ≡ self) }
    {
        let Hall {
            alloc,
            shared,
            pharmacies,
            switches,
            payers,
        } = self;
        let mut nodes = Vec::new(alloc);
        add_nodes(&mut nodes, pharmacies)?;
        add_nodes(&mut nodes, switches)?;
        add_nodes(&mut nodes, payers)?;
        Ok((shared, nodes))
    }
}

/// The station of a number, from 1.
fn numbered(stations: &[Station], number: u16) -> Option<&Station>
    ensures { is_some result ≡ is_numbered (length stations.now) number }
{
    if number == 0 {
        return None;
    }
    stations.get(number as usize - 1)
}

/// Closes inboxes.
fn close_all<R: Wait>(rt: &R, stations: &[Station]) {
    for station in stations {
        station.close(rt);
    }
}

/// Adds the nodes of stations after those that are there.
fn add_nodes(nodes: &mut Vec<Held>, stations: Vec<Station>) -> Result<(), AllocError> {
    for station in stations {
        nodes.push(station.into_held())?;
    }
    Ok(())
}

/// The stations of all nodes of a kind.
#[tactic(auto, using(crate::proofs::Opening::kind_opens))]
fn stations<R: Wait>(
    rt: &R,
    alloc: Global,
    shared: &Arc<CheckedSettings>,
    kind: NodeKind,
) -> Result<Vec<Station>, AllocError>
    ensures { IfOk result (λ stations. vec_len stations ≡ kind_count (arc_value shared.now) kind) }
{
    let mut stations = Vec::new(alloc);
    for place in 0..kind.count(shared) {
        let node = kind.node(place as u16 + 1);
        stations.push(Station::opening(rt, alloc, shared, node)?)?;
    }
    Ok(stations)
}

/// A kind of nodes.
#[derive(Clone, Copy)]
enum NodeKind {
    Pharmacy,
    Switch,
    Payer,
}

impl NodeKind {
    /// How many nodes of this kind there are.
    fn count(self, settings: &CheckedSettings) -> usize
        ensures is { result ≡ kind_count settings.now self }
        ensures few { result ≤ 65535 }
    {
        let settings = settings.settings();
        match self {
            NodeKind::Pharmacy => settings.pharmacies.len(),
            NodeKind::Switch => settings.switches.len(),
            NodeKind::Payer => settings.payers.len(),
        }
    }

    /// The node of this kind and number.
    fn node(self, number: u16) -> Node
        ensures { node_seen result ≡ kind_node self number }
    {
        match self {
            NodeKind::Pharmacy => Node::Pharmacy(number),
            NodeKind::Switch => Node::Switch(number),
            NodeKind::Payer => Node::Payer(number),
        }
    }
}
