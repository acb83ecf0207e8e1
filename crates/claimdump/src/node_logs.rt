//! The logs of all nodes.

ghost use Rattle.std.specs.Prelude.{◌≡◌, ◌≤◌, ◌<◌, map, IfOk, OnErr, OnOk};
ghost use Rattle.world_setup.specs.Seen.{call_seen, node_seen, sent_seen};
ghost use Rattle.node_log.specs.LogSeen.{log_seen, logs_seen, with_call};
ghost use Rattle.claimdump.specs.NodeLogs.{each, no_calls, none_from, of_kind, with_own};
ghost use Rattle.claimdump.specs.Placed.{recorded_at};

use node_log::NodeLog;
use std::alloc::{AllocError, Global};
use std::marker::Model;
use world_setup::{Call, CheckedSettings, Node, Sent};

/// A kind of nodes.
#[derive(Clone, Copy)]
pub(crate) enum Kind {
    Pharmacy,
    Switch,
    Payer,
}

impl Kind {
    /// The node of this kind that has a number.
    fn node(self, number: u16) -> Node
        ensures { node_seen result ≡ of_kind self number }
    {
        match self {
            Kind::Pharmacy => Node::Pharmacy(number),
            Kind::Switch => Node::Switch(number),
            Kind::Payer => Node::Payer(number),
        }
    }
}

/// The logs of all nodes, those of each kind by their numbers.
#[derive(Drop)]
pub(crate) struct NodeLogs {
    pharmacies: Vec<NodeLog>,
    switches: Vec<NodeLog>,
    payers: Vec<NodeLog>,
}

impl Model for NodeLogs {
    ghost use Rattle.node_log.specs.LogSeen.{logs_seen};
    ghost use Rattle.claimdump.specs.NodeLogs.{AllLogs, AreAll};

    ghost Value = { AllLogs };

    ghost view = { λ l. record {
      pharmacies = logs_seen l.pharmacies.items;
      switches = logs_seen l.switches.items;
      payers = logs_seen l.payers.items;
    } };

    ghost invariant = { λ l. AreAll (record {
      pharmacies = logs_seen l.pharmacies.items;
      switches = logs_seen l.switches.items;
      payers = logs_seen l.payers.items;
    }) };
}

impl NodeLogs {
    /// A log of no calls for each node of these settings.
    #[tactic(auto, using(crate::proofs::NodeLogs::none_are))]
    pub(crate) fn opening(alloc: Global, settings: &CheckedSettings) -> Result<NodeLogs, AllocError>
        ensures { IfOk result (λ logs. logs ≡ no_calls settings.now) }
    {
        let settings = settings.settings();
        Ok(NodeLogs {
            pharmacies: none_of(alloc, Kind::Pharmacy, settings.pharmacies.len())?,
            switches: none_of(alloc, Kind::Switch, settings.switches.len())?,
            payers: none_of(alloc, Kind::Payer, settings.payers.len())?,
        })
    }

    /// Records an accepted call of a node, and what it sent.
    #[tactic(auto, using(std::proofs::lemmas::Result::on_ok_weaker, crate::proofs::NodeLogs::stay_all, crate::proofs::NodeLogs::pharmacy_recorded, crate::proofs::NodeLogs::switch_recorded, crate::proofs::NodeLogs::payer_recorded))]
    pub(crate) fn record(
        &mut self,
        node: Node,
        call: Call,
        sent: Vec<Sent>,
    ) -> Result<(), AllocError>
        ensures { OnOk result (self.new ≡ each (with_own (node_seen node)
            (record { call = call_seen call; sent = map sent_seen sent.items })) self.old) }
    {
        match node {
            Node::Pharmacy(number) => record_at(&mut self.pharmacies, number, call, sent),
            Node::Switch(number) => record_at(&mut self.switches, number, call, sent),
            Node::Payer(number) => record_at(&mut self.payers, number, call, sent),
        }
    }

    /// Those of pharmacies.
    pub(crate) fn pharmacies(&self) -> &[NodeLog]
        ensures { logs_seen result.now ≡ self.now.pharmacies }
    {
        self.pharmacies.as_slice()
    }

    /// Those of switches.
    pub(crate) fn switches(&self) -> &[NodeLog]
        ensures { logs_seen result.now ≡ self.now.switches }
    {
        self.switches.as_slice()
    }

    /// Those of payers.
    pub(crate) fn payers(&self) -> &[NodeLog]
        ensures { logs_seen result.now ≡ self.now.payers }
    {
        self.payers.as_slice()
    }
}

/// As many logs of no calls, of the nodes of a kind, numbered from 1.
#[tactic(auto, using(crate::proofs::NodeLogs::none_goes_on))]
fn none_of(alloc: Global, kind: Kind, count: usize) -> Result<Vec<NodeLog>, AllocError>
    requires { count ≤ 65535 }
    ensures { IfOk result (λ logs. logs_seen logs.items ≡ none_from kind 1 count) }
{
    let mut logs = Vec::new(alloc);
    for place in 0..count {
        logs.push(NodeLog::new(alloc, kind.node(place as u16 + 1)))?;
    }
    Ok(logs)
}

/// Records a call in the log of a number, where there is one.
#[tactic(auto, using(std::proofs::lemmas::Result::on_ok_weaker, std::proofs::lemmas::Result::on_err_weaker, crate::proofs::NodeLogs::put_there, crate::proofs::NodeLogs::put_same))]
fn record_at(
    logs: &mut Vec<NodeLog>,
    number: u16,
    call: Call,
    sent: Vec<Sent>,
) -> Result<(), AllocError>
    ensures ok { OnOk result (logs_seen logs.new.items ≡ recorded_at (logs_seen logs.old.items) number
        (record { call = call_seen call; sent = map sent_seen sent.items })) }
    ensures err { OnErr result (logs_seen logs.new.items ≡ logs_seen logs.old.items) }
{
    if number == 0 || number as usize > logs.len() {
        return Ok(());
    }
    put(&mut logs[number as usize - 1], call, sent)
}

/// Records a call in a log.
fn put(log: &mut NodeLog, call: Call, sent: Vec<Sent>) -> Result<(), AllocError>
    ensures ok { OnOk result (log_seen log.new
        ≡ with_call (log_seen log.old) (record { call = call_seen call; sent = map sent_seen sent.items })) }
    ensures err { OnErr result (log_seen log.new ≡ log_seen log.old) }
{
    log.reserve()?;
    log.record(call, sent);
    Ok(())
}
