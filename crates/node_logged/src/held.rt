//! A node with its log beside it.

ghost use Rattle.std.specs.Prelude.{◌≡◌, ◌+◌, ◌⊎◌, [], map, Some, IsSome, IsTrue, IfOk, IfErr, OnOk, OnErr};
ghost use Rattle.std.specs.Option.{option_copied};
ghost use Rattle.std.specs.Arc.{arc_value};
ghost use Rattle.claim_model.specs.Node.{Pharmacy, Submit, Stop};
ghost use Rattle.claim_model.specs.Nodes.{node_step, same_node};
ghost use Rattle.node_state.specs.Outcomes.{Refuses};
ghost use Rattle.node_state.specs.Nodes.{entries_of, held_of};
ghost use Rattle.node_log.specs.LogSeen.{log_seen};
ghost use Rattle.run_merge.specs.Merged.{FitsAlone};
ghost use Rattle.world_setup.specs.Seen.{node_seen, call_seen, sent_seen, settings_seen};
ghost use Rattle.claim_model.specs.declared.refusal.Fault.TheVariants.{OutOfMemory};
ghost use Rattle.node_logged.specs.Setting.{context_of, opened};
ghost use Rattle.node_logged.specs.SameSettings.{AreAlike};
ghost use Rattle.node_logged.specs.Holding.{IsKept, after_call, after_restart, last_record, last_sent};
ghost use Rattle.node_logged.specs.Tills.{with_receipt};
ghost use Rattle.node_logged.specs.TillSeen.{till_seen};

use crate::same_settings::is_alike;
use crate::till::Till;
use envelope::TxnId;
use node_log::{NodeLog, Record};
use node_state::NodeState;
use octets::Octets;
use std::alloc::{AllocError, Global};
use std::marker::Model;
use std::sync::Arc;
use world_setup::{Call, CheckedSettings, Fault, Node, Refusal, Sent};

/// A node, the log of its accepted calls, and what it shares with all other nodes (own). At every moment the node is the
/// replay of the log beside it, from the opening node of the settings, and by itself it accepts each call of the log and
/// sends with it what stands beside the call.
#[derive(Drop)]
pub struct Held {
    shared: Arc<CheckedSettings>,
    state: NodeState,
    log: NodeLog,
}

impl Model for Held {
    ghost use Rattle.std.specs.Arc.{arc_value};
    ghost use Rattle.node_log.specs.LogSeen.{log_seen};
    ghost use Rattle.node_logged.specs.Holding.{Holding, IsKept};

    ghost Value = { Holding };

    ghost view = { λ h. record { settings = arc_value h.shared; state = h.state; log = log_seen h.log } };

    ghost invariant = { λ h. IsKept (arc_value h.shared) h.state (log_seen h.log) };
}

impl Held {
    /// The node of this name as it opens, with an empty log. The node is one of the settings.
    pub fn new(alloc: Global, shared: &Arc<CheckedSettings>, node: Node) -> Result<Held, AllocError>
        requires { IsSome (opened (arc_value shared.now) (node_seen node)) }
        ensures settings { IfOk result (λ held. held.settings ≡ arc_value shared.now) }
        ensures state { IfOk result (λ held. opened (arc_value shared.now) (node_seen node) ≡ Some held.state) }
        ensures log { IfOk result (λ held. held.log ≡ record { node = node_seen node; calls = [] }) }
    {
        let state = NodeState::opening(alloc, shared, node)?;
        Ok(Held {
            shared: Arc::try_clone(shared)?,
            state,
            log: NodeLog::new(alloc, node),
        })
    }

    /// Makes a call on the node, and records it with what the node sent.
    ///
    /// # Errors
    /// `NoSuchNode` for a call that is made for another kind of node; then `Down` or `AlreadyUp`; then the refusal of
    /// the node. Node and log are then as they were, and so they are where memory is refused.
    pub fn call(&mut self, alloc: Global, call: Call) -> Result<(), Fault>
        ensures ok { OnOk result (after_call self.old (call_seen call) ≡ Some self.new) }
        ensures fault { Refuses (node_step (context_of self.old.settings) self.old.state (call_seen call)) result }
        ensures err { OnErr result (self.new ≡ self.old) }
    {
        self.log.reserve()?;
        let sent = self.state.step(alloc, self.shared.routes(), &call)?;
        self.log.record(call, sent);
        Ok(())
    }

    /// The record of the last accepted call, with what it sent; none before the first.
    pub fn last_record(&self) -> Option<&Record>
        ensures { option_copied result ≡ last_record self.now.log.calls }
    {
        self.log.records().last()
    }

    /// What the last recorded call sent; nothing before the first.
    pub fn last_sent(&self) -> &[Sent]
        ensures { map sent_seen result.now ≡ last_sent self.now.log.calls }
    {
        match self.last_record() {
            Some(record) => record.sent(),
            None => &[],
        }
    }

    /// Stops the node unless it is down, and starts it again. Where the start is refused for want of memory the node stays
    /// at rest.
    ///
    /// # Errors
    /// Memory was refused, and nothing else: no node refuses a stop while it is up, or a start while it is down. The node
    /// is then as it was, or it was stopped.
    pub fn restart(&mut self, alloc: Global) -> Result<(), Fault>
        ensures ok { OnOk result (after_restart self.old ≡ Some self.new) }
        ensures fault { IfErr result (λ fault. fault ≡ OutOfMemory) }
        ensures err { OnErr result ((self.new ≡ self.old) ⊎ (after_call self.old Stop ≡ Some self.new)) }
    {
        match self.call(alloc, Call::Stop) {
            Ok(()) => self.call(alloc, Call::Start),
            Err(Fault::Refused(Refusal::Down)) => self.call(alloc, Call::Start),
            Err(fault) => Err(fault),
        }
    }

    /// Submits a request at a pharmacy for one of its callers, and gives the number of the new entry, for which the caller
    /// has a receipt then. The till is one of this pharmacy.
    ///
    /// # Errors
    /// Those of `call`. Node, log and till are then as they were.
    #[tactic(auto, using(crate::proofs::Numbers::grown))]
    pub fn submit(&mut self, alloc: Global, till: &mut Till, request: &[u8]) -> Result<u64, Fault>
        requires { self.old.log.node ≡ Pharmacy till.old.pharmacy }
        ensures step { OnOk result (after_call self.old (Submit request.now) ≡ Some self.new) }
        ensures number { IfOk result (λ number. number ≡ entries_of self.new.state) }
        ensures receipt { IfOk result (λ n. till_seen till.new ≡ with_receipt n request.now (till_seen till.old)) }
        ensures fault { Refuses (node_step (context_of self.old.settings) self.old.state (Submit request.now)) result }
        ensures same_node { OnErr result (self.new ≡ self.old) }
        ensures same_till { OnErr result (till_seen till.new ≡ till_seen till.old) }
    {
        let text = Octets::copy_of(alloc, request)?;
        let kept = Octets::copy_of(alloc, request)?;
        let number = self.next_number(alloc)?;
        till.reserve()?;
        self.call(alloc, Call::Submit(text))?;
        till.add(number, kept);
        Ok(number)
    }

    /// The number of the pharmacy's next entry.
    fn next_number(&self, alloc: Global) -> Result<u64, AllocError>
        ensures { IfOk result (λ number. number ≡ entries_of self.now.state + 1) }
    {
        let entries = self.state.entries(alloc)? as u64;
        match entries.checked_add(1) {
            Some(number) => Ok(number),
            // No memory has this many entries.
            None => Err(AllocError),
        }
    }

    /// The answer that the node holds for an id.
    ///
    /// # Errors
    /// Memory was refused.
    pub fn answer(&self, alloc: Global, id: TxnId) -> Result<Option<Octets>, AllocError>
        ensures { IfOk result (λ held. held ≡ held_of (context_of self.now.settings) self.now.state id) }
    {
        self.state.held(alloc, id)
    }

    /// The node's name.
    pub fn node(&self) -> Node
        ensures { node_seen result ≡ self.now.log.node }
    {
        self.log.node()
    }

    /// Whether it is the node of this name.
    pub fn is_of(&self, node: Node) -> bool
        ensures { result ≡ same_node self.now.log.node (node_seen node) }
    {
        self.log.is_of(node)
    }

    /// Whether it is known to be under these settings: its own are the same.
    pub(crate) fn is_under(&self, settings: &CheckedSettings) -> bool
        ensures { IsTrue result → AreAlike self.now.settings settings.now }
    {
        is_alike(self.shared.settings(), settings.settings())
    }

    /// The node as it stands, and its log.
    pub(crate) fn into_parts(self) -> (NodeState, NodeLog)
        ensures kept { IsKept self.settings result.0 (log_seen result.1) }
        ensures log { log_seen result.1 ≡ self.log }
    {
        let Held {
            shared: _,
            state,
            log,
        } = self;
        (state, log)
    }

    /// The log, and the node is let go. The log fits its node: `merge` finds it tangled only for what stands in other logs.
    pub fn into_log(self) -> NodeLog
        ensures log { log_seen result ≡ self.log }
        ensures fits { FitsAlone (context_of self.settings) (settings_seen self.settings) (log_seen result) }
    {
        let Held {
            shared: _,
            state: _,
            log,
        } = self;
        log
    }
}
