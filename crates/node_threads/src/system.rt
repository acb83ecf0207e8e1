//! A running system: each node behind a lock of its own, with a thread that delivers what comes into its inbox.

ghost use Rattle.std.specs.Prelude.{◌≡◌, ◌⊎◌, ◌↔◌, [], false, Err, is_ok, IfOk, IfErr, OnErr};
ghost use Rattle.claim_model.specs.Node.{Pharmacy, Payer};
ghost use Rattle.node_log.specs.ExistingNodes.{is_there};
ghost use Rattle.world_setup.specs.Seen.{node_seen, settings_seen};
ghost use Rattle.node_logged.specs.Tills.{has_receipt, with_receipt};
ghost use Rattle.node_logged.specs.TillSeen.{till_seen};
ghost use Rattle.node_logged.specs.Causes.{IsCause};
ghost use Rattle.node_logged.specs.LedgerSeen.{tills_seen};
ghost use Rattle.node_logged.specs.Verdicts.{IsRun, logs_in};
ghost use Rattle.node_threads.specs.Halls.{RefusesAbsent, absent};
ghost use Rattle.node_threads.specs.Telling.{told, ToldAgain, after_telling};
ghost use Rattle.node_threads.specs.declared.status.StatusFault.TheVariants.{NotThisTill};

use crate::ending::{judged, last_owner};
use crate::hall::Hall;
use crate::starting::StartFault;
use crate::station::Station;
use crate::status::{Status, StatusFault, tell};
use crate::workers::{Gate, Workers};
use envelope::TxnId;
use node_logged::{FinishFault, Finished, Till};
use octets::Octets;
use std::alloc::{AllocError, Global};
use std::marker::Model;
use std::sync::{Arc, Wait};
use std::thread::Threads;
use world_setup::{Call, CheckedSettings, Fault, LinkFault, Node, Refusal};

/// A running system. Threads share it by reference; who started it has its workers, and ends it by `finish`.
#[derive(Drop)]
pub struct System {
    hall: Arc<Hall>,
}

impl Model for System {
    ghost use Rattle.std.specs.Arc.{arc_value};
    ghost use Rattle.world_setup.specs.declared.settings.WorldSettings.{WorldSettings};

    ghost Value = { WorldSettings };

    ghost view = { λ s. arc_value s.hall };
}

impl System {
    /// Starts all nodes of settings that a world takes, with an inbox and a worker for each, and links that treat their packets as these
    /// faults say.
    ///
    /// # Errors
    /// `NoThread`, or memory was refused. The workers that were started have ended then.
    pub fn start<R, G>(
        rt: &R,
        alloc: Global,
        settings: CheckedSettings,
        gate: &Arc<G>,
        faults: &[LinkFault],
    ) -> Result<(System, Workers), StartFault>
    where
        R: Threads + Wait + Copy + Send + 'static,
        G: Gate + Send + Sync + Drop + 'static,
        ensures { IfOk result (λ started. started.0 ≡ settings) }
    {
        let shared = Arc::new(alloc, settings)?;
        let hall = Arc::new(alloc, Hall::opening(rt, alloc, shared)?)?;
        hall.add_faults(rt, faults)?;
        let mut workers = Workers::new(alloc);
        match workers.start_each(rt, &hall, gate) {
            Ok(()) => Ok((System { hall }, workers)),
            Err(fault) => {
                hall.close(rt);
                workers.join(rt);
                Err(fault)
            }
        }
    }

    /// A till of a pharmacy, with no receipt and nothing heard.
    ///
    /// # Errors
    /// `NoSuchNode` where the pharmacy is not there, and nothing else.
    pub fn till(&self, pharmacy: u16) -> Result<Till, Fault>
        ensures missing { (result ≡ Err absent) ↔ (is_there (settings_seen self.now) (Pharmacy pharmacy) ≡ false) }
        ensures refused { IfErr result (λ fault. fault ≡ absent) }
        ensures empty { IfOk result (λ t. till_seen t ≡ record { pharmacy = pharmacy; receipts = []; heard = [] }) }
    {
        match self.hall.station(Node::Pharmacy(pharmacy)) {
            Some(_) => Ok(Till::new(self.hall.alloc(), pharmacy)),
            None => Err(Fault::Refused(Refusal::NoSuchNode)),
        }
    }

    /// Submits a request at the pharmacy of a till, and gives the number of its entry, for which the till has a receipt
    /// then. The till is one of this system.
    ///
    /// # Errors
    /// `NoSuchNode` for a till of a pharmacy that is not there; `Down`; then the refusal of the pharmacy. The till is
    /// then as it was.
    pub fn submit<R: Wait>(&self, rt: &R, till: &mut Till, request: &[u8]) -> Result<u64, Fault>
        ensures missing { RefusesAbsent self.now (Pharmacy till.old.pharmacy) result }
        ensures receipt { IfOk result (λ n. till_seen till.new ≡ with_receipt n request.now (till_seen till.old)) }
        ensures same { OnErr result (till_seen till.new ≡ till_seen till.old) }
    {
        let station = self.there(Node::Pharmacy(till.pharmacy()))?;
        let (number, sent) = station.submit(rt, self.hall.alloc(), till, request)?;
        self.hall.send(rt, station, sent);
        Ok(number)
    }

    /// One tick of a pharmacy's time.
    ///
    /// # Errors
    /// `NoSuchNode`; `Down`.
    pub fn tick<R: Wait>(&self, rt: &R, pharmacy: u16) -> Result<(), Fault>
        ensures { RefusesAbsent self.now (Pharmacy pharmacy) result }
    {
        self.call(rt, Node::Pharmacy(pharmacy), Call::Tick)
    }

    /// Stops a node unless it is down, and starts it again, under one lock. Where the start is refused for want of memory
    /// the node stays at rest, and a later restart starts it.
    ///
    /// # Errors
    /// `NoSuchNode`; memory was refused.
    pub fn restart<R: Wait>(&self, rt: &R, node: Node) -> Result<(), Fault>
        ensures missing { (result ≡ Err absent) ↔ (is_there (settings_seen self.now) (node_seen node) ≡ false) }
        ensures refused { IfErr result (λ fault. (fault ≡ absent) ⊎ (fault ≡ Fault.OutOfMemory)) }
    {
        let station = self.there(node)?;
        station.post().lock(rt).restart(self.hall.alloc())
    }

    /// Changes the price of a product on a payer's plan, in ten-thousandths of a dollar a unit, or takes it off the plan.
    ///
    /// # Errors
    /// `NoSuchNode`; `Down`; then the refusal of the payer.
    pub fn change_plan<R: Wait>(
        &self,
        rt: &R,
        payer: u16,
        product: &[u8],
        price: Option<u32>,
    ) -> Result<(), Fault>
        ensures { RefusesAbsent self.now (Payer payer) result }
    {
        let node = Node::Payer(payer);
        self.there(node)?;
        let product = Octets::copy_of(self.hall.alloc(), product)?;
        self.call(rt, node, Call::Plan { product, price })
    }

    /// What is known of a request for which the till has a receipt: the answer that was heard, or else the one that the
    /// pharmacy's journal has, which is heard by this. Once told, it is the same bytes ever after.
    ///
    /// # Errors
    /// `NotThisTill` where the till has no receipt with this number. The till is then as it was, and so it is where
    /// memory is refused.
    pub fn status<R: Wait>(
        &self,
        rt: &R,
        till: &mut Till,
        number: u64,
    ) -> Result<Status, StatusFault>
        ensures not_this { (result ≡ Err NotThisTill) ↔ (has_receipt number (till_seen till.old) ≡ false) }
        ensures heard { IfOk result (λ status. till_seen till.new ≡ after_telling number (till_seen till.old) status) }
        ensures again { IfOk result (λ status. ToldAgain number (till_seen till.old) (told status)) }
        ensures same { OnErr result (till_seen till.new ≡ till_seen till.old) }
    {
        if !till.has(number) {
            return Err(StatusFault::NotThisTill);
        }
        match self.known(rt, till, number)? {
            Some(answer) => Ok(tell(till, number, answer)?),
            None => Ok(Status::Open),
        }
    }

    /// Closes the inboxes, waits for the workers' end, and judges the logs behind the locks by the receipts and answers of
    /// these tills. All tills of this system are handed in, and its workers.
    ///
    /// # Errors
    /// Those of `judge`, of the logs that the refusal carries. The system has ended then all the same.
    pub fn finish<R: Threads + Wait>(
        self,
        rt: &R,
        workers: Workers,
        tills: &[Till],
    ) -> Result<Finished, FinishFault>
        ensures ok { IfOk result (λ f. IsRun self (tills_seen tills.now) f f.logs.items) }
        ensures refused { IfErr result (λ why. IsCause self (logs_in why) (tills_seen tills.now) why) }
    {
        let System { hall } = self;
        let alloc = hall.alloc();
        hall.close(rt);
        workers.join(rt);
        let (shared, nodes) = last_owner(rt, hall).into_nodes()?;
        judged(alloc, &shared, nodes, tills)
    }

    /// The station of a node.
    fn there(&self, node: Node) -> Result<&Station, Fault>
        ensures there { is_ok result ≡ is_there (settings_seen self.now) (node_seen node) }
        ensures fault { IfErr result (λ fault. fault ≡ absent) }
    {
        match self.hall.station(node) {
            Some(station) => Ok(station),
            None => Err(Fault::Refused(Refusal::NoSuchNode)),
        }
    }

    /// Makes a call on a node, and sends on what the node sends.
    fn call<R: Wait>(&self, rt: &R, node: Node, call: Call) -> Result<(), Fault>
        ensures { RefusesAbsent self.now (node_seen node) result }
    {
        let station = self.there(node)?;
        let sent = station.call(rt, self.hall.alloc(), call)?;
        self.hall.send(rt, station, sent);
        Ok(())
    }

    /// The answer that a till has heard for a number, or else the one that its pharmacy's journal has.
    fn known<R: Wait>(&self, rt: &R, till: &Till, number: u64) -> Result<Option<Octets>, AllocError>
        ensures { IfOk result (λ known. ToldAgain number (till_seen till.now) known) }
    {
        match till.answer(number) {
            Some(answer) => Ok(Some(Octets::copy_of(self.hall.alloc(), answer)?)),
            None => self.answer(rt, till.pharmacy(), number),
        }
    }

    /// The answer that a pharmacy's journal has for a number.
    fn answer<R: Wait>(
        &self,
        rt: &R,
        pharmacy: u16,
        number: u64,
    ) -> Result<Option<Octets>, AllocError> {
        let Some(station) = self.hall.station(Node::Pharmacy(pharmacy)) else {
            return Ok(None);
        };
        let Some(id) = TxnId::new(pharmacy, number) else {
            return Ok(None);
        };
        station.post().lock(rt).answer(self.hall.alloc(), id)
    }
}
