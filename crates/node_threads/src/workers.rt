//! The workers of a running system: one thread for each node, which takes the packets from the node's inbox.

use crate::hall::Hall;
use crate::inbox::{Mail, Pass};
use crate::packets::packets;
use crate::starting::StartFault;
use crate::station::Station;
use std::alloc::{AllocError, Global};
use std::sync::{Arc, Wait};
use std::thread;
use std::thread::{JoinHandle, Threads};
use world_setup::{Call, Node, Packet};

/// What is called inside a node: by the node's worker, with the node's name, while it holds the node's lock and before the
/// step. A program's gate does nothing; a test's may count, or wait for another node.
pub trait Gate {
    /// The worker is inside this node.
    fn inside(&self, node: Node);
}

/// The threads of a running system. They stay with who started it, and `System::finish` joins them.
#[derive(Drop)]
pub struct Workers {
    threads: Vec<JoinHandle<()>>,
}

impl Workers {
    /// No threads yet.
    pub(crate) fn new(alloc: Global) -> Workers {
        Workers {
            threads: Vec::new(alloc),
        }
    }

    /// Starts a worker for each node.
    ///
    /// # Errors
    /// `NoThread`, or memory was refused. The workers before it go on then.
    pub(crate) fn start_each<R, G>(
        &mut self,
        rt: &R,
        hall: &Arc<Hall>,
        gate: &Arc<G>,
    ) -> Result<(), StartFault>
    where
        R: Threads + Wait + Copy + Send + 'static,
        G: Gate + Send + Sync + Drop + 'static,
    {
        let all = self.start_all(rt, hall, gate, hall.pharmacies())?
            && self.start_all(rt, hall, gate, hall.switches())?
            && self.start_all(rt, hall, gate, hall.payers())?;
        if all {
            Ok(())
        } else {
            Err(StartFault::NoThread)
        }
    }

    /// Starts a worker for each of these stations, and says whether all were started.
    fn start_all<R, G>(
        &mut self,
        rt: &R,
        hall: &Arc<Hall>,
        gate: &Arc<G>,
        stations: &[Station],
    ) -> Result<bool, AllocError>
    where
        R: Threads + Wait + Copy + Send + 'static,
        G: Gate + Send + Sync + Drop + 'static,
    {
        for station in stations {
            if !self.start(rt, hall, gate, station)? {
                return Ok(false);
            }
        }
        Ok(true)
    }

    /// Starts the worker of a station, and says whether there was a thread for it.
    fn start<R, G>(
        &mut self,
        rt: &R,
        hall: &Arc<Hall>,
        gate: &Arc<G>,
        station: &Station,
    ) -> Result<bool, AllocError>
    where
        R: Threads + Wait + Copy + Send + 'static,
        G: Gate + Send + Sync + Drop + 'static,
    {
        self.threads.reserve(1)?;
        let pass = station.inbox().pass(rt)?;
        let hall = Arc::try_clone(hall)?;
        let gate = Arc::try_clone(gate)?;
        match started(*rt, hall, gate, station.node(), pass) {
            Some(thread) => {
                self.threads.push_reserved(thread);
                Ok(true)
            }
            None => Ok(false),
        }
    }

    /// Waits until each thread has ended.
    pub(crate) fn join<R: Threads>(self, rt: &R) {
        let Workers { threads } = self;
        for thread in threads {
            thread.join(rt);
        }
    }
}

/// The thread of a node's worker, if one can be made.
fn started<R, G>(
    rt: R,
    hall: Arc<Hall>,
    gate: Arc<G>,
    node: Node,
    pass: Pass,
) -> Option<JoinHandle<()>>
where
    R: Threads + Wait + Copy + Send + 'static,
    G: Gate + Send + Sync + Drop + 'static,
{
    thread::spawn(&rt, move || work(&rt, &hall, &*gate, node, pass)).ok()
}

/// Takes packets from the inbox of a node until its end, and delivers each.
fn work<R: Wait, G: Gate>(rt: &R, hall: &Hall, gate: &G, node: Node, mut pass: Pass) {
    let Some(station) = hall.station(node) else {
        return;
    };
    for _ in rt.forever() {
        match station.inbox().take(rt, &mut pass) {
            Mail::Packet(packet) => deliver(rt, hall, gate, station, packet),
            Mail::End => break,
        }
    }
    station.inbox().give_back(pass);
}

/// Delivers a packet to a node, and sends on what the node sends. A packet that the node refuses is lost.
fn deliver<R: Wait, G: Gate>(rt: &R, hall: &Hall, gate: &G, station: &Station, packet: Packet) {
    let Packet { from, to: _, bytes } = packet;
    let sent = inside(rt, hall.alloc(), gate, station, Call::Take { from, bytes });
    if let Some(sent) = sent {
        hall.send(rt, station, sent);
    }
}

/// Makes a call on a node behind the gate, under the node's lock, and gives copies of the packets that it sent.
fn inside<R: Wait, G: Gate>(
    rt: &R,
    alloc: Global,
    gate: &G,
    station: &Station,
    call: Call,
) -> Option<Vec<Packet>> {
    let mut held = station.post().lock(rt);
    gate.inside(station.node());
    held.call(alloc, call).ok()?;
    Some(packets(alloc, &held))
}
