//! Which logs are worth a try.

ghost use Rattle.std.specs.Prelude.{◌≡◌, ◌<◌, length, IfSome};

use crate::taken::id_of;
use envelope::{Kind, TxnId};
use octets::Octets;
use std::alloc::{AllocError, Global};
use std::collections::HashMap;
use world_setup::Sent;

/// The logs whose next call may be possible by now: all at first, and then each whose node has made a call, or which waited for what
/// was then submitted or decided. A log whose next call is a stop comes last of all, since a node at rest is slow to be asked.
/// Every other log has been tried, and waits.
#[derive(Drop)]
pub(crate) struct Woken {
    /// The places of logs to be tried, the last first.
    awake: Vec<usize>,
    /// Those of logs whose next call is a stop.
    stopping: Vec<usize>,
    /// The place of the log that waits for the request of a transaction.
    requests: HashMap<TxnId, usize>,
    /// And for the answer to it.
    answers: HashMap<TxnId, usize>,
}

impl Woken {
    /// All of so many logs.
    pub(crate) fn all(alloc: Global, logs: usize) -> Result<Woken, AllocError> {
        Ok(Woken {
            awake: (0..logs).collect(alloc)?,
            stopping: Vec::new(alloc),
            requests: HashMap::new(alloc),
            answers: HashMap::new(alloc),
        })
    }

    /// The place of the log that is tried next, which is then asleep.
    pub(crate) fn next(&mut self) -> Option<usize>
        ensures { IfSome result (λ _. length self.new.awake.items < length self.old.awake.items) }
    {
        self.awake.pop()
    }

    /// The place of a log whose next call is a stop.
    pub(crate) fn next_stopping(&mut self) -> Option<usize>
        ensures { IfSome result (λ _. length self.new.stopping.items < length self.old.stopping.items) }
    {
        self.stopping.pop()
    }

    /// Puts a log off whose next call is a stop.
    pub(crate) fn put_off(&mut self, place: usize) -> Result<(), AllocError>
        ensures { self.new.awake ≡ self.old.awake }
    {
        self.stopping.push(place)?;
        Ok(())
    }

    /// A log waits until what its next packet has is submitted or decided.
    pub(crate) fn wait(&mut self, place: usize, packet: &Octets) -> Result<(), AllocError>
        ensures awake { self.new.awake ≡ self.old.awake }
        ensures stopping { self.new.stopping ≡ self.old.stopping }
    {
        if let Some(id) = id_of(packet, Kind::Request) {
            return put(&mut self.requests, id, place);
        }
        if let Some(id) = id_of(packet, Kind::Answer) {
            return put(&mut self.answers, id, place);
        }
        Ok(())
    }

    /// Wakes the log at this place, and those that wait for what was sent.
    pub(crate) fn wake(&mut self, place: usize, sent: &[Sent]) -> Result<(), AllocError> {
        for one in sent {
            if let Some(id) = id_of(&one.bytes, Kind::Request) {
                wake_one(&mut self.awake, &mut self.requests, id)?;
            }
            if let Some(id) = id_of(&one.bytes, Kind::Answer) {
                wake_one(&mut self.awake, &mut self.answers, id)?;
            }
        }
        self.awake.push(place)?;
        Ok(())
    }
}

/// Notes that the log at a place waits for this.
fn put(waits: &mut HashMap<TxnId, usize>, id: TxnId, place: usize) -> Result<(), AllocError> {
    waits.insert(id, place)?;
    Ok(())
}

/// Wakes the log that waits for this.
fn wake_one(
    awake: &mut Vec<usize>,
    waits: &mut HashMap<TxnId, usize>,
    id: TxnId,
) -> Result<(), AllocError> {
    match waits.remove(&id) {
        Some(place) => awake.push(place)?,
        None => {}
    }
    Ok(())
}
