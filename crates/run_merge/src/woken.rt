//! Which logs are worth a try.

ghost use Rattle.std.specs.Prelude.{◌<◌, length, IfSome};

use node_log::NodeLog;
use std::alloc::{AllocError, Global};
use std::collections::HashMap;
use world_setup::{Node, Sent};

/// The logs whose next call may be possible by now: all at first, and then those of nodes to which something was sent
/// or which have made a call. Every other log has been tried, and waits for a packet that was not sent yet.
#[derive(Drop)]
pub(crate) struct Woken {
    /// The place of the log of each node.
    places: HashMap<Node, usize>,
    /// The places of logs to be tried, the last first.
    awake: Vec<usize>,
}

impl Woken {
    /// All of these logs.
    pub(crate) fn all(alloc: Global, logs: &[NodeLog]) -> Result<Woken, AllocError> {
        let mut places = HashMap::new(alloc);
        let mut awake = Vec::new(alloc);
        for (place, log) in logs.iter().enumerate() {
            places.insert(log.node(), place)?;
            awake.push(place)?;
        }
        Ok(Woken { places, awake })
    }

    /// The place of the log that is tried next, which is then asleep.
    pub(crate) fn next(&mut self) -> Option<usize>
        ensures { IfSome result (λ _. length self.new.awake.items < length self.old.awake.items) }
    {
        self.awake.pop()
    }

    /// Wakes the log at this place, and those of the nodes to which this was sent.
    pub(crate) fn wake(&mut self, place: usize, sent: &[Sent]) -> Result<(), AllocError> {
        self.awake.push(place)?;
        for one in sent {
            match self.places.get(&one.to) {
                Some(place) => self.awake.push(*place)?,
                None => {}
            }
        }
        Ok(())
    }
}
