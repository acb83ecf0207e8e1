//! Ordering the calls of logs, one enabled call after another.

ghost use Rattle.std.specs.Prelude.{◌≡◌, ◌==◌, [], length, map, true, IfOk, IfSome, OnOk};
ghost use Rattle.std.specs.List.{list_all};
ghost use Rattle.world_setup.specs.Seen.{packet_seen};
ghost use Rattle.run_merge.specs.Naming.{all_distinct, calls_of};
ghost use Rattle.run_merge.specs.Line.{IsPlaced, Steps};
ghost use Rattle.node_log.specs.LogSeen.{logs_seen};
ghost use Rattle.run_merge.specs.Orders.{order_seen};
ghost use Rattle.run_merge.specs.Found.{IsTurn, TurnIn, OrderOf};

use crate::known::MergedRun;
use crate::line::Line;
use crate::posted::Posted;
use crate::woken::Woken;
use node_log::NodeLog;
use std::alloc::{AllocError, Global};
use world_setup::Event;

/// An order in the making: what is left of each log, the packets that were sent, and the events so far.
#[derive(Drop)]
pub(crate) struct Order<'a> {
    lines: Vec<Line<'a>>,
    posted: Posted<'a>,
    events: Vec<Event>,
    woken: Woken,
}

/// The place of a log, and the event that makes its next call.
#[derive(Drop)]
struct Turn {
    place: usize,
    event: Event,
}

/// An order of all calls of the logs, each placed when a packet that it takes was sent; none where there is no such order.
pub(crate) fn in_order<'a>(
    alloc: Global,
    logs: &'a [NodeLog],
) -> Result<Option<Order<'a>>, AllocError>
    requires { all_distinct (logs_seen logs.now) ≡ true }
    ensures { IfOk result (λ o. OrderOf (calls_of (logs_seen logs.now)) o) }
{
    let mut order = Order::new(alloc, logs)?;
    while order.step()? {}
    if order.is_done() {
        Ok(Some(order))
    } else {
        Ok(None)
    }
}

impl<'a> Order<'a> {
    /// The order of no event: all calls are left.
    fn new(alloc: Global, logs: &'a [NodeLog]) -> Result<Order<'a>, AllocError>
        ensures { IfOk result (λ o. order_seen o ≡ record { lines = logs_seen logs.now; packets = []; events = [] }) }
    {
        let mut lines = Vec::new(alloc);
        for log in logs {
            lines.push(Line::whole(log))?;
        }
        Ok(Order {
            lines,
            posted: Posted::new(alloc),
            events: Vec::new(alloc),
            woken: Woken::all(alloc, logs)?,
        })
    }

    /// Its events, and the packets that they send, in memory of their own.
    pub(crate) fn into_run(self, alloc: Global) -> Result<MergedRun, AllocError>
        ensures events { IfOk result (λ r. r.events.items ≡ self.entry.events.items) }
        ensures packets { IfOk result (λ r. map packet_seen r.packets.items ≡ self.entry.posted) }
    {
        let Order {
            lines: _,
            posted,
            events,
            woken: _,
        } = self;
        let packets = posted.packets(alloc)?;
        Ok(MergedRun { events, packets })
    }

    /// Its events.
    pub(crate) fn into_events(self) -> Vec<Event>
        ensures { result ≡ self.entry.events }
    {
        self.events
    }

    /// Places one call, if an event makes the next call of any log.
    fn step(&mut self) -> Result<bool, AllocError>
        ensures { IfOk result (λ yes. Steps yes (order_seen self.old) (order_seen self.new)) }
    {
        match self.turn()? {
            Some(turn) => {
                self.place(turn)?;
                Ok(true)
            }
            None => Ok(false),
        }
    }

    /// A log whose next call an event makes: the first that is found among those that are awake. When they are used up, each
    /// log is looked at once more, so that none is left which goes on, whatever was woken.
    fn turn(&mut self) -> Result<Option<Turn>, AllocError>
        ensures same { order_seen self.new ≡ order_seen self.old }
        ensures turn { IfOk result (λ o. TurnIn self.new o) }
    {
        while let Some(place) = self.woken.next() {
            match self.turn_at(place)? {
                Some(turn) => return Ok(Some(turn)),
                None => {}
            }
        }
        self.first_turn()
    }

    /// The event that makes the next call of the log at a place, where there is one.
    fn turn_at(&self, place: usize) -> Result<Option<Turn>, AllocError>
        ensures { IfOk result (λ o. IfSome o (λ t. IsTurn self.now t)) }
    {
        match self.lines.get(place) {
            Some(line) => match line.next(&self.posted)? {
                Some(event) => Ok(Some(Turn { place, event })),
                None => Ok(None),
            },
            None => Ok(None),
        }
    }

    /// The first log whose next call an event makes.
    fn first_turn(&self) -> Result<Option<Turn>, AllocError>
        ensures { IfOk result (λ o. TurnIn self.now o) }
    {
        for (place, line) in self.lines.iter().enumerate() {
            match line.next(&self.posted)? {
                Some(event) => return Ok(Some(Turn { place, event })),
                None => {}
            }
        }
        Ok(None)
    }

    /// Places the next call of a log, which an event makes.
    fn place(&mut self, turn: Turn) -> Result<(), AllocError>
        requires { IsTurn self.old turn }
        ensures { OnOk result (IsPlaced (order_seen self.old) (order_seen self.new)) }
    {
        let Turn { place, event } = turn;
        let line = &self.lines[place];
        let node = line.node;
        let left = line.left;
        let after = line.rest();
        let sent = left[0].sent();
        self.posted.post(node, sent)?;
        self.events.push(event)?;
        self.woken.wake(place, sent)?;
        self.lines[place] = after;
        Ok(())
    }

    /// Whether no call is left.
    fn is_done(&self) -> bool
        ensures { result ≡ list_all (λ line. length line.left.now == 0) self.now.lines.items }
    {
        self.lines.iter().all(|line| line.left.is_empty())
    }
}
