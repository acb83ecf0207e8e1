//! Ordering the calls of logs, one vouched call after another.

ghost use Rattle.std.specs.Prelude.{◌≡◌, ◌==◌, length, true, false, IfOk, IfSome, IsTrue, MatchOption};
ghost use Rattle.std.specs.List.{list_all};
ghost use Rattle.claim_model.specs.Bytes.{bytes_with};
ghost use Rattle.node_log.specs.LogSeen.{logs_seen};
ghost use Rattle.run_merge.specs.Naming.{all_distinct};
ghost use Rattle.days_audit.specs.Orders.{AllWait, GoesAt, IsOrdered, Steps, is_done, order_seen};

use crate::days::Days;
use crate::line::Line;
use crate::live::Live;
use crate::taken::packet_of;
use crate::telling::put_wait;
use crate::woken::Woken;
use bin_routes::Routes;
use node_log::NodeLog;
use std::alloc::{AllocError, Global};
use vouched_runs::vouched_calls_go_on;

/// An order in the making: what is left of each log, the nodes as the calls so far have left them, and the places of the logs of these
/// calls.
#[derive(Drop)]
pub(crate) struct Order<'a> {
    lines: Vec<Line<'a>>,
    live: Live,
    placed: Vec<usize>,
    /// Whether a node did not make a call that was vouched for.
    broken: bool,
    woken: Woken,
}

/// An order of all calls of the logs from these nodes, each placed when it is vouched for; none where there is no such order, with
/// lines on the calls that nothing vouches for.
pub(crate) fn in_order(
    alloc: Global,
    routes: &Routes,
    live: Live,
    logs: &[NodeLog],
) -> Result<Days, AllocError>
    requires { all_distinct (logs_seen logs.now) ≡ true }
    ensures { IfOk result (λ days. IsOrdered (bytes_with routes.now) live (logs_seen logs.now) days) }
{
    vouched_calls_go_on();
    let mut order = Order::new(alloc, live, logs)?;
    while order.step(alloc, routes)? {}
    if order.is_done() {
        Ok(Days::Legal(order.placed.len() as u64))
    } else {
        Ok(Days::Not(order.waits(alloc, logs)?))
    }
}

impl<'a> Order<'a> {
    /// The order of no call: all are left.
    fn new(alloc: Global, live: Live, logs: &'a [NodeLog]) -> Result<Order<'a>, AllocError>
        ensures { IfOk result (λ o. order_seen o
            ≡ record { lines = logs_seen logs.now; live = live; placed = 0; broken = false }) }
    {
        let mut lines = Vec::new(alloc);
        for log in logs {
            lines.push(Line::whole(log))?;
        }
        Ok(Order {
            lines,
            live,
            placed: Vec::new(alloc),
            broken: false,
            woken: Woken::all(alloc, logs.len())?,
        })
    }

    /// Places one call, if what the nodes have vouches for the next call of any log.
    fn step(&mut self, alloc: Global, routes: &Routes) -> Result<bool, AllocError>
        ensures { IfOk result (λ yes. Steps (bytes_with routes.now) yes (order_seen self.old) (order_seen self.new)) }
    {
        match self.turn(alloc, routes)? {
            Some(place) => self.place(alloc, routes, place),
            None => Ok(false),
        }
    }

    /// A log whose next call is vouched for: the first that is found among those that are awake, and then among those whose nodes
    /// stop. When they are used up, each log is looked at once more, so that none is left which goes on, whatever was woken.
    fn turn(&mut self, alloc: Global, routes: &Routes) -> Result<Option<usize>, AllocError>
        ensures same { order_seen self.new ≡ order_seen self.old }
        ensures turn { IfOk result (λ o. MatchOption o (AllWait (bytes_with routes.now) (order_seen self.old))
            (λ place. GoesAt (bytes_with routes.now) (order_seen self.old) place)) }
    {
        if let Some(place) = self.awake_turn(alloc, routes)? {
            return Ok(Some(place));
        }
        if let Some(place) = self.stopping_turn(alloc, routes)? {
            return Ok(Some(place));
        }
        self.first_turn(alloc, routes)
    }

    /// Such a log among those that are awake.
    fn awake_turn(&mut self, alloc: Global, routes: &Routes) -> Result<Option<usize>, AllocError>
        ensures same { order_seen self.new ≡ order_seen self.old }
        ensures turn { IfOk result (λ o. IfSome o (λ place. GoesAt (bytes_with routes.now) (order_seen self.old) place)) }
    {
        while let Some(place) = self.woken.next() {
            if self.goes(alloc, routes, place)? {
                return Ok(Some(place));
            }
        }
        Ok(None)
    }

    /// Such a log among those whose nodes stop.
    fn stopping_turn(&mut self, alloc: Global, routes: &Routes) -> Result<Option<usize>, AllocError>
        ensures same { order_seen self.new ≡ order_seen self.old }
        ensures turn { IfOk result (λ o. IfSome o (λ place. GoesAt (bytes_with routes.now) (order_seen self.old) place)) }
    {
        while let Some(place) = self.woken.next_stopping() {
            if self.is_vouched(alloc, routes, place)? {
                return Ok(Some(place));
            }
        }
        Ok(None)
    }

    /// Whether the log at a place goes on now. Where it does not, it is put off, or waits.
    fn goes(&mut self, alloc: Global, routes: &Routes, place: usize) -> Result<bool, AllocError>
        ensures same { order_seen self.new ≡ order_seen self.old }
        ensures awake { self.new.woken.awake ≡ self.old.woken.awake }
        ensures turn { IfOk result (λ yes. IsTrue yes → GoesAt (bytes_with routes.now) (order_seen self.old) place) }
    {
        if self.stops(place) {
            self.woken.put_off(place)?;
            return Ok(false);
        }
        if self.is_vouched(alloc, routes, place)? {
            return Ok(true);
        }
        self.sleep(place)?;
        Ok(false)
    }

    /// Whether the next call of the log at a place is a stop.
    fn stops(&self, place: usize) -> bool {
        self.lines.get(place).is_some_and(|line| line.stops())
    }

    /// The log at a place waits for what its next packet has.
    fn sleep(&mut self, place: usize) -> Result<(), AllocError>
        ensures same { order_seen self.new ≡ order_seen self.old }
        ensures awake { self.new.woken.awake ≡ self.old.woken.awake }
    {
        let Some(line) = self.lines.get(place) else {
            return Ok(());
        };
        let Some(one) = line.next() else {
            return Ok(());
        };
        match packet_of(one.call()) {
            Some(packet) => self.woken.wait(place, packet),
            None => Ok(()),
        }
    }

    /// Whether the next call of the log at a place is vouched for.
    fn is_vouched(&self, alloc: Global, routes: &Routes, place: usize) -> Result<bool, AllocError>
        ensures { IfOk result (λ yes. IsTrue yes → GoesAt (bytes_with routes.now) (order_seen self.now) place) }
    {
        match self.lines.get(place) {
            Some(line) => line.is_vouched(alloc, routes, &self.live),
            None => Ok(false),
        }
    }

    /// The first log whose next call is vouched for.
    #[tactic(auto, using(crate::proofs::Placed::parts, crate::proofs::Placed::wait_next, crate::proofs::Placed::all_wait))]
    fn first_turn(&self, alloc: Global, routes: &Routes) -> Result<Option<usize>, AllocError>
        ensures { IfOk result (λ o. MatchOption o (AllWait (bytes_with routes.now) (order_seen self.now))
            (λ place. GoesAt (bytes_with routes.now) (order_seen self.now) place)) }
    {
        for (place, line) in self.lines.iter().enumerate() {
            if line.is_vouched(alloc, routes, &self.live)? {
                return Ok(Some(place));
            }
        }
        Ok(None)
    }

    /// Places the next call of a log, which is vouched for. Where the node does not make it, the order is broken.
    #[tactic(auto, using(crate::proofs::Placed::below, crate::proofs::Placed::placed_one))]
    fn place(&mut self, alloc: Global, routes: &Routes, place: usize) -> Result<bool, AllocError>
        requires { GoesAt (bytes_with routes.now) (order_seen self.old) place }
        ensures { IfOk result (λ yes. Steps (bytes_with routes.now) yes (order_seen self.old) (order_seen self.new)) }
    {
        let line = &self.lines[place];
        let node = line.node;
        let left = line.left;
        let after = line.rest();
        let one = &left[0];
        if !self.live.makes(alloc, routes, node, one)? {
            self.broken = true;
            return Ok(false);
        }
        self.placed.push(place)?;
        self.woken.wake(place, one.sent())?;
        self.lines[place] = after;
        Ok(true)
    }

    /// Whether each call was placed.
    #[tactic(auto, using(crate::proofs::Placed::done_lines))]
    fn is_done(&self) -> bool
        ensures { result ≡ is_done (order_seen self.now) }
    {
        !self.broken && self.none_left()
    }

    /// Whether no call is left.
    fn none_left(&self) -> bool
        ensures { result ≡ list_all (λ line. length line.left.now == 0) self.now.lines.items }
    {
        self.lines.iter().all(|line| line.left.is_empty())
    }

    /// The lines on the calls that nothing vouches for.
    fn waits(&self, alloc: Global, logs: &[NodeLog]) -> Result<Vec<u8>, AllocError> {
        let mut out = Vec::new(alloc);
        for (place, line) in self.lines.iter().enumerate() {
            if let Some(log) = logs.get(place) {
                put_wait(&mut out, log, line.left)?;
            }
        }
        Ok(out)
    }
}
