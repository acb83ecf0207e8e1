//! The inbox of a node: a bounded queue that any thread with a pass puts packets into, and that the node's worker takes
//! them from.

ghost use Rattle.std.specs.Prelude.{◌≡◌, ◌<◌, ◌≤◌, ◌⊎◌, [], IfOk, IfErr, OnOk};
ghost use Rattle.node_threads.specs.declared.inbox.mail.Mail.TheVariants.{Packet as packet_mail, End};
ghost use Rattle.node_threads.specs.InboxMail.{packet_back};
ghost use Rattle.node_threads.specs.InboxRule.{traffic, Added, Removed};

use std::alloc::{AllocError, Global};
use std::sync::{Mutex, Wait};
use world_setup::Packet;

mod mail;
mod pass;
mod places;
mod rule;
mod traffic;

pub use mail::{Mail, PutFault};
pub use pass::Pass;
pub use places::{EnterFault, Places};
pub use traffic::Traffic;

/// The inbox of a node. What all passes put, passes given back included, is at every moment what they took and what is in
/// the queue, each as often (own). Every call that takes a pass is handed one of this inbox.
#[derive(Drop)]
pub struct Inbox {
    /// The pass that all others are made from. Nothing is put or taken with it.
    passes: Mutex<Pass>,
    /// The places behind a lock of their own, which no call holds while it waits for the queue.
    places: Mutex<Places>,
}

impl Inbox {
    /// An empty inbox with this many places for packets.
    ///
    /// # Errors
    /// Memory was refused.
    pub fn new(alloc: Global, cap: usize) -> Result<Inbox, AllocError>
        requires { (0 < cap) × (cap ≤ 65536) }
    {
        // The queue has room for the mark of the end after a packet in every place.
        let first = Pass::first(alloc, cap + 1)?;
        Ok(Inbox {
            passes: Mutex::new(first),
            places: Mutex::new(Places::new(cap)),
        })
    }

    /// A pass of this inbox, with which nothing was put or taken.
    ///
    /// # Errors
    /// Memory was refused.
    pub fn pass<R: Wait>(&self, rt: &R) -> Result<Pass, AllocError>
        ensures { IfOk result (λ pass. pass ≡ traffic [] []) }
    {
        self.passes.lock(rt).another()
    }

    /// Ends a pass. What was put and taken with it stays counted.
    pub fn give_back(&self, pass: Pass) {
        drop(pass);
    }

    /// Puts a packet at the back of the queue.
    ///
    /// # Errors
    /// `Full` where every place is taken, else `Closed` where the inbox was closed. The packet comes back.
    pub fn put<R: Wait>(&self, rt: &R, pass: &mut Pass, packet: Packet) -> Result<(), PutFault>
        ensures added { OnOk result (Added pass.old (packet_mail packet) pass.new) }
        ensures refused { IfErr result (λ fault. (packet_back fault ≡ packet) × (pass.new ≡ pass.old)) }
    {
        let entered = self.places.lock(rt).enter();
        match entered {
            Ok(()) => self.put_in_place(rt, pass, packet),
            Err(EnterFault::Full) => Err(PutFault::Full(packet)),
            Err(EnterFault::Closed) => Err(PutFault::Closed(packet)),
        }
    }

    /// Puts a packet whose place is taken, and gives the place back where the queue does not take the packet.
    fn put_in_place<R: Wait>(&self, rt: &R, pass: &mut Pass, packet: Packet) -> Result<(), PutFault>
        ensures added { OnOk result (Added pass.old (packet_mail packet) pass.new) }
        ensures refused { IfErr result (λ fault. (packet_back fault ≡ packet) × (pass.new ≡ pass.old)) }
    {
        let put = pass.put(rt, packet);
        if put.is_err() {
            self.places.lock(rt).leave();
        }
        put
    }

    /// Takes the mail at the front of the queue, and waits for it where there is none. The mark of the end is taken once:
    /// who takes on after it waits for ever.
    pub fn take<R: Wait>(&self, rt: &R, pass: &mut Pass) -> Mail
        ensures { Removed pass.old result pass.new }
    {
        let mail = pass.take(rt);
        if matches!(&mail, Mail::Packet(_)) {
            self.places.lock(rt).leave();
        }
        mail
    }

    /// Closes the inbox: the first call puts the mark of the end, and no packet is put from then on. A packet that took
    /// its place before may land after the mark, and stays in the queue.
    pub fn close<R: Wait>(&self, rt: &R, pass: &mut Pass)
        ensures { Added pass.old End pass.new ⊎ (pass.new ≡ pass.old) }
    {
        let first = self.places.lock(rt).close();
        if first {
            pass.end(rt);
        }
    }
}
