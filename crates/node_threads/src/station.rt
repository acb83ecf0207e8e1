//! One node of a running system: its post, its inbox, and the links from it.

ghost use Rattle.std.specs.Prelude.{◌≡◌, IsSome, IfOk, OnErr};
ghost use Rattle.std.specs.Arc.{arc_value};
ghost use Rattle.world_setup.specs.Seen.{node_seen};
ghost use Rattle.node_logged.specs.Setting.{opened};
ghost use Rattle.node_logged.specs.Tills.{with_receipt};
ghost use Rattle.node_logged.specs.TillSeen.{till_seen};

use crate::inbox::{Inbox, Pass};
use crate::links::Links;
use crate::packets::packets;
use crate::post::Post;
use node_logged::{Held, Till};
use std::alloc::{AllocError, Global};
use std::sync::{Arc, Mutex, Wait};
use world_setup::{Action, Call, CheckedSettings, Fault, Node, Packet, Refusal};

/// How many packets an inbox takes (own).
const INBOX_CAP: usize = 1024;

/// One node of a running system. Each part is behind a lock of its own; no call holds two of the locks of posts.
#[derive(Drop)]
pub(crate) struct Station {
    node: Node,
    post: Post,
    inbox: Inbox,
    /// A pass that is kept for closing the inbox, so that closing takes no memory.
    closing: Mutex<Pass>,
    links: Mutex<Links>,
}

impl Station {
    /// The node of this name as it opens, with an empty inbox and links that lose nothing.
    pub(crate) fn opening<R: Wait>(
        rt: &R,
        alloc: Global,
        shared: &Arc<CheckedSettings>,
        node: Node,
    ) -> Result<Station, AllocError>
        requires { IsSome (opened (arc_value shared.now) (node_seen node)) }
    {
        let post = Post::new(alloc, shared, node)?;
        let inbox = Inbox::new(alloc, INBOX_CAP)?;
        let closing = Mutex::new(inbox.pass(rt)?);
        Ok(Station {
            node,
            post,
            inbox,
            closing,
            links: Mutex::new(Links::new(alloc)),
        })
    }

    /// The node's name.
    pub(crate) fn node(&self) -> Node {
        self.node
    }

    /// The node and its log, behind their lock.
    pub(crate) fn post(&self) -> &Post {
        &self.post
    }

    /// The node's inbox.
    pub(crate) fn inbox(&self) -> &Inbox {
        &self.inbox
    }

    /// Makes a call on the node, and gives copies of the packets that it sent.
    pub(crate) fn call<R: Wait>(
        &self,
        rt: &R,
        alloc: Global,
        call: Call,
    ) -> Result<Vec<Packet>, Fault> {
        let mut held = self.post.lock(rt);
        held.call(alloc, call)?;
        Ok(packets(alloc, &held))
    }

    /// Submits a request at a pharmacy for a caller, and gives the number of its entry with copies of the packets that it
    /// sent. A till of another node finds none here.
    pub(crate) fn submit<R: Wait>(
        &self,
        rt: &R,
        alloc: Global,
        till: &mut Till,
        request: &[u8],
    ) -> Result<(u64, Vec<Packet>), Fault>
        ensures receipt { IfOk result (λ r. till_seen till.new ≡ with_receipt r.0 request.now (till_seen till.old)) }
        ensures same { OnErr result (till_seen till.new ≡ till_seen till.old) }
    {
        let mut held = self.post.lock(rt);
        if !held.is_of(Node::Pharmacy(till.pharmacy())) {
            return Err(Fault::Refused(Refusal::NoSuchNode));
        }
        let number = held.submit(alloc, till, request)?;
        Ok((number, packets(alloc, &held)))
    }

    /// Treats a packet on its link to the station of its addressee.
    pub(crate) fn carry<R: Wait>(&self, rt: &R, to: &Station, packet: Packet) {
        self.links.lock(rt).carry(rt, &to.inbox, packet);
    }

    /// Adds actions at the end of those of the link to another station.
    pub(crate) fn add_actions<R: Wait>(
        &self,
        rt: &R,
        to: &Station,
        actions: &[Action],
    ) -> Result<(), AllocError> {
        self.links
            .lock(rt)
            .add_actions(rt, &to.inbox, to.node, actions)
    }

    /// Closes the inbox.
    pub(crate) fn close<R: Wait>(&self, rt: &R) {
        self.inbox.close(rt, &mut self.closing.lock(rt));
    }

    /// The node and its log, where nobody else has the station any more.
    pub(crate) fn into_held(self) -> Held {
        let Station {
            node: _,
            post,
            inbox: _,
            closing: _,
            links: _,
        } = self;
        post.into_held()
    }
}
