//! The links from one node to the others, and what they do to its packets.

use crate::inbox::{Inbox, Pass};
use crate::treatment::Treatment;
use std::alloc::{AllocError, Global};
use std::sync::Wait;
use world_setup::{Action, Node, Packet};

/// The link from a node to another, with a pass of that node's inbox.
#[derive(Drop)]
pub(crate) struct Link {
    to: Node,
    treatment: Treatment,
    pass: Pass,
}

/// The links from one node. A link is made for the first packet, or for its faults.
#[derive(Drop)]
pub(crate) struct Links {
    alloc: Global,
    list: Vec<Link>,
}

impl Link {
    /// Treats a packet, and puts what arrives of it into the inbox. What the inbox does not take is lost.
    fn carry<R: Wait>(&mut self, rt: &R, inbox: &Inbox, packet: Packet) {
        let arriving = self.treatment.treat(packet);
        put(rt, inbox, &mut self.pass, arriving.first);
        put(rt, inbox, &mut self.pass, arriving.second);
        put(rt, inbox, &mut self.pass, arriving.let_go);
    }
}

/// Puts a packet, where there is one. What the inbox does not take is lost.
fn put<R: Wait>(rt: &R, inbox: &Inbox, pass: &mut Pass, packet: Option<Packet>) {
    if let Some(packet) = packet {
        let _lost = inbox.put(rt, pass, packet);
    }
}

impl Links {
    /// No links yet.
    pub(crate) fn new(alloc: Global) -> Links {
        Links {
            alloc,
            list: Vec::new(alloc),
        }
    }

    /// Treats a packet on its link, and puts what arrives of it into the inbox, which is its addressee's. Where memory for
    /// the link is refused the packet is lost.
    pub(crate) fn carry<R: Wait>(&mut self, rt: &R, inbox: &Inbox, packet: Packet) {
        let Ok(place) = self.place(rt, inbox, packet.to) else {
            return;
        };
        if let Some(link) = self.list.get_mut(place) {
            link.carry(rt, inbox, packet);
        }
    }

    /// Adds actions at the end of those of a link. The inbox is that of the node at its end.
    pub(crate) fn add_actions<R: Wait>(
        &mut self,
        rt: &R,
        inbox: &Inbox,
        to: Node,
        actions: &[Action],
    ) -> Result<(), AllocError> {
        let place = self.place(rt, inbox, to)?;
        match self.list.get_mut(place) {
            Some(link) => link.treatment.add_actions(actions),
            None => Ok(()),
        }
    }

    /// The place of the link to a node, which is made where there is none.
    fn place<R: Wait>(&mut self, rt: &R, inbox: &Inbox, to: Node) -> Result<usize, AllocError> {
        let found = self.list.iter().position(|link| link.to == to);
        if let Some(place) = found {
            return Ok(place);
        }
        let pass = inbox.pass(rt)?;
        let place = self.list.len();
        self.list.push(Link {
            to,
            treatment: Treatment::new(self.alloc),
            pass,
        })?;
        Ok(place)
    }
}
