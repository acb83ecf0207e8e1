//! The passes of an inbox: with a pass a thread puts into the inbox and takes from it.

ghost use Rattle.std.specs.Prelude.{◌≡◌, ◌<◌, [], Some, IsSome, OnOk, IfOk, IfErr};
ghost use Rattle.std.specs.Bool.{OnTrue, OnFalse};
ghost use Rattle.crossbeam_channel.specs.Err.{try_send_message, IsOutOfMemory};
ghost use Rattle.node_threads.specs.declared.inbox.mail.Mail.TheVariants.{Packet as packet_mail, End};
ghost use Rattle.node_threads.specs.InboxMail.{packet_back, packet_in};
ghost use Rattle.node_threads.specs.InboxRule.{traffic, Added, Removed};

use crate::inbox::mail::{Mail, PutFault};
use crate::inbox::rule::{Adding, Beginning, Conservation, Removing};
use crate::inbox::traffic::Traffic;
use crossbeam_channel::{Pass as Seat, RuledReceiver, RuledSender, TrySendError, bounded_with};
use std::alloc::{AllocError, Global};
use std::marker::Model;
use std::sync::Wait;
use world_setup::Packet;

/// A pass of an inbox: both ends of its queue, and a seat at the rule that the queue is under. Contracts see it as what
/// was put and taken with it (own).
#[derive(Drop)]
pub struct Pass {
    sender: RuledSender<Mail, Traffic, Conservation>,
    receiver: RuledReceiver<Mail, Traffic, Conservation>,
    seat: Seat<Mail, Traffic>,
}

impl Model for Pass {
    ghost use Rattle.std.specs.Prelude.{◌≡◌};
    ghost use Rattle.crossbeam_channel.specs.Claims.{view as seen_by, IsSeatAt};
    ghost use Rattle.crossbeam_channel.specs.Ends.{sends_on, receives_on};
    ghost use Rattle.node_threads.specs.declared.inbox.traffic.Traffic.{Traffic};

    ghost Value = { Traffic };

    ghost view = { λ p. seen_by p.seat };

    ghost invariant = { λ p. IsSeatAt (sends_on p.sender) p.seat × (receives_on p.receiver ≡ sends_on p.sender) };
}

impl Pass {
    /// The first pass of a new queue with this much room.
    pub(super) fn first(alloc: Global, room: usize) -> Result<Pass, AllocError>
        requires { 0 < room }
        ensures { IfOk result (λ pass. pass ≡ traffic [] []) }
    {
        let (sender, receiver, seat) = bounded_with::<Mail, Traffic, Conservation, Global>(
            alloc, room,
        )?;
        Ok(Pass {
            sender,
            receiver,
            seat,
        })
    }

    /// Another pass of the same queue.
    pub(super) fn another(&mut self) -> Result<Pass, AllocError>
        ensures same { self.new ≡ self.old }
        ensures empty { IfOk result (λ pass. pass ≡ traffic [] []) }
    {
        let sender = self.sender.try_clone()?;
        let receiver = self.receiver.try_clone()?;
        let seat = self.sender.another::<Beginning>(&mut self.seat);
        Ok(Pass {
            sender,
            receiver,
            seat,
        })
    }

    /// Puts a packet at the back, unless the queue has no room.
    pub(super) fn put<R: Wait>(&mut self, rt: &R, packet: Packet) -> Result<(), PutFault>
        ensures added { OnOk result (Added self.old (packet_mail packet) self.new) }
        ensures refused { IfErr result (λ fault. (packet_back fault ≡ packet) × (self.new ≡ self.old)) }
    {
        match self
            .sender
            .try_send_as::<Adding, R>(rt, &mut self.seat, Mail::Packet(packet))
        {
            Ok(()) => Ok(()),
            Err(refused) => Err(refused_put(refused)),
        }
    }

    /// Puts the mark of the end at the back, and waits for the room where there is none.
    pub(super) fn end<R: Wait>(&mut self, rt: &R) -> bool
        ensures ended { OnTrue result (Added self.old End self.new) }
        ensures same { OnFalse result (self.new ≡ self.old) }
    {
        self.sender
            .send_as::<Adding, R>(rt, &mut self.seat, Mail::End)
            .is_ok()
    }

    /// Takes the mail at the front, and waits for it where there is none.
    pub(super) fn take<R: Wait>(&mut self, rt: &R) -> Mail
        ensures { Removed self.old result self.new }
    {
        for _ in rt.forever() {
            if let Ok(mail) = self.receiver.recv_as::<Removing, R>(rt, &mut self.seat) {
                return mail;
            }
        }
        unreachable!()
    }
}

/// The fault of a packet that the queue did not take.
fn refused_put(refused: TrySendError<Mail>) -> PutFault
    requires packet { IsSome (packet_in (try_send_message refused)) }
    requires memory { ¬ IsOutOfMemory refused }
    ensures { packet_in (try_send_message refused) ≡ Some (packet_back result) }
{
    match refused {
        TrySendError::Full(mail) => PutFault::Full(packet_of(mail)),
        TrySendError::Disconnected(mail) => PutFault::Closed(packet_of(mail)),
        TrySendError::OutOfMemory(_) => unreachable!(),
    }
}

/// The packet that the mail is.
fn packet_of(mail: Mail) -> Packet
    requires { IsSome (packet_in mail) }
    ensures { packet_in mail ≡ Some result }
{
    match mail {
        Mail::Packet(packet) => packet,
        Mail::End => unreachable!(),
    }
}
