//! Inboxes, alone and between threads, and the places that they count.

use crate::threads::requests::numbered;
use crate::threads::words::{count_and_rest, read_number};
use case_files::{CaseFile, Runner, Told};
use input_text::{Lines, split_word};
use node_threads::{Inbox, Mail, Pass, Places, PutFault};
use octets::Octets;
use std::alloc::{AllocError, Global};
use std::sync::Wait;
use std::thread;
use std::thread::Threads;
use world_setup::{Node, Packet};

/// Runs rows about inboxes.
pub(crate) fn run<T: Threads + Wait + Sync>(
    rt: &T,
    runner: &mut Runner,
    file: &CaseFile,
) -> Result<(), AllocError> {
    let mut inboxes = Inboxes {
        open: None,
        places: Places::new(1),
    };
    run_rows(rt, runner, file, &mut inboxes)
}

/// Runs all rows of a file.
fn run_rows<T: Threads + Wait + Sync>(
    rt: &T,
    runner: &mut Runner,
    file: &CaseFile,
    inboxes: &mut Inboxes,
) -> Result<(), AllocError> {
    let alloc = runner.alloc();
    for line in Lines::new(file.bytes()) {
        if let Some(row) = runner.row(file, line)? {
            inboxes.tell(rt, runner.told(), alloc, row.word(), row.argument());
            runner.compare(file, line.number, &row)?;
        }
    }
    runner.end(file)
}

/// One inbox, and places without packets.
#[derive(Drop)]
struct Inboxes {
    open: Option<Opened>,
    places: Places,
}

/// An inbox, with a pass for who puts and one for who takes.
#[derive(Drop)]
struct Opened {
    inbox: Inbox,
    sender: Pass,
    worker: Pass,
}

impl Inboxes {
    /// Tells what comes of a row.
    fn tell<T: Threads + Wait + Sync>(
        &mut self,
        rt: &T,
        told: &mut Told,
        alloc: Global,
        word: &str,
        argument: &[u8],
    ) {
        match word {
            "places" => self.set_places(told, argument),
            "enter" => self.enter(told),
            "closed" => told.truth(self.places.closed()),
            "leave" => self.leave(told),
            "shut" => told.truth(self.places.close()),
            "free" => told.shown(self.places.cap().saturating_sub(self.places.taken())),
            "exchange" => exchange(rt, told, alloc, argument),
            "open" => self.open(rt, told, alloc, argument),
            _ => match &mut self.open {
                Some(open) => open.tell(rt, told, alloc, word, argument),
                None => told.refuse(),
            },
        }
    }

    /// Begins with this many places, all of them free.
    fn set_places(&mut self, told: &mut Told, argument: &[u8]) {
        match read_number(argument) {
            Some(cap) => {
                self.places = Places::new(cap as usize);
                told.word("ok");
            }
            None => told.refuse(),
        }
    }

    /// Takes a place.
    fn enter(&mut self, told: &mut Told) {
        match self.places.enter() {
            Ok(()) => told.word("ok"),
            Err(fault) => told.named(fault),
        }
    }

    /// Gives a place back.
    fn leave(&mut self, told: &mut Told) {
        self.places.leave();
        told.word("ok");
    }

    /// Opens an inbox of this many places.
    fn open<T: Wait>(&mut self, rt: &T, told: &mut Told, alloc: Global, argument: &[u8]) {
        self.open = match read_number(argument) {
            Some(cap) => inbox_with_passes(rt, alloc, cap as usize),
            None => None,
        };
        told.word(if self.open.is_some() { "ok" } else { "none" });
    }
}

/// An inbox of this many places with its passes.
fn inbox_with_passes<T: Wait>(rt: &T, alloc: Global, cap: usize) -> Option<Opened> {
    match inbox_of(alloc, cap) {
        Some(inbox) => with_passes(rt, inbox),
        None => None,
    }
}

/// An inbox with its passes.
fn with_passes<T: Wait>(rt: &T, inbox: Inbox) -> Option<Opened> {
    match (inbox.pass(rt), inbox.pass(rt)) {
        (Ok(sender), Ok(worker)) => Some(Opened {
            inbox,
            sender,
            worker,
        }),
        _ => None,
    }
}

impl Opened {
    /// Tells what comes of one call.
    fn tell<T: Wait>(
        &mut self,
        rt: &T,
        told: &mut Told,
        alloc: Global,
        word: &str,
        argument: &[u8],
    ) {
        match word {
            "put" => match packet_of(alloc, argument) {
                Some(packet) => self.put(rt, told, packet),
                None => told.refuse(),
            },
            "take" => match self.inbox.take(rt, &mut self.worker) {
                Mail::Packet(packet) => tell_packet(told, &packet),
                Mail::End => told.word("end"),
            },
            "close" => {
                self.inbox.close(rt, &mut self.sender);
                told.word("ok");
            }
            "renew" => self.renew(rt, told),
            _ => told.refuse(),
        }
    }

    /// Puts a packet.
    fn put<T: Wait>(&mut self, rt: &T, told: &mut Told, packet: Packet) {
        match self.inbox.put(rt, &mut self.sender, packet) {
            Ok(()) => told.word("ok"),
            Err(fault) => {
                told.word(match &fault {
                    PutFault::Full(_) => "full",
                    PutFault::Closed(_) => "closed",
                });
                tell_packet(told, &fault.into_packet());
            }
        }
    }

    /// Gives a pass back for another one.
    fn renew<T: Wait>(&mut self, rt: &T, told: &mut Told) {
        match self.inbox.pass(rt) {
            Ok(pass) => {
                let old = std::mem::replace(&mut self.sender, pass);
                self.inbox.give_back(old);
                told.word("ok");
            }
            Err(_) => told.refuse(),
        }
    }
}

/// A packet of a pharmacy, whose number stands before its bytes.
fn packet_of(alloc: Global, argument: &[u8]) -> Option<Packet> {
    match split_word(argument) {
        Some((pharmacy, bytes)) => match (read_number(pharmacy), Octets::copy_of(alloc, bytes)) {
            (Some(pharmacy), Ok(bytes)) => Some(Packet {
                from: Node::Pharmacy(pharmacy),
                to: Node::Switch(1),
                bytes,
            }),
            _ => None,
        },
        None => None,
    }
}

/// Tells a packet.
fn tell_packet(told: &mut Told, packet: &Packet) {
    told.named(packet.from);
    told.named(packet.to);
    told.bytes(packet.bytes.as_slice());
}

/// Tells whether each packet is taken as often as it was put, where two threads put this many each and one takes.
fn exchange<T: Threads + Wait + Sync>(rt: &T, told: &mut Told, alloc: Global, argument: &[u8]) {
    match count_and_rest(argument) {
        Some((each @ 1..=1000, _)) => match exchanged(rt, alloc, each as u16) {
            Some(counts) => tell_counts(told, &counts),
            None => told.refuse(),
        },
        _ => told.refuse(),
    }
}

/// Tells how many packets there were, and whether each came once.
fn tell_counts(told: &mut Told, counts: &[u32]) {
    told.field("packets", counts.len());
    told.word(if counts.iter().all(|count| *count == 1) {
        "each-once"
    } else {
        "otherwise"
    });
}

/// How often each packet was taken that two threads put.
fn exchanged<T: Threads + Wait + Sync>(rt: &T, alloc: Global, each: u16) -> Option<Vec<u32>> {
    let all = (each as usize).saturating_mul(2);
    let inbox = inbox_of(alloc, all)?;
    let shared = &inbox;
    let ((first, second), counts) = thread::join(
        rt,
        || {
            thread::join(
                rt,
                || put_all(rt, alloc, shared, 1, each),
                || put_all(rt, alloc, shared, 2, each),
            )
        },
        || count_all(rt, alloc, shared, each, all),
    );
    if first && second { counts } else { None }
}

/// An inbox of this many places, where there may be one.
fn inbox_of(alloc: Global, cap: usize) -> Option<Inbox> {
    if cap == 0 || cap > 65_536 {
        return None;
    }
    Inbox::new(alloc, cap).ok()
}

/// Puts all packets of a pharmacy with a pass of its own, and says whether all were taken.
fn put_all<T: Wait>(rt: &T, alloc: Global, inbox: &Inbox, pharmacy: u16, each: u16) -> bool {
    match inbox.pass(rt) {
        Ok(mut pass) => {
            let all = put_each(rt, alloc, inbox, &mut pass, pharmacy, each);
            inbox.give_back(pass);
            all
        }
        Err(_) => false,
    }
}

/// Puts all packets of a pharmacy, and says whether all were taken.
fn put_each<T: Wait>(
    rt: &T,
    alloc: Global,
    inbox: &Inbox,
    pass: &mut Pass,
    pharmacy: u16,
    each: u16,
) -> bool {
    for number in 0..each {
        match numbered(alloc, pharmacy, number) {
            Some(packet) => {
                if inbox.put(rt, pass, packet).is_err() {
                    return false;
                }
            }
            None => return false,
        }
    }
    true
}

/// Takes this many packets with a pass of its own, and counts how often each came.
fn count_all<T: Wait>(
    rt: &T,
    alloc: Global,
    inbox: &Inbox,
    each: u16,
    packets: usize,
) -> Option<Vec<u32>> {
    match (Vec::from_elem(alloc, 0, packets), inbox.pass(rt)) {
        (Ok(mut counts), Ok(mut pass)) => {
            for _ in 0..packets {
                if let Mail::Packet(packet) = inbox.take(rt, &mut pass) {
                    count(&mut counts, place_of(&packet, each));
                }
            }
            inbox.give_back(pass);
            Some(counts)
        }
        _ => None,
    }
}

/// The place of a packet in a list of all that two pharmacies put.
fn place_of(packet: &Packet, each: u16) -> usize {
    let start = match packet.from {
        Node::Pharmacy(2) => each as usize,
        _ => 0,
    };
    let mut number = 0usize;
    for byte in packet.bytes.as_slice() {
        number = number.wrapping_mul(256).wrapping_add(*byte as usize);
    }
    start.wrapping_add(number)
}

/// Counts one more at a place, if it is there.
fn count(counts: &mut [u32], place: usize) {
    if let Some(count) = counts.get_mut(place) {
        *count = count.saturating_add(1);
    }
}
