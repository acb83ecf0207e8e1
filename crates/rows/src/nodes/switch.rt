//! A switch, step by step.

use crate::arguments::{id_first, small};
use crate::nodes::routed;
use crate::telling::{refused, tell_id, tell_packet, tell_refused};
use bin_routes::Routes;
use case_files::{Subject, Told};
use envelope::{Envelope, Kind, write};
use std::alloc::Global;
use switch_node::{InFlight, Routed, Switch, SwitchSettings};

/// The switch that the steps are taken on, and its routes.
#[derive(Drop)]
pub(crate) struct Switches {
    switch: Option<Switch>,
    routes: Option<Routes>,
}

impl Subject for Switches {
    fn tell(&mut self, told: &mut Told, alloc: Global, word: &str, argument: &[u8]) {
        match word {
            "open" => self.open(told, alloc, argument),
            "restart" => self.restart(told, alloc),
            "route" => self.route(told, alloc, argument),
            _ => match (&mut self.switch, &self.routes) {
                (Some(switch), Some(routes)) => step(told, alloc, switch, routes, word, argument),
                _ => told.refuse(),
            },
        }
    }
}

impl Switches {
    /// No switch yet.
    pub(crate) fn new(alloc: Global) -> Switches {
        Switches {
            switch: None,
            routes: Routes::new(alloc, &[], 1).ok(),
        }
    }

    /// Opens a switch whose table has this many entries at most, and tells the cap of its settings.
    fn open(&mut self, told: &mut Told, alloc: Global, argument: &[u8]) {
        match small(argument) {
            Some(cap) => match SwitchSettings::new(cap) {
                Ok(settings) => self.begin(told, alloc, settings),
                Err(fault) => refused(told, fault),
            },
            None => told.refuse(),
        }
    }

    /// Opens a switch with settings, and tells the cap of the settings that it has.
    fn begin(&mut self, told: &mut Told, alloc: Global, settings: SwitchSettings) {
        let switch = Switch::new(alloc, settings);
        told.field("cap", switch.settings().cap());
        self.switch = Some(switch);
    }

    /// Stops the switch, and opens it with the settings that are left.
    fn restart(&mut self, told: &mut Told, alloc: Global) {
        match self.switch.take() {
            Some(switch) => self.begin(told, alloc, switch.stop()),
            None => told.refuse(),
        }
    }

    /// Makes one BIN the only one that is routed, to payer 1; or none at all.
    fn route(&mut self, told: &mut Told, alloc: Global, argument: &[u8]) {
        self.routes = match argument {
            b"nowhere" => Routes::new(alloc, &[], 1).ok(),
            bin => routed(alloc, bin),
        };
        match &self.routes {
            Some(_) => told.word("ok"),
            None => told.refuse(),
        }
    }
}

/// Takes a step on an open switch.
fn step(
    told: &mut Told,
    alloc: Global,
    switch: &mut Switch,
    routes: &Routes,
    word: &str,
    argument: &[u8],
) {
    match word {
        "request" => request(told, alloc, switch, routes, Kind::Request, argument),
        "request-of-answer" => request(told, alloc, switch, routes, Kind::Answer, argument),
        "response" => response(told, alloc, switch, Kind::Answer, argument),
        "response-of-request" => response(told, alloc, switch, Kind::Request, argument),
        "list" => list(told, switch),
        _ => told.refuse(),
    }
}

/// Hands the switch a packet of a kind as a request: `PHARMACY NUMBER TEXT`.
fn request(
    told: &mut Told,
    alloc: Global,
    switch: &mut Switch,
    routes: &Routes,
    kind: Kind,
    argument: &[u8],
) {
    match id_first(argument) {
        Some((id, text)) => match write(alloc, kind, id, text) {
            Ok(packet) => ask(told, switch, routes, packet.as_slice()),
            Err(_) => told.refuse(),
        },
        None => told.refuse(),
    }
}

/// Hands the switch a packet as a request.
fn ask(told: &mut Told, switch: &mut Switch, routes: &Routes, packet: &[u8]) {
    match Envelope::read(packet) {
        Ok(envelope) => match switch.request(routes, &envelope) {
            Ok(routed) => tell_routed(told, &routed),
            Err(fault) => tell_refused(told, fault),
        },
        Err(_) => told.refuse(),
    }
}

/// Tells where a request goes, and as which packet.
fn tell_routed(told: &mut Told, routed: &Routed) {
    match routed {
        Routed::Forward(payer, packet) => {
            told.word("to");
            told.field("payer", payer.get());
            tell_packet(told, packet.as_slice());
        }
        Routed::Answer(packet) => {
            told.word("back");
            tell_packet(told, packet.as_slice());
        }
    }
}

/// Hands the switch a packet of a kind as a response: `PHARMACY NUMBER TEXT`.
fn response(told: &mut Told, alloc: Global, switch: &mut Switch, kind: Kind, argument: &[u8]) {
    match id_first(argument) {
        Some((id, text)) => match write(alloc, kind, id, text) {
            Ok(packet) => respond(told, switch, packet.as_slice()),
            Err(_) => told.refuse(),
        },
        None => told.refuse(),
    }
}

/// Hands the switch a packet as a response, and tells the packet for the pharmacy.
fn respond(told: &mut Told, switch: &mut Switch, packet: &[u8]) {
    match Envelope::read(packet) {
        Ok(envelope) => match switch.response(&envelope) {
            Ok(sent) => {
                told.word("sent");
                tell_packet(told, sent.as_slice());
            }
            Err(fault) => tell_refused(told, fault),
        },
        Err(_) => told.refuse(),
    }
}

/// Tells how many entries the table has, and each of them, oldest first.
fn list(told: &mut Told, switch: &Switch) {
    told.field("len", switch.len());
    match switch.list() {
        Ok(list) => tell_list(told, switch, list.as_slice()),
        Err(_) => told.refuse(),
    }
}

/// Tells of each entry whether it is answered, and the answer that is held.
fn tell_list(told: &mut Told, switch: &Switch, list: &[InFlight]) {
    for entry in list {
        tell_id(told, entry.id);
        told.word(if entry.answered {
            "answered"
        } else {
            "waiting"
        });
        if let Some(answer) = switch.held(entry.id) {
            told.bytes(answer);
        }
    }
}
