//! The packets of a run.

ghost use Rattle.std.specs.Prelude.{◌≡◌, map, slice_get, OnOk};
ghost use Rattle.bin_routes.specs.Table.{RouteMaps};
ghost use Rattle.claim_model.specs.Bytes.{bytes_with, envelope_in};
ghost use Rattle.world_setup.specs.Seen.{packet_seen};
ghost use Rattle.table_text.specs.Adding.{AddsRow};
ghost use Rattle.log_audit.specs.Adding.{TellsRow, TellsRows};
ghost use Rattle.log_audit.specs.Packets.{packet_rows, sent_row, packet_row, loaded_row, carried_seen, load_of, kind_word};
ghost use Rattle.log_audit.specs.Outgoing.{TellsPut};

use crate::outgoing::{Outgoing, TextSink};
use crate::tables::kinds::node_field;
use claim_model::envelopes_know_no_place;
use envelope::{Envelope, EnvelopeFault, Kind};
use std::alloc::AllocError;
use table_text::{Field, Style, put_row};
use world_setup::Packet;

/// Appends a row for each packet, with the event that sent it.
pub(crate) fn put_packets<K: TextSink + Drop>(
    out: &mut Outgoing<K>,
    style: Style,
    packets: &[Packet],
    senders: &[u64],
) -> Result<(), AllocError>
    ensures { TellsPut style out.old out.new
        (λ ctx. packet_rows ctx (map packet_seen packets.now) senders.now) result }
{
    let mut row = out.piece();
    for (place, packet) in packets.iter().enumerate() {
        row.clear();
        put_sent(
            &mut row,
            style,
            place as u64 + 1,
            sender_at(senders, place),
            packet,
        )?;
        out.put(row.as_slice())?;
    }
    Ok(())
}

/// The event that sent the packet at a place.
fn sender_at(senders: &[u64], place: usize) -> Option<u64>
    ensures { result ≡ slice_get senders.now place }
{
    senders.get(place).copied()
}

/// Appends the row of a packet, where the event that sent it is told.
#[tactic(auto, using(crate::proofs::Joining::no_rows))]
fn put_sent(
    out: &mut Vec<u8>,
    style: Style,
    number: u64,
    sender: Option<u64>,
    packet: &Packet,
) -> Result<(), AllocError>
    ensures { TellsRows style out.old out.new (λ ctx. sent_row ctx number (packet_seen packet.now) sender) result }
{
    match sender {
        Some(event) => put_packet(out, style, number, event, packet),
        None => Ok(()),
    }
}

/// Appends the row of a packet.
fn put_packet(
    out: &mut Vec<u8>,
    style: Style,
    number: u64,
    event: u64,
    packet: &Packet,
) -> Result<(), AllocError>
    ensures { TellsRow style out.old out.new (λ ctx. packet_row ctx number event (packet_seen packet.now)) result }
{
    let carried = carried_in(packet.bytes.as_slice());
    put_loaded(out, style, number, event, packet, &carried)
}

/// Appends the row of a packet that carries this.
#[tactic(auto, unfolding(crate::specs::Packets::loaded_row))]
fn put_loaded(
    out: &mut Vec<u8>,
    style: Style,
    number: u64,
    event: u64,
    packet: &Packet,
    carried: &Carried,
) -> Result<(), AllocError>
    ensures { OnOk result (AddsRow style out.old out.new
        (loaded_row number event (packet_seen packet.now) (carried_seen carried.now))) }
{
    let fields = [
        Field::number(b"packet", number),
        Field::number(b"event", event),
        node_field(b"from", packet.from),
        node_field(b"to", packet.to),
        Field::word(b"carries", carried.kind),
        Field::number_or_nothing(b"pharmacy", carried.pharmacy),
        Field::number_or_nothing(b"number", carried.number),
        Field::text(b"bytes", packet.bytes.as_slice()),
    ];
    put_row(out, style, &fields)
}

/// What a packet carries: the request or the answer of which transaction; nothing, where it is no envelope.
#[derive(Clone, Copy)]
pub(crate) struct Carried {
    pub(crate) kind: &'static [u8],
    pub(crate) pharmacy: Option<u64>,
    pub(crate) number: Option<u64>,
}

/// What a packet carries.
pub(crate) fn carried_in(bytes: &[u8]) -> Carried
    ensures { (routes : RouteMaps) → carried_seen result ≡ load_of ((bytes_with routes).read_envelope bytes.now) }
{
    match opened(bytes) {
        Ok(envelope) => {
            let id = envelope.id();
            Carried {
                kind: kind_word(envelope.kind()),
                pharmacy: Some(u64::from(id.pharmacy())),
                number: Some(id.number()),
            }
        }
        Err(_) => Carried {
            kind: b"",
            pharmacy: None,
            number: None,
        },
    }
}

/// The envelope that bytes are, wherever they stand in memory.
pub(crate) fn opened(bytes: &[u8]) -> Result<Envelope<'_>, EnvelopeFault>
    ensures { (routes : RouteMaps) → (bytes_with routes).read_envelope bytes.now ≡ envelope_in result }
{
    envelopes_know_no_place();
    Envelope::read(bytes)
}

/// Whether an envelope has a request or an answer.
fn kind_word(kind: Kind) -> &'static [u8]
    ensures { result.now ≡ kind_word kind }
{
    match kind {
        Kind::Request => b"request",
        Kind::Answer => b"answer",
    }
}
