//! Opening the packets that a node takes.

ghost use Rattle.std.specs.Prelude.{◌≡◌, IfOk};
ghost use Rattle.envelope.specs.Envelope.{envelope_text};
ghost use Rattle.bin_routes.specs.Table.{RouteMaps};
ghost use Rattle.claim_model.specs.Bytes.{bytes_with, envelope_in};
ghost use Rattle.claim_model.specs.Readable.{is_request};
ghost use Rattle.switch_node.specs.Sent.{content};

use claim_model::envelopes_know_no_place;
use envelope::{Envelope, EnvelopeFault, Kind};
use octets::Octets;

/// The envelope that a packet is, wherever it stands in memory.
pub fn read_envelope(packet: &Octets) -> Result<Envelope<'_>, EnvelopeFault>
    ensures read { (routes : RouteMaps) → (bytes_with routes).read_envelope packet.now ≡ envelope_in result }
    ensures text { IfOk result (λ e. packet.now ≡ envelope_text e.kind e.id e.payload) }
{
    envelopes_know_no_place();
    Envelope::read(packet.as_slice())
}

/// Whether an envelope is that of a request.
pub fn is_request(envelope: &Envelope<'_>) -> bool
    ensures { result ≡ is_request (content envelope.now) }
{
    match envelope.kind() {
        Kind::Request => true,
        Kind::Answer => false,
    }
}
