//! The call that an event asks of a node, with its texts lent: a packet that is delivered is not copied.

ghost use Rattle.std.specs.Prelude.{◌≡◌, map, option_map};
ghost use Rattle.claim_model.specs.Numbered.{numbered};
ghost use Rattle.claim_model.specs.Nodes.{asked, taking, adjudicating};
ghost use Rattle.world_setup.specs.Seen.{packet_seen, event_seen};
ghost use Rattle.world_core.specs.Asked.{asked_of};

use octets::Octets;
use world_setup::{Call, Event, Node, Packet};

/// The node and the call that an event asks for, where these packets were sent; None where it delivers a packet that was
/// never sent.
pub(crate) fn asked_by<'a>(
    packets: &'a [Packet],
    event: &'a Event,
) -> Option<(Node, Call<&'a Octets>)>
    ensures { option_map asked_of result ≡ asked (map packet_seen packets.now) (event_seen event.now) }
{
    match event {
        Event::Submit { pharmacy, text } => Some((Node::Pharmacy(*pharmacy), Call::Submit(text))),
        Event::Tick { pharmacy } => Some((Node::Pharmacy(*pharmacy), Call::Tick)),
        Event::Deliver { packet } => delivered(packets, *packet),
        Event::Stop(node) => Some((*node, Call::Stop)),
        Event::Start(node) => Some((*node, Call::Start)),
        Event::Plan {
            payer,
            product,
            price,
        } => {
            let price = *price;
            Some((Node::Payer(*payer), Call::Plan { product, price }))
        }
        Event::Terms { payer, fee, copay } => {
            let (fee, copay) = (*fee, *copay);
            Some((Node::Payer(*payer), Call::Terms { fee, copay }))
        }
        Event::Retry {
            pharmacy,
            nodes,
            again,
            tries,
        } => {
            let call = Call::Retry {
                nodes,
                again: *again,
                tries: *tries,
            };
            Some((Node::Pharmacy(*pharmacy), call))
        }
        Event::Cap { switch, entries } => {
            Some((Node::Switch(*switch), Call::Cap { entries: *entries }))
        }
        Event::Adjudicate { packet, advice } => adjudicated(packets, *packet, advice),
    }
}

/// The addressee of the packet of a number, which takes it with an advice.
fn adjudicated<'a>(
    packets: &'a [Packet],
    number: u64,
    advice: &'a Octets,
) -> Option<(Node, Call<&'a Octets>)>
    ensures { option_map asked_of result
        ≡ option_map (adjudicating advice.now) (numbered (map packet_seen packets.now) number) }
{
    if number == 0 || number > packets.len() as u64 {
        return None;
    }
    let packet = &packets[number as usize - 1];
    let call = Call::Adjudicate {
        from: packet.from,
        bytes: &packet.bytes,
        advice,
    };
    Some((packet.to, call))
}

/// The addressee of the packet of a number, which takes it.
fn delivered(packets: &[Packet], number: u64) -> Option<(Node, Call<&Octets>)>
    ensures { option_map asked_of result ≡ option_map taking (numbered (map packet_seen packets.now) number) }
{
    if number == 0 || number > packets.len() as u64 {
        return None;
    }
    let packet = &packets[number as usize - 1];
    let call = Call::Take {
        from: packet.from,
        bytes: &packet.bytes,
    };
    Some((packet.to, call))
}
