//! Requests and packets that are many.

use octets::Octets;
use std::alloc::Global;
use world_setup::{Node, Packet};

/// A packet of a pharmacy whose bytes are a number.
pub(crate) fn numbered(alloc: Global, pharmacy: u16, number: u16) -> Option<Packet> {
    let bytes = number.to_be_bytes();
    match Octets::copy_of(alloc, &bytes) {
        Ok(bytes) => Some(Packet {
            from: Node::Pharmacy(pharmacy),
            to: Node::Switch(1),
            bytes,
        }),
        Err(_) => None,
    }
}

/// A billing whose fill number (403-D3), which is one digit, is replaced by this one.
pub(crate) fn fill(alloc: Global, billing: &[u8], number: u8) -> Option<Vec<u8>> {
    let place = place_of_fill(billing)?;
    let front = billing.get(..place)?;
    let behind = billing.get(place.saturating_add(1)..)?;
    let digits = [
        b'0'.wrapping_add(number / 10),
        b'0'.wrapping_add(number % 10),
    ];
    joined(
        alloc,
        front,
        digits.get(usize::from(number < 10)..)?,
        behind,
    )
}

/// Where the fill number stands in a billing.
fn place_of_fill(billing: &[u8]) -> Option<usize> {
    let place = billing
        .windows(4)
        .position(|field| field == b"\x1CD30".as_slice())?;
    Some(place.saturating_add(3))
}

/// Three texts as one.
fn joined(alloc: Global, front: &[u8], middle: &[u8], behind: &[u8]) -> Option<Vec<u8>> {
    let mut text = Vec::new(alloc);
    for part in [front, middle, behind] {
        if text.extend_from_slice(part).is_err() {
            return None;
        }
    }
    Some(text)
}
