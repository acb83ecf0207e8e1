//! The line of an event.

use crate::nodes::put_node;
use input_text::{put_decimal, put_printed};
use std::alloc::AllocError;
use world_setup::{Event, Node};

/// Appends the line of an event, and its end.
pub(super) fn put_event(out: &mut Vec<u8>, event: &Event) -> Result<(), AllocError> {
    match event {
        Event::Submit { pharmacy, text } => {
            put(out, b"submit ")?;
            put_node(out, Node::Pharmacy(*pharmacy))?;
            put(out, b" ")?;
            put_printed(out, text.as_slice())?;
        }
        Event::Tick { pharmacy } => {
            put(out, b"tick ")?;
            put_node(out, Node::Pharmacy(*pharmacy))?;
        }
        Event::Deliver { packet } => {
            put(out, b"deliver ")?;
            put_decimal(out, *packet)?;
        }
        Event::Stop(node) => {
            put(out, b"stop ")?;
            put_node(out, *node)?;
        }
        Event::Start(node) => {
            put(out, b"start ")?;
            put_node(out, *node)?;
        }
        Event::Plan {
            payer,
            product,
            price,
        } => put_plan(out, *payer, product.as_slice(), *price)?,
        Event::Terms { payer, fee, copay } => put_terms(out, *payer, *fee, *copay)?,
        Event::Retry {
            pharmacy,
            nodes,
            again,
            tries,
        } => put_rule(out, *pharmacy, nodes.as_slice(), *again, *tries)?,
        Event::Cap { switch, entries } => put_cap(out, *switch, *entries)?,
        Event::Adjudicate { packet, advice } => {
            put(out, b"adjudicate ")?;
            put_decimal(out, *packet)?;
            put(out, b" ")?;
            put_printed(out, advice.as_slice())?;
        }
    }
    put(out, b"\n")
}

/// Appends bytes.
fn put(out: &mut Vec<u8>, bytes: &[u8]) -> Result<(), AllocError> {
    out.extend_from_slice(bytes)
}

/// Appends a change of a plan.
fn put_plan(
    out: &mut Vec<u8>,
    payer: u16,
    product: &[u8],
    price: Option<u32>,
) -> Result<(), AllocError> {
    put(out, b"plan ")?;
    put_node(out, Node::Payer(payer))?;
    put(out, b" ")?;
    put_product(out, product)?;
    match price {
        Some(price) => {
            put(out, b" ")?;
            put_decimal(out, u64::from(price))
        }
        None => put(out, b" none"),
    }
}

/// Appends a change of terms.
fn put_terms(out: &mut Vec<u8>, payer: u16, fee: u32, copay: u32) -> Result<(), AllocError> {
    put(out, b"terms ")?;
    put_node(out, Node::Payer(payer))?;
    put(out, b" ")?;
    put_decimal(out, u64::from(fee))?;
    put(out, b" ")?;
    put_decimal(out, u64::from(copay))
}

/// Appends a change of a rule of retries.
fn put_rule(
    out: &mut Vec<u8>,
    pharmacy: u16,
    nodes: &[u8],
    again: u32,
    tries: u32,
) -> Result<(), AllocError> {
    put(out, b"retry ")?;
    put_node(out, Node::Pharmacy(pharmacy))?;
    put(out, b" ")?;
    put_switches(out, nodes)?;
    put(out, b" ")?;
    put_decimal(out, u64::from(again))?;
    put(out, b" ")?;
    put_decimal(out, u64::from(tries))
}

/// Appends a change of a cap.
fn put_cap(out: &mut Vec<u8>, switch: u16, entries: u32) -> Result<(), AllocError> {
    put(out, b"cap ")?;
    put_node(out, Node::Switch(switch))?;
    put(out, b" ")?;
    put_decimal(out, u64::from(entries))
}

/// Appends the names of switches, joined by commas. A byte that is left over names none.
fn put_switches(out: &mut Vec<u8>, nodes: &[u8]) -> Result<(), AllocError> {
    let mut read = None;
    for (place, byte) in nodes.iter().enumerate() {
        match read {
            None => read = Some(*byte),
            Some(high) => {
                if place > 1 {
                    put(out, b",")?;
                }
                put_node(out, Node::Switch(u16::from_be_bytes([high, *byte])))?;
                read = None;
            }
        }
    }
    Ok(())
}

/// Appends a product in printed bytes, a space as `\x20`.
fn put_product(out: &mut Vec<u8>, product: &[u8]) -> Result<(), AllocError> {
    for byte in product {
        if *byte == b' ' {
            put(out, b"\\x20")?;
        } else {
            put_printed(out, &[*byte])?;
        }
    }
    Ok(())
}
