//! Words of the picture: names, numbers, amounts, events and rulings.

use claim_profile::{Code, Ruling};
use envelope::TxnId;
use input_text::{put_decimal, put_printed};
use pharmacy_journal::switch_numbers;
use schedule::put_node;
use std::alloc::AllocError;
use world_setup::{Event, Node};

/// What a node is, in a word.
pub(crate) fn kind_of(node: Node) -> &'static [u8] {
    match node {
        Node::Pharmacy(_) => b"pharmacy",
        Node::Switch(_) => b"switch",
        Node::Payer(_) => b"payer",
    }
}

/// Appends a transaction: the pharmacy, a point, and its number there.
pub(crate) fn put_txn(out: &mut Vec<u8>, id: TxnId) -> Result<(), AllocError> {
    put_decimal(out, u64::from(id.pharmacy()))?;
    out.extend_from_slice(b".")?;
    put_decimal(out, id.number())
}

/// Appends an amount of cents, as dollars.
pub(crate) fn put_dollars(out: &mut Vec<u8>, cents: u32) -> Result<(), AllocError> {
    out.extend_from_slice(b"$")?;
    put_decimal(out, u64::from(cents / 100))?;
    let rest = (cents % 100) as u8;
    out.extend_from_slice(&[b'.', b'0' + rest / 10, b'0' + rest % 10])
}

/// Appends a price of this many ten-thousandths of a dollar a unit.
pub(crate) fn put_price(out: &mut Vec<u8>, price: u32) -> Result<(), AllocError> {
    out.extend_from_slice(b"$")?;
    put_decimal(out, u64::from(price / 10_000))?;
    let rest = price % 10_000;
    let (high, low) = ((rest / 100) as u8, (rest % 100) as u8);
    out.extend_from_slice(&[
        b'.',
        b'0' + high / 10,
        b'0' + high % 10,
        b'0' + low / 10,
        b'0' + low % 10,
    ])?;
    out.extend_from_slice(b" a unit")
}

/// Appends an event in the words of a schedule, without its texts.
pub(crate) fn put_event(out: &mut Vec<u8>, event: &Event) -> Result<(), AllocError> {
    match event {
        Event::Submit { pharmacy, .. } => put_call(out, b"submit ", Node::Pharmacy(*pharmacy)),
        Event::Tick { pharmacy } => put_call(out, b"tick ", Node::Pharmacy(*pharmacy)),
        Event::Deliver { packet } => {
            out.extend_from_slice(b"deliver ")?;
            put_decimal(out, *packet)
        }
        Event::Stop(node) => put_call(out, b"stop ", *node),
        Event::Start(node) => put_call(out, b"start ", *node),
        Event::Plan { payer, .. } => put_call(out, b"plan ", Node::Payer(*payer)),
        Event::Terms { payer, .. } => put_call(out, b"terms ", Node::Payer(*payer)),
        Event::Retry { pharmacy, .. } => put_call(out, b"retry ", Node::Pharmacy(*pharmacy)),
        Event::Cap { switch, .. } => put_call(out, b"cap ", Node::Switch(*switch)),
        Event::Adjudicate { packet, .. } => {
            out.extend_from_slice(b"adjudicate ")?;
            put_decimal(out, *packet)
        }
    }
}

fn put_call(out: &mut Vec<u8>, word: &[u8], node: Node) -> Result<(), AllocError> {
    out.extend_from_slice(word)?;
    put_node(out, node)
}

/// Appends what a change of a price says: the product in printed bytes, and its price.
pub(crate) fn put_change(
    out: &mut Vec<u8>,
    product: &[u8],
    price: Option<u32>,
) -> Result<(), AllocError> {
    put_printed(out, product)?;
    match price {
        Some(price) => {
            out.extend_from_slice(b" costs ")?;
            put_price(out, price)
        }
        None => out.extend_from_slice(b" is off the plan"),
    }
}

/// Appends what a change of terms says: the fee and the copay.
pub(crate) fn put_terms(out: &mut Vec<u8>, fee: u32, copay: u32) -> Result<(), AllocError> {
    out.extend_from_slice(b"fee ")?;
    put_dollars(out, fee)?;
    out.extend_from_slice(b", copay ")?;
    put_dollars(out, copay)
}

/// Appends what another cap says: how many requests the table has at most.
pub(crate) fn put_cap(out: &mut Vec<u8>, cap: u32) -> Result<(), AllocError> {
    out.extend_from_slice(b"at most ")?;
    put_decimal(out, u64::from(cap))
}

/// Appends what another rule of retries says: the switches in turn, and how long and how often each.
pub(crate) fn put_rule(
    out: &mut Vec<u8>,
    nodes: &[u8],
    again: u32,
    tries: u32,
) -> Result<(), AllocError> {
    out.extend_from_slice(b"tries")?;
    for number in switch_numbers(*out.allocator(), nodes)? {
        out.extend_from_slice(b" sw")?;
        put_decimal(out, u64::from(number))?;
    }
    out.extend_from_slice(b", each ")?;
    put_decimal(out, u64::from(tries))?;
    out.extend_from_slice(b" times, after ")?;
    put_decimal(out, u64::from(again))?;
    out.extend_from_slice(b" ticks")
}

/// Appends a ruling in short: `P` or `D` and the total, `A`, or `R` and the reject codes.
pub(crate) fn put_ruling(out: &mut Vec<u8>, ruling: &Ruling) -> Result<(), AllocError> {
    match *ruling {
        Ruling::Paid { amounts, .. } => {
            out.extend_from_slice(b" P ")?;
            put_dollars(out, amounts.total())
        }
        Ruling::Duplicate { amounts, .. } => {
            out.extend_from_slice(b" D ")?;
            put_dollars(out, amounts.total())
        }
        Ruling::Reversed { .. } => out.extend_from_slice(b" A"),
        Ruling::Rejected { rejects } => {
            out.extend_from_slice(b" R")?;
            put_codes(out, rejects.as_slice())
        }
    }
}

fn put_codes(out: &mut Vec<u8>, codes: &[Code]) -> Result<(), AllocError> {
    for code in codes {
        out.extend_from_slice(b" ")?;
        out.extend_from_slice(code.text())?;
    }
    Ok(())
}
