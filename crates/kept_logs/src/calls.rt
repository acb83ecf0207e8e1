//! Calls in a log.

ghost use Rattle.std.specs.Prelude.{◌≡◌, ◌++◌, OnOk, IfOk};
ghost use Rattle.std.specs.Option.{option_map};
ghost use Rattle.claim_model.specs.Node.{Submit, Take, Revise, OfPlan, OfRule, OfCap, Adjudicate};
ghost use Rattle.claim_model.specs.Words.{SetPrice, SetTerms};
ghost use Rattle.pharmacy_journal.specs.Ruling.{rule_in};
ghost use Rattle.switch_node.specs.Settings.{nearest};
ghost use Rattle.world_setup.specs.Seen.{node_seen, call_seen};
ghost use Rattle.kept_logs.specs.Calls.{call_codec, call_of};

use crate::nodes::{put_node, take_node};
use claim_model::Limits;
use codec::{put_text, put_u8, put_u16s, put_u32, take_text, take_u8, take_u16s, take_u32};
use octets::Octets;
use pharmacy_journal::{switch_bytes, switch_numbers};
use std::alloc::{AllocError, Global};
use switch_node::{SwitchSettings, put_cap};
use world_setup::{Call, Node};

/// Puts a call.
#[tactic(auto, unfolding(crate::specs::Calls::call_codec))]
pub(crate) fn put_call(out: &mut Vec<u8>, call: &Call) -> Result<(), AllocError>
    ensures text { OnOk result (out.new.items ≡ out.old.items ++ call_codec.text (call_seen call.now)) }
    ensures fits { OnOk result (call_codec.Fits (call_seen call.now)) }
{
    match call {
        Call::Submit(text) => put_submit(out, text),
        Call::Tick => put_u8(out, 1),
        Call::Take { from, bytes } => put_take(out, *from, bytes),
        Call::Stop => put_u8(out, 3),
        Call::Start => put_u8(out, 4),
        Call::Plan { product, price } => put_plan(out, product, *price),
        Call::Terms { fee, copay } => put_terms(out, *fee, *copay),
        Call::Retry {
            nodes,
            again,
            tries,
        } => put_rule(out, nodes, *again, *tries),
        Call::Cap { entries } => put_capped(out, *entries),
        Call::Adjudicate {
            from,
            bytes,
            advice,
        } => put_adjudicate(out, *from, bytes, advice),
    }
}

/// Puts a submission.
#[tactic(auto, unfolding(crate::specs::Calls::call_codec))]
fn put_submit(out: &mut Vec<u8>, text: &Octets) -> Result<(), AllocError>
    ensures text { OnOk result (out.new.items ≡ out.old.items ++ call_codec.text (Submit text.now)) }
    ensures fits { OnOk result (call_codec.Fits (Submit text.now)) }
{
    put_u8(out, 0)?;
    put_text(out, text.as_slice())
}

/// Puts the taking of a packet.
#[tactic(auto, unfolding(crate::specs::Calls::call_codec))]
fn put_take(out: &mut Vec<u8>, from: Node, bytes: &Octets) -> Result<(), AllocError>
    ensures text { OnOk result (out.new.items ≡ out.old.items ++ call_codec.text (Take (node_seen from) bytes.now)) }
    ensures fits { OnOk result (call_codec.Fits (Take (node_seen from) bytes.now)) }
{
    put_u8(out, 2)?;
    put_node(out, from)?;
    put_text(out, bytes.as_slice())
}

/// Puts the taking of a packet with an advice.
#[tactic(auto, unfolding(crate::specs::Calls::call_codec))]
fn put_adjudicate(
    out: &mut Vec<u8>,
    from: Node,
    bytes: &Octets,
    advice: &Octets,
) -> Result<(), AllocError>
    ensures text { OnOk result (out.new.items
        ≡ out.old.items ++ call_codec.text (Adjudicate (node_seen from) bytes.now advice.now)) }
    ensures fits { OnOk result (call_codec.Fits (Adjudicate (node_seen from) bytes.now advice.now)) }
{
    put_u8(out, 8)?;
    put_node(out, from)?;
    put_text(out, bytes.as_slice())?;
    put_text(out, advice.as_slice())
}

/// Puts a change of a price.
#[tactic(auto, unfolding(crate::specs::Calls::call_codec))]
fn put_plan(out: &mut Vec<u8>, product: &Octets, price: Option<u32>) -> Result<(), AllocError>
    ensures text { OnOk result (out.new.items
        ≡ out.old.items ++ call_codec.text (Revise (OfPlan (SetPrice product.now price)))) }
    ensures fits { OnOk result (call_codec.Fits (Revise (OfPlan (SetPrice product.now price)))) }
{
    match price {
        None => {
            put_u8(out, 5)?;
            put_text(out, product.as_slice())
        }
        Some(price) => {
            put_u8(out, 6)?;
            put_text(out, product.as_slice())?;
            put_u32(out, price)
        }
    }
}

/// Puts a change of the terms of a plan.
#[tactic(auto, unfolding(crate::specs::Calls::call_codec))]
fn put_terms(out: &mut Vec<u8>, fee: u32, copay: u32) -> Result<(), AllocError>
    ensures text { OnOk result (out.new.items ≡ out.old.items ++ call_codec.text (Revise (OfPlan (SetTerms fee copay)))) }
    ensures fits { OnOk result (call_codec.Fits (Revise (OfPlan (SetTerms fee copay)))) }
{
    put_u8(out, 9)?;
    put_u32(out, fee)?;
    put_u32(out, copay)
}

/// Puts a rule of retries. A list of more than 65,535 switches is refused as memory would be.
#[tactic(auto, unfolding(crate::specs::Calls::call_codec, crate::specs::Calls::rule_codec))]
fn put_rule(out: &mut Vec<u8>, nodes: &Octets, again: u32, tries: u32) -> Result<(), AllocError>
    ensures text { OnOk result (out.new.items
        ≡ out.old.items ++ call_codec.text (Revise (OfRule (rule_in nodes.now again tries)))) }
    ensures fits { OnOk result (call_codec.Fits (Revise (OfRule (rule_in nodes.now again tries)))) }
{
    let numbers = switch_numbers(*out.allocator(), nodes.as_slice())?;
    put_u8(out, 10)?;
    put_u32(out, again)?;
    put_u32(out, tries)?;
    put_u16s(out, &numbers)
}

/// Puts another cap.
#[tactic(auto, unfolding(crate::specs::Calls::call_codec))]
fn put_capped(out: &mut Vec<u8>, entries: u32) -> Result<(), AllocError>
    ensures text { OnOk result (out.new.items ≡ out.old.items ++ call_codec.text (Revise (OfCap (nearest entries)))) }
    ensures fits { OnOk result (call_codec.Fits (Revise (OfCap (nearest entries)))) }
{
    put_u8(out, 11)?;
    put_cap(out, SwitchSettings::nearest(entries))
}

/// The call at the front and what follows it; none where it is cut off or of no kind that there is.
#[tactic(auto, unfolding(crate::specs::Calls::call_codec))]
pub(crate) fn take_call(alloc: Global, bytes: &[u8]) -> Result<Option<(Call, &[u8])>, AllocError>
    ensures { IfOk result (λ o. option_map (λ taken. (call_seen taken.0, taken.1.now)) o ≡ call_codec.at bytes.now) }
{
    let Some((kind, rest)) = take_u8(bytes) else {
        return Ok(None);
    };
    call_of(alloc, kind, rest)
}

/// The call of this kind at the front, and what follows it.
fn call_of(alloc: Global, kind: u8, bytes: &[u8]) -> Result<Option<(Call, &[u8])>, AllocError>
    ensures { IfOk result (λ o. option_map (λ taken. (call_seen taken.0, taken.1.now)) o ≡ call_of kind bytes.now) }
{
    match kind {
        0 => take_submit(alloc, bytes),
        1 => Ok(Some((Call::Tick, bytes))),
        2 => take_take(alloc, bytes),
        3 => Ok(Some((Call::Stop, bytes))),
        4 => Ok(Some((Call::Start, bytes))),
        5 => take_unplan(alloc, bytes),
        6 => take_plan(alloc, bytes),
        8 => take_adjudicate(alloc, bytes),
        9 => Ok(take_terms(bytes)),
        10 => take_rule(alloc, bytes),
        11 => Ok(take_capped(bytes)),
        _ => Ok(None),
    }
}

/// A submission and what follows it.
fn take_submit(alloc: Global, bytes: &[u8]) -> Result<Option<(Call, &[u8])>, AllocError>
    ensures { IfOk result (λ o. option_map (λ taken. (call_seen taken.0, taken.1.now)) o ≡ call_of 0 bytes.now) }
{
    let Some((text, rest)) = take_text(bytes) else {
        return Ok(None);
    };
    let text = Octets::copy_of(alloc, text)?;
    Ok(Some((Call::Submit(text), rest)))
}

/// The taking of a packet, and what follows it.
fn take_take(alloc: Global, bytes: &[u8]) -> Result<Option<(Call, &[u8])>, AllocError>
    ensures { IfOk result (λ o. option_map (λ taken. (call_seen taken.0, taken.1.now)) o ≡ call_of 2 bytes.now) }
{
    let Some((from, rest)) = take_node(bytes) else {
        return Ok(None);
    };
    let Some((packet, rest)) = take_text(rest) else {
        return Ok(None);
    };
    let bytes = Octets::copy_of(alloc, packet)?;
    Ok(Some((Call::Take { from, bytes }, rest)))
}

/// The taking of a packet with an advice, and what follows it.
fn take_adjudicate(alloc: Global, bytes: &[u8]) -> Result<Option<(Call, &[u8])>, AllocError>
    ensures { IfOk result (λ o. option_map (λ taken. (call_seen taken.0, taken.1.now)) o ≡ call_of 8 bytes.now) }
{
    let Some((from, rest)) = take_node(bytes) else {
        return Ok(None);
    };
    let Some((packet, rest)) = take_text(rest) else {
        return Ok(None);
    };
    let Some((said, rest)) = take_text(rest) else {
        return Ok(None);
    };
    let bytes = Octets::copy_of(alloc, packet)?;
    let advice = Octets::copy_of(alloc, said)?;
    Ok(Some((
        Call::Adjudicate {
            from,
            bytes,
            advice,
        },
        rest,
    )))
}

/// A product that is taken off a plan, and what follows it.
fn take_unplan(alloc: Global, bytes: &[u8]) -> Result<Option<(Call, &[u8])>, AllocError>
    ensures { IfOk result (λ o. option_map (λ taken. (call_seen taken.0, taken.1.now)) o ≡ call_of 5 bytes.now) }
{
    let Some((product, rest)) = take_text(bytes) else {
        return Ok(None);
    };
    let product = Octets::copy_of(alloc, product)?;
    let call = Call::Plan {
        product,
        price: None,
    };
    Ok(Some((call, rest)))
}

/// A product and its price, and what follows them.
fn take_plan(alloc: Global, bytes: &[u8]) -> Result<Option<(Call, &[u8])>, AllocError>
    ensures { IfOk result (λ o. option_map (λ taken. (call_seen taken.0, taken.1.now)) o ≡ call_of 6 bytes.now) }
{
    let Some((product, rest)) = take_text(bytes) else {
        return Ok(None);
    };
    let Some((price, rest)) = take_u32(rest) else {
        return Ok(None);
    };
    let product = Octets::copy_of(alloc, product)?;
    let call = Call::Plan {
        product,
        price: Some(price),
    };
    Ok(Some((call, rest)))
}

/// A fee and a copay, and what follows them.
fn take_terms(bytes: &[u8]) -> Option<(Call, &[u8])>
    ensures { option_map (λ taken. (call_seen taken.0, taken.1.now)) result ≡ call_of 9 bytes.now }
{
    let (fee, rest) = take_u32(bytes)?;
    let (copay, rest) = take_u32(rest)?;
    Some((Call::Terms { fee, copay }, rest))
}

/// A rule of retries, and what follows it.
#[tactic(auto, unfolding(crate::specs::Calls::rule_codec))]
fn take_rule(alloc: Global, bytes: &[u8]) -> Result<Option<(Call, &[u8])>, AllocError>
    ensures { IfOk result (λ o. option_map (λ taken. (call_seen taken.0, taken.1.now)) o ≡ call_of 10 bytes.now) }
{
    let Some((again, rest)) = take_u32(bytes) else {
        return Ok(None);
    };
    let Some((tries, rest)) = take_u32(rest) else {
        return Ok(None);
    };
    let Some((numbers, rest)) = take_u16s(alloc, rest)? else {
        return Ok(None);
    };
    let nodes = Octets::from_vec(switch_bytes(alloc, &numbers)?);
    let call = Call::Retry {
        nodes,
        again,
        tries,
    };
    Ok(Some((call, rest)))
}

/// Another cap, and what follows it.
#[tactic(auto, unfolding(switch_node::specs::Bytes::cap_codec))]
fn take_capped(bytes: &[u8]) -> Option<(Call, &[u8])>
    ensures { option_map (λ taken. (call_seen taken.0, taken.1.now)) result ≡ call_of 11 bytes.now }
{
    let (cap, rest) = take_u32(bytes)?;
    let settings = SwitchSettings::within(Limits::widest(), cap).ok()?;
    let entries = settings.cap();
    Some((Call::Cap { entries }, rest))
}
