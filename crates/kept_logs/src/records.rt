//! Accepted calls in a log, each with what it sent.

ghost use Rattle.std.specs.Prelude.{◌≡◌, ◌++◌, map, OnOk, IfOk};
ghost use Rattle.std.specs.List.{AllByRecursion, flat_map};
ghost use Rattle.std.specs.Option.{option_map};
ghost use Rattle.world_setup.specs.Seen.{sent_seen};
ghost use Rattle.codec.specs.Codecs.{times, whole};
ghost use Rattle.kept_logs.specs.Records.{logged_codec, sent_codec};
ghost use Rattle.kept_logs.specs.Stamps.{noted_in, stamp_codec, stamped_in, stamped_text, with_stamp};
ghost use Rattle.kept_logs.specs.LogSeen.{entry_seen, stamp_seen};

use crate::calls::{put_call, take_call};
use crate::nodes::{put_node, take_node};
use crate::stamps::{Stamp, is_plain, put_stamp, take_stamp};
use codec::{put_text, put_u8, put_u64, take_text, take_u8, take_u64};
use node_log::Record;
use octets::Octets;
use std::alloc::{AllocError, Global};
use world_setup::{Call, Sent};

/// The kind that a body begins with where something was noted of its call (own).
const NOTED: u8 = 7;

/// What a body of a record takes at first, in bytes: more than most bodies have.
const ROOM: usize = 1024;

/// The body of a record of a call, of which this was noted.
#[tactic(auto, unfolding(crate::specs::Stamps::stamped_text))]
pub(crate) fn body_of(alloc: Global, one: &Record, stamp: &Stamp<'_>) -> Result<Vec<u8>, AllocError>
    ensures text { IfOk result (λ body. body.items
        ≡ stamped_text (record { logged = one.now; stamp = stamp_seen stamp.now })) }
    ensures logged { IfOk result (λ _. logged_codec.Fits one.now) }
    ensures stamp { IfOk result (λ _. stamp_codec.Fits (stamp_seen stamp.now)) }
{
    let mut body = Vec::with_capacity(alloc, ROOM)?;
    if !is_plain(stamp) {
        put_u8(&mut body, NOTED)?;
        put_stamp(&mut body, stamp)?;
    }
    put_logged(&mut body, one)?;
    Ok(body)
}

/// Puts an accepted call, and what it sent.
#[tactic(auto, unfolding(crate::specs::Records::logged_codec))]
fn put_logged(out: &mut Vec<u8>, one: &Record) -> Result<(), AllocError>
    ensures text { OnOk result (out.new.items ≡ out.old.items ++ logged_codec.text one.now) }
    ensures fits { OnOk result (logged_codec.Fits one.now) }
{
    put_call(out, one.call())?;
    put_u64(out, one.sent().len() as u64)?;
    put_sents(out, one.sent())
}

/// Puts packets, one after the other.
fn put_sents(out: &mut Vec<u8>, sent: &[Sent]) -> Result<(), AllocError>
    ensures text { OnOk result (out.new.items ≡ out.old.items ++ flat_map sent_codec.text (map sent_seen sent.now)) }
    ensures fits { OnOk result (AllByRecursion sent_codec.Fits (map sent_seen sent.now)) }
{
    for one in sent {
        put_sent(out, one)?;
    }
    Ok(())
}

/// Puts a packet after its addressee.
#[tactic(auto, unfolding(crate::specs::Records::sent_codec))]
fn put_sent(out: &mut Vec<u8>, one: &Sent) -> Result<(), AllocError>
    ensures text { OnOk result (out.new.items ≡ out.old.items ++ sent_codec.text (sent_seen one.now)) }
    ensures fits { OnOk result (sent_codec.Fits (sent_seen one.now)) }
{
    put_node(out, one.to)?;
    put_text(out, one.bytes.as_slice())
}

/// An accepted call that was read, what it sent, and what was noted of it.
#[derive(Drop)]
pub(crate) struct Entry<'a> {
    pub(crate) call: Call,
    pub(crate) sent: Vec<Sent>,
    pub(crate) stamp: Stamp<'a>,
}

/// The record that these bytes are the body of; none where they are none.
#[tactic(auto, unfolding(crate::specs::Stamps::stamped_in))]
pub(crate) fn entry_of(alloc: Global, body: &[u8]) -> Result<Option<Entry<'_>>, AllocError>
    ensures { IfOk result (λ o. option_map entry_seen o ≡ stamped_in body.now) }
{
    match take_u8(body) {
        None => Ok(None),
        Some((NOTED, rest)) => noted_of(alloc, rest),
        Some(_) => call_of(alloc, Stamp::none(), body),
    }
}

/// The call after what was noted of it, which has to be something.
fn noted_of(alloc: Global, bytes: &[u8]) -> Result<Option<Entry<'_>>, AllocError>
    ensures { IfOk result (λ o. option_map entry_seen o ≡ noted_in (stamp_codec.at bytes.now)) }
{
    match take_stamp(bytes) {
        Some((stamp, rest)) if !is_plain(&stamp) => call_of(alloc, stamp, rest),
        _ => Ok(None),
    }
}

/// The accepted call that these bytes are, of which this was noted; none where they are none.
#[tactic(auto, unfolding(crate::specs::Records::logged_codec))]
fn call_of<'a>(
    alloc: Global,
    stamp: Stamp<'a>,
    body: &[u8],
) -> Result<Option<Entry<'a>>, AllocError>
    ensures { IfOk result (λ o. option_map entry_seen o ≡ with_stamp (stamp_seen stamp.entry) (whole logged_codec body.now)) }
{
    let Some((call, rest)) = take_call(alloc, body)? else {
        return Ok(None);
    };
    let Some((count, rest)) = take_u64(rest) else {
        return Ok(None);
    };
    let Some((sent, rest)) = take_sents(alloc, count, rest)? else {
        return Ok(None);
    };
    if rest.is_empty() {
        Ok(Some(Entry { call, sent, stamp }))
    } else {
        Ok(None)
    }
}

/// This many packets at the front, and what follows them; none where they are cut off.
fn take_sents(
    alloc: Global,
    count: u64,
    bytes: &[u8],
) -> Result<Option<(Vec<Sent>, &[u8])>, AllocError>
    ensures { IfOk result (λ o. option_map (λ taken. (map sent_seen taken.0.items, taken.1.now)) o
        ≡ times sent_codec count bytes.now) }
{
    let mut all = Vec::new(alloc);
    let mut rest = bytes;
    for _ in 0..count {
        let Some((one, after)) = take_sent(alloc, rest)? else {
            return Ok(None);
        };
        all.push(one)?;
        rest = after;
    }
    Ok(Some((all, rest)))
}

/// A packet and what follows it; none where it is cut off.
#[tactic(auto, unfolding(crate::specs::Records::sent_codec))]
fn take_sent(alloc: Global, bytes: &[u8]) -> Result<Option<(Sent, &[u8])>, AllocError>
    ensures { IfOk result (λ o. option_map (λ taken. (sent_seen taken.0, taken.1.now)) o ≡ sent_codec.at bytes.now) }
{
    let Some((to, rest)) = take_node(bytes) else {
        return Ok(None);
    };
    let Some((packet, rest)) = take_text(rest) else {
        return Ok(None);
    };
    let bytes = Octets::copy_of(alloc, packet)?;
    Ok(Some((Sent { to, bytes }, rest)))
}
