//! An accepted call with what it sent.

ghost use Rattle.std.specs.Prelude.{◌≡◌, map, IfOk};
ghost use Rattle.world_setup.specs.Seen.{call_seen, sent_seen};

use std::alloc::{AllocError, Global};
use std::marker::Model;
use world_setup::{Call, Sent};

/// An accepted call with what it sent, in order (own).
#[derive(Debug, Drop)]
pub struct Record {
    call: Call,
    sent: Vec<Sent>,
}

impl Model for Record {
    ghost use Rattle.std.specs.Prelude.{map};
    ghost use Rattle.world_setup.specs.Seen.{call_seen, sent_seen};
    ghost use Rattle.claim_model.specs.Logs as model;

    ghost Value = { model.Logged };

    ghost view = { λ r. record { call = call_seen r.call; sent = map sent_seen r.sent.items } };
}

impl Record {
    /// The record of a call and what it sent.
    pub fn new(call: Call, sent: Vec<Sent>) -> Record
        ensures { result ≡ record { call = call_seen call; sent = map sent_seen sent.items } }
    {
        Record { call, sent }
    }

    /// The call.
    pub fn call(&self) -> &Call
        ensures { call_seen result.now ≡ self.now.call }
    {
        &self.call
    }

    /// What it sent.
    pub fn sent(&self) -> &[Sent]
        ensures { map sent_seen result.now ≡ self.now.sent }
    {
        self.sent.as_slice()
    }

    /// An equal record, in memory of its own.
    pub fn copy(&self, alloc: Global) -> Result<Record, AllocError>
        ensures { IfOk result (λ copy. copy ≡ self.now) }
    {
        let call = copy_call(&self.call)?;
        let sent = copy_sent(alloc, self.sent.as_slice())?;
        Ok(Record { call, sent })
    }
}

/// An equal call.
fn copy_call(call: &Call) -> Result<Call, AllocError>
    ensures { IfOk result (λ copy. call_seen copy ≡ call_seen call.now) }
{
    match call {
        Call::Submit(text) => Ok(Call::Submit(text.copy()?)),
        Call::Tick => Ok(Call::Tick),
        Call::Take { from, bytes } => Ok(Call::Take {
            from: *from,
            bytes: bytes.copy()?,
        }),
        Call::Stop => Ok(Call::Stop),
        Call::Start => Ok(Call::Start),
        Call::Plan { product, price } => Ok(Call::Plan {
            product: product.copy()?,
            price: *price,
        }),
        Call::Terms { fee, copay } => Ok(Call::Terms {
            fee: *fee,
            copay: *copay,
        }),
        Call::Retry {
            nodes,
            again,
            tries,
        } => Ok(Call::Retry {
            nodes: nodes.copy()?,
            again: *again,
            tries: *tries,
        }),
        Call::Cap { entries } => Ok(Call::Cap { entries: *entries }),
        Call::Adjudicate {
            from,
            bytes,
            advice,
        } => Ok(Call::Adjudicate {
            from: *from,
            bytes: bytes.copy()?,
            advice: advice.copy()?,
        }),
    }
}

/// An equal list of what was sent.
fn copy_sent(alloc: Global, sent: &[Sent]) -> Result<Vec<Sent>, AllocError>
    ensures { IfOk result (λ copy. map sent_seen copy.items ≡ map sent_seen sent.now) }
{
    let mut copy = Vec::new(alloc);
    for one in sent {
        copy.push(copy_one(one)?)?;
    }
    Ok(copy)
}

/// An equal packet for an addressee.
fn copy_one(one: &Sent) -> Result<Sent, AllocError>
    ensures { IfOk result (λ copy. sent_seen copy ≡ sent_seen one.now) }
{
    Ok(Sent {
        to: one.to,
        bytes: one.bytes.copy()?,
    })
}
