//! Envelopes as they are written.

ghost use Rattle.std.specs.Prelude.{◌≡◌, ◌<◌, ◌≤◌, ◌^◌, ◌++◌, ◌↔◌, length, IfOk, OnOk, IsErrOf};
ghost use Rattle.envelope.specs.declared.writing.WriteFault.TheVariants.{OutOfMemory};
ghost use Rattle.envelope.specs.Envelope.{kind_byte, envelope_head, envelope_text, longest_payload};

use crate::opening::{HEAD, Kind, LARGEST_PAYLOAD, MAGIC, VERSION};
use crate::txn::TxnId;
use std::alloc::{AllocError, AllocFailed, Global};
use thiserror::Error;

/// Why an envelope was not written.
#[derive(Clone, Copy, Debug, PartialEq, Eq, Error)]
pub enum WriteFault {
    /// There is no memory for the text.
    #[error("out of memory")]
    OutOfMemory,
    /// The payload has more than 32,768 bytes.
    #[error("a payload has at most 32,768 bytes")]
    TooLong,
}

impl From<AllocError> for WriteFault {
    ghost from_gives = { λ _ fault. fault ≡ OutOfMemory };

    fn from(_error: AllocError) -> WriteFault {
        WriteFault::OutOfMemory
    }
}

impl<T: Drop> From<AllocFailed<T>> for WriteFault {
    ghost from_gives = { λ _ fault. fault ≡ OutOfMemory };

    fn from(_error: AllocFailed<T>) -> WriteFault {
        WriteFault::OutOfMemory
    }
}

/// The text of an envelope. A payload of more than 32,768 bytes is `TooLong`.
#[tactic(auto, unfolding(crate::specs::Envelope::envelope_text))]
pub fn write(alloc: Global, kind: Kind, id: TxnId, payload: &[u8]) -> Result<Vec<u8>, WriteFault>
    ensures text { IfOk result (λ text. text.items ≡ envelope_text kind id payload.now) }
    ensures too_long { IsErrOf result WriteFault.TooLong ↔ (longest_payload < length payload.now) }
{
    if payload.len() > LARGEST_PAYLOAD {
        return Err(WriteFault::TooLong);
    }
    let mut text = Vec::with_capacity(alloc, HEAD + payload.len())?;
    put_head(&mut text, kind, id, payload.len() as u32)?;
    text.extend_from_slice(payload)?;
    Ok(text)
}

/// Appends a head.
fn put_head(text: &mut Vec<u8>, kind: Kind, id: TxnId, length: u32) -> Result<(), AllocError>
    ensures { OnOk result (text.new.items ≡ text.old.items ++ envelope_head kind id length) }
{
    text.extend_from_slice(&[MAGIC[0], MAGIC[1], VERSION, kind_byte(kind)])?;
    text.extend_from_slice(&id.pharmacy().to_be_bytes())?;
    text.extend_from_slice(&id.number().to_be_bytes())?;
    text.extend_from_slice(&length.to_be_bytes())?;
    Ok(())
}

/// The byte that stands for a kind.
fn kind_byte(kind: Kind) -> u8
    ensures { result ≡ kind_byte kind }
{
    match kind {
        Kind::Request => 1,
        Kind::Answer => 2,
    }
}
