//! Envelopes as they are read.

ghost use Rattle.std.specs.Prelude.{◌≡◌, ◌≤◌, length};
ghost use Rattle.std.specs.Int.{w16, w32, w64, from_be_bytes};
ghost use Rattle.envelope.specs.Envelope.{longest_payload};
ghost use Rattle.envelope.specs.Opening.{kind_of, envelope_of};

use crate::txn::TxnId;
use std::marker::Model;
use thiserror::Error;

/// The largest payload, in bytes.
pub const LARGEST_PAYLOAD: usize = 32_768;

/// The length of a head, in bytes: the payload stands after it.
pub const HEAD: usize = 18;

/// The bytes that begin an envelope.
pub(crate) const MAGIC: &[u8; 2] = b"PS";

/// The version of the format.
pub(crate) const VERSION: u8 = 1;

/// What a payload is.
#[derive(Clone, Copy, Debug, PartialEq, Eq)]
pub enum Kind {
    /// A request of a pharmacy.
    Request,
    /// A payer's answer to one.
    Answer,
}

/// Why bytes are no envelope, in the order in which the causes are judged.
#[derive(Clone, Copy, Debug, PartialEq, Eq, Error)]
pub enum EnvelopeFault {
    /// There are fewer bytes than a head has.
    #[error("shorter than the 18 bytes of an envelope's head")]
    Short,
    /// The first two bytes are not `PS`.
    #[error("an envelope begins with PS")]
    NotEnvelope,
    /// The version is not 1.
    #[error("the version of an envelope is 1")]
    Version,
    /// The kind is neither 1 nor 2.
    #[error("the kind of an envelope is 1, a request, or 2, an answer")]
    Kind,
    /// The pharmacy or the number is zero.
    #[error("the pharmacy or the number is zero")]
    ZeroNumber,
    /// The payload has another length than the head says.
    #[error("the head says {said} bytes, and {found} follow")]
    Length {
        /// The length in the head.
        said: u32,
        /// The bytes after the head.
        found: usize,
    },
    /// The payload has more than 32,768 bytes.
    #[error("a payload has at most 32,768 bytes")]
    TooLong,
}

/// An envelope that was read; its payload is lent from the bytes.
#[derive(Drop)]
pub struct Envelope<'a> {
    kind: Kind,
    id: TxnId,
    payload: &'a [u8],
}

impl<'a> Model for Envelope<'a> {
    ghost use Rattle.std.specs.Prelude.{◌≤◌, length};
    ghost use Rattle.envelope.specs.Envelope.{Opened, longest_payload};

    ghost Value = { Opened };

    ghost view = { λ e. record { kind = e.kind; id = e.id; payload = e.payload.now; place = e.payload.ref_ptr } };

    ghost invariant = { λ e. length e.payload.now ≤ longest_payload };
}

impl<'a> Envelope<'a> {
    ghost use Rattle.std.specs.Prelude.{ℕ, List, Ok, IfOk};
    ghost use Rattle.envelope.specs.declared.opening.Kind.{Kind};
    ghost use Rattle.envelope.specs.Txn.{Txn, IsTxn};
    ghost use Rattle.envelope.specs.Envelope.{IsTextOf, envelope_text, opened_at};

    /// Reads an envelope that is all of the bytes. Its payload is the bytes after the head,
    /// where they stand.
    ///
    /// The first cause that stands decides: fewer than 18 bytes is `Short`; then come
    /// `NotEnvelope`, `Version`, `Kind`, `ZeroNumber`, `Length` and `TooLong`.
    pub fn read(bytes: &'a [u8]) -> Result<Envelope<'a>, EnvelopeFault>
        ensures exact { result ≡ envelope_of bytes.entry.ref_ptr bytes.now }

        // What is read is the text of this kind, transaction and payload, and the payload
        // stands where the bytes after the head stand.
        ensures found { IfOk result (λ e. IsTextOf bytes.entry.ref_ptr bytes.now e) }

        // Each such text is read.
        ensures only { (kind : Kind) (id : Txn) (payload : List ℕ) → IsTxn id → length payload ≤ longest_payload
            → bytes.now ≡ envelope_text kind id payload → result ≡ Ok (opened_at bytes.entry.ref_ptr kind id payload) }
    {
        Envelope::open(bytes)
    }

    #[tactic(auto, unfolding(crate::specs::Opening::envelope_of, crate::specs::Opening::opened_of))]
    fn open(bytes: &'a [u8]) -> Result<Envelope<'a>, EnvelopeFault>
        ensures { result ≡ envelope_of bytes.entry.ref_ptr bytes.now }
    {
        if bytes.len() < HEAD {
            return Err(EnvelopeFault::Short);
        }
        if !bytes.starts_with(MAGIC) {
            return Err(EnvelopeFault::NotEnvelope);
        }
        if bytes[2] != VERSION {
            return Err(EnvelopeFault::Version);
        }
        let Some(kind) = kind_of(bytes[3]) else {
            return Err(EnvelopeFault::Kind);
        };
        let Some(id) = TxnId::new(number_16(&bytes[4..6]), number_64(&bytes[6..14])) else {
            return Err(EnvelopeFault::ZeroNumber);
        };
        let said = number_32(&bytes[14..HEAD]);
        let payload = &bytes[HEAD..];
        let found = payload.len();
        if said as usize != found {
            return Err(EnvelopeFault::Length { said, found });
        }
        if found > LARGEST_PAYLOAD {
            return Err(EnvelopeFault::TooLong);
        }
        Ok(Envelope { kind, id, payload })
    }

    /// What the payload is.
    pub fn kind(&self) -> Kind
        ensures { result ≡ self.now.kind }
    {
        self.kind
    }

    /// Which transaction it is of.
    pub fn id(&self) -> TxnId
        ensures { result ≡ self.now.id }
    {
        self.id
    }

    /// The payload, a part of the bytes that were read.
    pub fn payload(&self) -> &'a [u8]
        ensures value { result.now ≡ self.now.payload }
        ensures place { result.ref_ptr ≡ self.now.place }
        ensures short { length result.now ≤ longest_payload }
    {
        self.payload
    }
}

/// The kind that a byte stands for.
fn kind_of(byte: u8) -> Option<Kind>
    ensures { result ≡ kind_of byte }
{
    match byte {
        1 => Some(Kind::Request),
        2 => Some(Kind::Answer),
        _ => None,
    }
}

fn number_16(bytes: &[u8]) -> u16
    requires { length bytes.now ≡ 2 }
    ensures { result ≡ from_be_bytes w16 bytes.now }
{
    u16::from_be_bytes([bytes[0], bytes[1]])
}

fn number_32(bytes: &[u8]) -> u32
    requires { length bytes.now ≡ 4 }
    ensures { result ≡ from_be_bytes w32 bytes.now }
{
    u32::from_be_bytes([bytes[0], bytes[1], bytes[2], bytes[3]])
}

fn number_64(bytes: &[u8]) -> u64
    requires { length bytes.now ≡ 8 }
    ensures { result ≡ from_be_bytes w64 bytes.now }
{
    u64::from_be_bytes([
        bytes[0], bytes[1], bytes[2], bytes[3], bytes[4], bytes[5], bytes[6], bytes[7],
    ])
}
