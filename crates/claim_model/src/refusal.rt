//! Why a call on a node, or an event of a world, is refused: the one list for all nodes.

ghost use Rattle.std.specs.Prelude.{◌≡◌};
ghost use Rattle.claim_model.specs.Refusal.{envelope_name, price_name, refusal_name, refusal_of, refusal_of_price, name_by};
ghost use Rattle.claim_model.specs.declared.refusal.Fault.TheVariants.{OutOfMemory};

use envelope::EnvelopeFault;
use plan_rules::PlanFault;
use std::alloc::{AllocError, AllocFailed};
use thiserror::Error;

/// Why a call or an event is refused. Nothing has changed then. The causes are judged in the order NoSuchNode or
/// NoSuchPacket, then Down or AlreadyUp, then the node's own, in the order that its call says.
#[derive(Clone, Copy, Debug, PartialEq, Eq, Error)]
pub enum Refusal {
    /// There is no such node, or the call is for a node of another kind.
    #[error("there is no such node")]
    NoSuchNode,
    /// No packet of this number was sent.
    #[error("there is no such packet")]
    NoSuchPacket,
    /// The node is stopped.
    #[error("the node is down")]
    Down,
    /// The node that is to start was not stopped.
    #[error("the node is up already")]
    AlreadyUp,
    /// The bytes of the packet are no envelope.
    #[error("{0}")]
    NoEnvelope(EnvelopeFault),
    /// The text is no request, or the packet has no request or no answer that the node takes: one that is not framed
    /// as such, of another version (102-A2), code (103-A3) or count (109-A9), or too long.
    #[error("the bytes are no request or answer that the node takes")]
    Unreadable,
    /// The version (102-A2) of a submission is not `D0`.
    #[error("the version is not D0")]
    Version,
    /// The code (103-A3) of a submission is neither `B1` nor `B2`.
    #[error("the transaction code is neither B1 nor B2")]
    CodeNotCarried,
    /// The service provider (202-B2, 201-B1) of a submission is not the pharmacy.
    #[error("the request is of another provider")]
    NotOwnProvider,
    /// A submission has more than 32,768 bytes.
    #[error("a request has at most 32,768 bytes")]
    TooLong,
    /// The pharmacy's journal has as many entries as it may have.
    #[error("the journal is full")]
    JournalFull,
    /// The answer is for another pharmacy.
    #[error("the envelope is of another pharmacy")]
    NotMine,
    /// The pharmacy's journal does not have the number of the answer.
    #[error("no entry has this number")]
    NoSuchNumber,
    /// The pharmacy's journal has this very answer.
    #[error("the entry has this answer already")]
    AlreadySettled,
    /// The pharmacy's journal or the switch's table has another answer.
    #[error("another answer is held")]
    Differs,
    /// The switch's table or the payer's book has the number with another request.
    #[error("the number was used for another request")]
    NumberReused,
    /// The switch's table does not have the number of the answer.
    #[error("no request waits for this answer")]
    NotWaiting,
    /// The BIN (101-A1) and processor control number (104-A4) of the request lead to another payer, or to none.
    #[error("the request is for another payer")]
    NotOurs,
    /// The number is new, and the payer's book has as many rows as it may have.
    #[error("the book is full")]
    BookFull,
    /// A place of the request would be paid, and no serial number is left.
    #[error("the serial numbers are used up")]
    SerialsUsedUp,
    /// The payer asks for the verdict on each claim that is to be priced, and the advice has none on one of them.
    #[error("a claim has no verdict yet")]
    NotAdvised,
    /// The payer prices by its plan, and takes no advice.
    #[error("the payer takes no advice")]
    NotAsked,
    /// The price is none that the payer's plan takes.
    #[error("{0}")]
    NotPriced(PlanFault),
    /// The rule of retries has no switch, more than 4,096 or one that is not there, or a number that is not 1 to 1,000.
    #[error("the rule of retries is none")]
    BadRule,
}

/// Why a call or an event did nothing: it is refused, or memory was. `OutOfMemory` may stand in place of any answer.
#[derive(Clone, Copy, Debug, PartialEq, Eq, Error)]
pub enum Fault {
    /// Memory was refused.
    #[error("out of memory")]
    OutOfMemory,
    /// The call or the event is refused, and would be again.
    #[error("{0}")]
    Refused(Refusal),
}

impl Refusal {
    /// The name of the refusal, as programs print it; of one with a cause within the name of the cause.
    pub fn name(self) -> &'static str
        ensures { result.now ≡ refusal_name self }
    {
        match self {
            Refusal::NoSuchNode => "NoSuchNode",
            Refusal::NoSuchPacket => "NoSuchPacket",
            Refusal::Down => "Down",
            Refusal::AlreadyUp => "AlreadyUp",
            Refusal::NoEnvelope(fault) => name_of_envelope(fault),
            Refusal::Unreadable => "Unreadable",
            Refusal::Version => "Version",
            Refusal::CodeNotCarried => "CodeNotCarried",
            Refusal::NotOwnProvider => "NotOwnProvider",
            Refusal::TooLong => "TooLong",
            Refusal::JournalFull => "JournalFull",
            Refusal::NotMine => "NotMine",
            Refusal::NoSuchNumber => "NoSuchNumber",
            Refusal::AlreadySettled => "AlreadySettled",
            Refusal::Differs => "Differs",
            Refusal::NumberReused => "NumberReused",
            Refusal::NotWaiting => "NotWaiting",
            Refusal::NotOurs => "NotOurs",
            Refusal::BookFull => "BookFull",
            Refusal::SerialsUsedUp => "SerialsUsedUp",
            Refusal::NotAdvised => "NotAdvised",
            Refusal::NotAsked => "NotAsked",
            Refusal::NotPriced(fault) => name_of_price(fault),
            Refusal::BadRule => "BadRule",
        }
    }
}

impl Fault {
    /// The name of the refusal, or `OutOfMemory`.
    pub fn name(self) -> &'static str
        ensures { result.now ≡ name_by (refusal_of self) }
    {
        match self {
            Fault::OutOfMemory => "OutOfMemory",
            Fault::Refused(refusal) => refusal.name(),
        }
    }
}

/// The name of what is wrong with an envelope.
fn name_of_envelope(fault: EnvelopeFault) -> &'static str
    ensures { result.now ≡ envelope_name fault }
{
    match fault {
        EnvelopeFault::Short => "Short",
        EnvelopeFault::NotEnvelope => "NotEnvelope",
        EnvelopeFault::Version => "Version",
        EnvelopeFault::Kind => "Kind",
        EnvelopeFault::ZeroNumber => "ZeroNumber",
        EnvelopeFault::Length { .. } => "Length",
        EnvelopeFault::TooLong => "TooLong",
    }
}

/// The name of what is wrong with a price.
fn name_of_price(fault: PlanFault) -> &'static str
    ensures { result.now ≡ price_name fault }
{
    match fault {
        PlanFault::OutOfMemory => "OutOfMemory",
        PlanFault::PriceTooLarge => "PriceTooLarge",
        PlanFault::BadProduct => "BadProduct",
        PlanFault::PlanFull => "PlanFull",
        PlanFault::NegativeAmount => "NegativeAmount",
    }
}

impl From<AllocError> for Fault {
    ghost from_gives = { λ _ fault. fault ≡ OutOfMemory };

    fn from(_refused: AllocError) -> Fault {
        Fault::OutOfMemory
    }
}

impl<T: Drop> From<AllocFailed<T>> for Fault {
    ghost from_gives = { λ _ fault. fault ≡ OutOfMemory };

    fn from(_refused: AllocFailed<T>) -> Fault {
        Fault::OutOfMemory
    }
}

impl From<PlanFault> for Fault {
    ghost from_gives = { λ why fault. refusal_of fault ≡ refusal_of_price why };

    fn from(why: PlanFault) -> Fault {
        match why {
            PlanFault::OutOfMemory => Fault::OutOfMemory,
            _ => Fault::Refused(Refusal::NotPriced(why)),
        }
    }
}
