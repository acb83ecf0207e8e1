//! Why a call on a handle is refused, and the numbers of refusals.

ghost use Rattle.std.specs.Prelude.{◌≡◌};
ghost use Rattle.node_handle.specs.Numbers.{number_of};
ghost use Rattle.node_handle.specs.Refusals.{refusal_of, refusal_of_field, refusal_of_log};

use kept_logs::LogFault;
use message_making::FieldFault;
use node_service::ServiceFault;

/// Why a call on a handle is refused.
#[derive(Clone, Copy, PartialEq, Eq)]
pub enum Refusal {
    /// Memory was refused. The handle has no node.
    OutOfMemory,
    /// The handle has no node.
    Closed,
    /// The handle has a node already.
    Open,
    /// The buffer is too short.
    ShortBuffer,
    /// The name is no node's.
    Name,
    /// The text spells no settings, or settings that open no world.
    Settings,
    /// The settings have no such node.
    NoSuchNode,
    /// The log is another node's.
    OtherNode,
    /// The bytes are no log.
    NotALog,
    /// The log is of another version.
    LogVersion,
    /// The head of the log is damaged.
    DamagedHead,
    /// The log is of no kind of node.
    NoKind,
    /// The log is of other settings.
    OtherSettings,
    /// A record of the log is damaged.
    Damaged,
    /// A record of the log is no call, or one that the node does not make so.
    BadRecord,
    /// The text spells no bytes.
    BadText,
    /// The entry is open: it has no answer yet.
    Unanswered,
    /// There is no such entry, row or slot.
    NotFound,
    /// The logs are those of no legal run. What is told of them was copied.
    NoRun,
    /// Not all is on disk, as far as the host has said: nothing is told.
    Unsynced,
    /// More bytes are said to be on disk than there are records.
    TooMany,
    /// A field of a message has no byte.
    FieldEmpty,
    /// A field of a message has more bytes, or digits, than it may.
    FieldTooLong,
    /// A separator stands in a field of a message.
    FieldSeparator,
    /// A field of a message ends in a space.
    FieldSpace,
    /// A field of a message is not this many digits.
    FieldDigits,
    /// A field of a message is no day.
    FieldDay,
    /// What the log's file begins with, after closed logs, is no rest of this node under these settings, or is damaged.
    NotARest,
}

/// The number of what a call says: 0 of one that was made.
pub fn number_of(said: Result<(), Refusal>) -> u32
    ensures { result ≡ number_of said }
{
    match said {
        Ok(()) => 0,
        Err(Refusal::OutOfMemory) => 1,
        Err(Refusal::Closed) => 2,
        Err(Refusal::Open) => 3,
        Err(Refusal::ShortBuffer) => 4,
        Err(Refusal::Name) => 5,
        Err(Refusal::Settings) => 6,
        Err(Refusal::NoSuchNode) => 7,
        Err(Refusal::OtherNode) => 8,
        Err(Refusal::NotALog) => 9,
        Err(Refusal::LogVersion) => 10,
        Err(Refusal::DamagedHead) => 11,
        Err(Refusal::NoKind) => 12,
        Err(Refusal::OtherSettings) => 13,
        Err(Refusal::Damaged) => 14,
        Err(Refusal::BadRecord) => 15,
        Err(Refusal::BadText) => 16,
        Err(Refusal::Unanswered) => 17,
        Err(Refusal::NotFound) => 18,
        Err(Refusal::NoRun) => 19,
        Err(Refusal::Unsynced) => 20,
        Err(Refusal::TooMany) => 21,
        Err(Refusal::FieldEmpty) => 22,
        Err(Refusal::FieldTooLong) => 23,
        Err(Refusal::FieldSeparator) => 24,
        Err(Refusal::FieldSpace) => 25,
        Err(Refusal::FieldDigits) => 26,
        Err(Refusal::FieldDay) => 27,
        Err(Refusal::NotARest) => 28,
    }
}

/// The refusal of a node that is not opened.
pub(crate) fn refusal_of(fault: ServiceFault) -> Refusal
    ensures { result ≡ refusal_of fault }
{
    match fault {
        ServiceFault::OutOfMemory => Refusal::OutOfMemory,
        ServiceFault::Settings => Refusal::Settings,
        ServiceFault::NoSuchNode => Refusal::NoSuchNode,
        ServiceFault::Rest => Refusal::NotARest,
        ServiceFault::OtherNode => Refusal::OtherNode,
        ServiceFault::Log(fault) => refusal_of_log(fault),
        ServiceFault::NotMade(_) => Refusal::BadRecord,
    }
}

/// The refusal of a field of a message.
pub(crate) fn refusal_of_field(why: FieldFault) -> Refusal
    ensures { result ≡ refusal_of_field why }
{
    match why {
        FieldFault::Empty => Refusal::FieldEmpty,
        FieldFault::TooLong => Refusal::FieldTooLong,
        FieldFault::Separator => Refusal::FieldSeparator,
        FieldFault::TrailingSpace => Refusal::FieldSpace,
        FieldFault::NotDigits => Refusal::FieldDigits,
        FieldFault::NoDay => Refusal::FieldDay,
    }
}

/// The refusal of a log.
pub(crate) fn refusal_of_log(fault: LogFault) -> Refusal
    ensures { result ≡ refusal_of_log fault }
{
    match fault {
        LogFault::OutOfMemory => Refusal::OutOfMemory,
        LogFault::Short => Refusal::NotALog,
        LogFault::NotALog => Refusal::NotALog,
        LogFault::Version => Refusal::LogVersion,
        LogFault::DamagedHead => Refusal::DamagedHead,
        LogFault::NoNode => Refusal::NoKind,
        LogFault::OtherSettings => Refusal::OtherSettings,
        LogFault::Damaged(_) => Refusal::Damaged,
        LogFault::BadRecord(_) => Refusal::BadRecord,
    }
}
