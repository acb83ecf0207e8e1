//! The status of a transaction in an answer, by whoever gives it.

ghost use Rattle.std.specs.Prelude.{◌≡◌};
ghost use Rattle.claim_profile.specs.Tally.{seen};
ghost use Rattle.claim_profile.specs.Ruling.{status_of, again_by, status_by, stands_beside, stands_under};
ghost use Rattle.claim_profile.specs.RulingSeen.{status_seen};

use crate::answer_reading::{AnswerFault, Speaker};
use crate::found::Found;
use crate::names::is_same;
use d0_header::ResponseHeader;

/// The status of a transaction (112-AN).
#[derive(Clone, Copy, PartialEq, Eq)]
pub(crate) enum Status {
    Paid,
    Duplicate,
    Reversed,
    Rejected,
}

/// The status of the transaction, where it may stand beside the header.
pub(crate) fn status_beside(
    by: Speaker,
    header: &ResponseHeader,
    found: Found<'_>,
) -> Result<Status, AnswerFault>
    ensures { result ≡ status_seen by header.now (seen found.entry) }
{
    let Some(text) = found.one() else {
        return Err(AnswerFault::NoStatus);
    };
    match status_by(by, text) {
        Some(status) if stands_beside(header, status) => Ok(status),
        _ => Err(AnswerFault::BadStatus),
    }
}

/// The status that a text of this speaker spells.
fn status_by(by: Speaker, text: &[u8]) -> Option<Status>
    ensures { result ≡ status_by by text.now }
{
    match status_of(text) {
        Some(status) => Some(status),
        None => again_by(by, text),
    }
}

/// The status of what is said again: of a payer's own system `S`, of a reversal that it has approved before.
fn again_by(by: Speaker, text: &[u8]) -> Option<Status>
    ensures { result ≡ again_by by text.now }
{
    match by {
        Speaker::Book => None,
        Speaker::System => match text {
            b"S" => Some(Status::Reversed),
            _ => None,
        },
    }
}

/// The status that a text of a book spells.
fn status_of(text: &[u8]) -> Option<Status>
    ensures { result ≡ status_of text.now }
{
    match text {
        b"P" => Some(Status::Paid),
        b"D" => Some(Status::Duplicate),
        b"A" => Some(Status::Reversed),
        b"R" => Some(Status::Rejected),
        _ => None,
    }
}

/// Whether the header has version `D0` and a status beside which this one may stand.
fn stands_beside(header: &ResponseHeader, status: Status) -> bool
    ensures { result ≡ stands_beside header.now status }
{
    is_same(header.version(), *b"D0") && stands_under(header.status(), status)
}

/// Whether a status may stand under this header response status (501-F1).
fn stands_under(header: u8, status: Status) -> bool
    ensures { result ≡ stands_under header status }
{
    match header {
        b'A' => true,
        b'R' => matches!(status, Status::Rejected),
        _ => false,
    }
}
