//! What is found of a request, as it is written.

ghost use Rattle.std.specs.Prelude.{◌≡◌, ◌-◌, ◌<◌, [], ◌∷◌, length};
ghost use Rattle.d0_segments.specs.FramedParts.{framed_parts};
ghost use Rattle.claim_profile.specs.Order.{placed_order};
ghost use Rattle.message_parts.specs.Causes.{cause_seen};
ghost use Rattle.message_parts.specs.Findings.{finding_seen, findings_seen, request_findings};
ghost use Rattle.message_words.specs.RequestWords.{
  asked_said,
  cause_said,
  finding_said,
  findings_said,
  left_to_tell,
  order_said,
  request_said,
  transaction_of,
  uncarried_said,
  why_words,
};
ghost use Rattle.message_words.specs.Sayings.{Finds};

use crate::cause_lines::CauseTold;
use crate::facts::Fact;
use crate::finding_page::FindingPage;
use crate::sentences::NOT_CARRIED;
use crate::wanted::wanted_in;
use claim_profile::{TransactionCode, order_at};
use d0_header::RequestHeader;
use d0_segments::{Framed, check_request};
use message_parts::{Cause, FieldName, Finding, Found, Uncarried, findings_of};
use std::alloc::Global;

/// How many causes of a transaction an answer tells.
const TOLD: u64 = 5;

impl FindingPage {
    /// Writes what is found of a request that stands at a place of the message.
    #[tactic(auto, unfolding(crate::specs::RequestWords::request_said))]
    pub(crate) fn request(&mut self, alloc: Global, bytes: &[u8], place: usize)
        ensures { Finds (request_said place bytes.now) self.old self.new }
    {
        match check_request(bytes) {
            Ok(framed) => self.framed_request(alloc, bytes, &framed),
            Err(fault) => self.framing_fault(fault, bytes, place),
        }
    }

    /// Writes what is found of a framed request.
    #[tactic(auto, using(crate::proofs::Sayings::refused))]
    fn framed_request(&mut self, alloc: Global, bytes: &[u8], framed: &Framed<'_, RequestHeader>)
        ensures { Finds (findings_said (framed_parts framed.now) 0 5 (request_findings bytes.now (framed_parts framed.now)))
            self.old self.new }
    {
        match findings_of(alloc, bytes, framed) {
            Ok(findings) => self.request_findings(framed, findings.as_slice()),
            Err(_) => self.refuse(),
        }
    }

    /// Writes findings one after another.
    fn request_findings(&mut self, framed: &Framed<'_, RequestHeader>, findings: &[Finding<'_>])
        ensures { Finds (findings_said (framed_parts framed.now) 0 5 (findings_seen findings.now)) self.old self.new }
    {
        let mut last = 0usize;
        let mut left = TOLD;
        for finding in findings {
            let transaction = transaction_of(finding);
            let here = left_to_tell(last, transaction, left);
            self.request_finding(framed, finding, here > 0);
            last = transaction;
            left = here.saturating_sub(1);
        }
    }

    /// Writes a finding. Whether an answer tells it hangs on how many causes stand before it.
    fn request_finding(
        &mut self,
        framed: &Framed<'_, RequestHeader>,
        finding: &Finding<'_>,
        is_told: bool,
    )
        ensures { Finds (finding_said (framed_parts framed.now) (finding_seen finding.now) is_told) self.old self.new }
    {
        match finding {
            Finding::NotCarried(why) => self.uncarried(*why),
            Finding::Asks(transaction) => self.order_of(framed, *transaction),
            Finding::Rejected(transaction, cause) => {
                self.cause(framed.header(), *transaction, cause, is_told);
            }
        }
    }

    /// Writes why a request is not carried.
    fn uncarried(&mut self, why: Uncarried)
        ensures { Finds (uncarried_said why ∷ []) self.old self.new }
    {
        self.tell(NOT_CARRIED, &[Fact::Words(why_words(why).as_bytes())]);
    }

    /// Writes the order of the transaction of this number, where there is one.
    #[tactic(auto, using(crate::proofs::Sayings::none_said))]
    fn order_of(&mut self, framed: &Framed<'_, RequestHeader>, transaction: usize)
        ensures { Finds (asked_said (framed_parts framed.now) transaction) self.old self.new }
    {
        let place = transaction.saturating_sub(1);
        if place < framed.group_count() {
            self.order_at(framed, place, transaction);
        }
    }

    /// Writes the order of the transaction at a place.
    #[tactic(auto, using(crate::proofs::Sayings::none_said))]
    fn order_at(&mut self, framed: &Framed<'_, RequestHeader>, place: usize, transaction: usize)
        requires { place < length (framed_parts framed.now).groups }
        ensures { Finds (order_said transaction (placed_order (framed_parts framed.now) place)) self.old self.new }
    {
        match order_at(framed, place) {
            Ok(order) => self.order(transaction as u64, &order),
            Err(_) => {}
        }
    }

    /// Writes a cause for which a transaction is rejected.
    fn cause(
        &mut self,
        header: &RequestHeader,
        transaction: usize,
        cause: &Cause<'_>,
        is_told: bool,
    )
        ensures { Finds (cause_said header.now transaction (cause_seen cause.now) is_told ∷ []) self.old self.new }
    {
        let told = CauseTold {
            field: cause.field,
            wanted: wanted_in(cause.field, TransactionCode::read(header.code())),
            is_told,
        };
        match cause.field {
            FieldName::DateOfService => {
                self.cause_told(transaction as u64, told, Found::One(&header.date()));
            }
            _ => self.cause_told(transaction as u64, told, cause.found),
        }
    }
}

/// How many causes of a transaction an answer still tells, where it told those of another one before.
fn left_to_tell(last: usize, transaction: usize, left: u64) -> u64
    ensures { result ≡ left_to_tell last transaction left }
{
    if last == transaction { left } else { TOLD }
}

/// Why a request is not carried, in words.
fn why_words(why: Uncarried) -> &'static str
    ensures { result.now ≡ why_words why }
{
    match why {
        Uncarried::TooLong => "it has more than 32,768 bytes",
        Uncarried::OtherVersion => "its version (102-A2) is not D0",
        Uncarried::OtherCode => "its transaction code (103-A3) is neither B1 nor B2",
    }
}

/// The number of the transaction that a finding is about; 0 where it is about all.
fn transaction_of(finding: &Finding<'_>) -> usize
    ensures { result ≡ transaction_of (finding_seen finding.now) }
{
    match finding {
        Finding::NotCarried(_) => 0,
        Finding::Asks(transaction) | Finding::Rejected(transaction, _) => *transaction,
    }
}
