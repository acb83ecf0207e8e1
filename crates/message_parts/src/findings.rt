//! What the product makes of a framed request.

ghost use Rattle.std.specs.Prelude.{◌≡◌, ◌<◌, ◌++◌, [], ◌∷◌, length, map, IfOk, OnOk, is_some};
ghost use Rattle.d0_segments.specs.Pieces.{groups_of};
ghost use Rattle.d0_segments.specs.FramedParts.{framed_parts};
ghost use Rattle.claim_profile.specs.Transaction.{transaction_code};
ghost use Rattle.message_parts.specs.Causes.{causes_seen, causes_in};
ghost use Rattle.message_parts.specs.Findings.{
  Asks,
  Rejected,
  findings_seen,
  reasons_of,
  if_so,
  findings_in,
  order_findings,
  request_findings,
};

use crate::causes::{Cause, all_causes};
use claim_profile::{LONGEST_REQUEST, TransactionCode, order_at};
use d0_header::RequestHeader;
use d0_segments::Framed;
use std::alloc::{AllocError, Global};

/// Why a framed request is none that the product carries.
#[derive(Clone, Copy, PartialEq, Eq)]
pub enum Uncarried {
    /// It has more than 32,768 bytes.
    TooLong,
    /// Its version (102-A2) is not `D0`.
    OtherVersion,
    /// Its transaction code (103-A3) is neither `B1` nor `B2`.
    OtherCode,
}

/// One thing that is found of a framed request. Transactions are numbered from 1.
#[derive(Clone, Copy)]
pub enum Finding<'a> {
    /// The product does not carry it, for this reason.
    NotCarried(Uncarried),
    /// A transaction reads as an order: the one that `claim_profile::order_at` gives.
    Asks(usize),
    /// A transaction is rejected, for this cause among others.
    Rejected(usize, Cause<'a>),
}

/// What is found of a framed request, which is all of the bytes: every reason why the product does not carry it; else
/// of each transaction that it reads as an order, or every cause for which it is rejected.
///
/// # Errors
/// Want of memory.
#[tactic(auto, unfolding(crate::specs::Findings::request_findings))]
pub fn findings_of<'a>(
    alloc: Global,
    bytes: &[u8],
    framed: &Framed<'a, RequestHeader>,
) -> Result<Vec<Finding<'a>>, AllocError>
    ensures { IfOk result (λ found. findings_seen found.items ≡ request_findings bytes.now (framed_parts framed.now)) }
{
    let reasons = reasons(alloc, bytes, framed.header())?;
    if !reasons.is_empty() {
        return Ok(reasons);
    }
    of_transactions(alloc, framed)
}

/// Every reason why a framed request is not carried.
#[tactic(auto, unfolding(crate::specs::Findings::reasons_of))]
fn reasons<'a>(
    alloc: Global,
    bytes: &[u8],
    header: &RequestHeader,
) -> Result<Vec<Finding<'a>>, AllocError>
    ensures { IfOk result (λ findings. findings_seen findings.items ≡ reasons_of bytes.now header.now) }
{
    let is_long = bytes.len() > LONGEST_REQUEST;
    let is_other = header.version() != *b"D0";
    let is_unknown = !is_known(header);
    let mut findings = Vec::new(alloc);
    put_reason(&mut findings, is_long, Uncarried::TooLong)?;
    put_reason(&mut findings, is_other, Uncarried::OtherVersion)?;
    put_reason(&mut findings, is_unknown, Uncarried::OtherCode)?;
    Ok(findings)
}

/// Whether a request is a billing or a reversal.
fn is_known(header: &RequestHeader) -> bool
    ensures { result ≡ is_some (transaction_code header.now.code) }
{
    match TransactionCode::read(header.code()) {
        Some(TransactionCode::Billing | TransactionCode::Reversal) => true,
        None => false,
    }
}

/// Adds a reason, where it holds.
fn put_reason(
    findings: &mut Vec<Finding<'_>>,
    holds: bool,
    why: Uncarried,
) -> Result<(), AllocError>
    ensures { OnOk result (findings_seen findings.new.items ≡ findings_seen findings.old.items ++ if_so holds why) }
{
    if !holds {
        return Ok(());
    }
    findings.push(Finding::NotCarried(why))?;
    Ok(())
}

/// The findings of all transactions.
fn of_transactions<'a>(
    alloc: Global,
    framed: &Framed<'a, RequestHeader>,
) -> Result<Vec<Finding<'a>>, AllocError>
    ensures { IfOk result (λ found. let t = framed_parts framed.now in
        findings_seen found.items ≡ order_findings t.header t.shared 1 t.groups) }
{
    let count = framed.group_count();
    let mut findings = Vec::new(alloc);
    let mut place = 0;
    while place < count {
        let number = place + 1;
        put_transaction(&mut findings, framed, place, number)?;
        place = number;
    }
    Ok(findings)
}

/// Adds that the transaction of this number reads as an order, or every cause for which it is rejected.
#[tactic(auto, unfolding(crate::specs::Findings::transaction_findings))]
fn put_transaction<'a>(
    findings: &mut Vec<Finding<'a>>,
    framed: &Framed<'a, RequestHeader>,
    place: usize,
    number: usize,
) -> Result<(), AllocError>
    requires { place < length (groups_of framed.now.body.bytes.now) }
    ensures { OnOk result (findings_seen findings.new.items
        ≡ findings_seen findings.old.items ++ findings_in (framed_parts framed.now) number place) }
{
    match order_at(framed, place) {
        Ok(_) => put_order(findings, number),
        Err(_) => put_causes(findings, framed, place, number),
    }
}

/// Adds that a transaction reads as an order.
fn put_order(findings: &mut Vec<Finding<'_>>, transaction: usize) -> Result<(), AllocError>
    ensures { OnOk result (findings_seen findings.new.items
        ≡ findings_seen findings.old.items ++ Asks transaction ∷ []) }
{
    findings.push(Finding::Asks(transaction))?;
    Ok(())
}

/// Adds every cause for which a transaction is rejected.
fn put_causes<'a>(
    findings: &mut Vec<Finding<'a>>,
    framed: &Framed<'a, RequestHeader>,
    place: usize,
    number: usize,
) -> Result<(), AllocError>
    requires { place < length (groups_of framed.now.body.bytes.now) }
    ensures { OnOk result (findings_seen findings.new.items
        ≡ findings_seen findings.old.items ++ map (Rejected number) (causes_in (framed_parts framed.now) place)) }
{
    let causes = all_causes(*findings.allocator(), framed, place)?;
    put_all(findings, number, causes.as_slice())
}

/// Adds causes.
fn put_all<'a>(
    findings: &mut Vec<Finding<'a>>,
    transaction: usize,
    causes: &[Cause<'a>],
) -> Result<(), AllocError>
    ensures { OnOk result (findings_seen findings.new.items
        ≡ findings_seen findings.old.items ++ map (Rejected transaction) (causes_seen causes.now)) }
{
    for cause in causes {
        findings.push(Finding::Rejected(transaction, *cause))?;
    }
    Ok(())
}
