//! Reading answers.

ghost use Rattle.std.specs.Prelude.{◌≡◌, ◌<◌, ◌≤◌, List, length, Some, Ok, Err, IfOk, IfErr, OnOk, IfSome};
ghost use Rattle.d0_segments.specs.Pieces.{shared_of, groups_of};
ghost use Rattle.d0_segments.specs.Cursors.{FindsGroup};
ghost use Rattle.claim_profile.specs.Tally.{seen};
ghost use Rattle.claim_profile.specs.Money.{largest};
ghost use Rattle.claim_profile.specs.AnswerTally.{answer_seen};
ghost use Rattle.claim_profile.specs.Ruling.{ruling_in, rulings_in, said_by, answer_of, advice_of, FailsAs};
ghost use Rattle.claim_profile.specs.RulingSeen.{ruled_seen, payment_seen, authorization_seen, claim_number_seen, fee_said, money_seen, all_money_seen, rejection_in, or_rejection};
ghost use Rattle.claim_profile.specs.declared.answer_reading.AnswerFault.TheVariants.{OutOfMemory};
ghost use Rattle.claim_profile.specs.declared.answer_reading.Speaker.TheVariants.{Book};

use crate::answer_status::{Status, status_beside};
use crate::answer_values::{AnswerValues, FoundCodes};
use crate::authorization::Auth;
use crate::found::Found;
use crate::paid::Amounts;
use crate::ruling::Ruling;
use crate::values::{cents, cents_if_given, is_exactly, number};
use d0_header::ResponseHeader;
use d0_segments::{Cursor, check_response};
use std::alloc::{AllocError, AllocFailed, Global};
use std::marker::Model;
use thiserror::Error;

/// Why bytes are no answer: framing first, then the first group with a fault decides. Within a group
/// the order is NoStatus, BadStatus, BadAuthorization, BadClaim, BadAmount, BadRejects.
#[derive(Clone, Copy, Debug, PartialEq, Eq, Error)]
pub enum AnswerFault {
    /// There was no memory for the lists of groups, segments, fields and rulings.
    #[error("out of memory")]
    OutOfMemory,
    /// The bytes are no response transmission.
    #[error("the bytes are no response")]
    Framing,
    /// A group has no transaction response status (112-AN), or several.
    #[error("a transaction has not exactly one response status")]
    NoStatus,
    /// The status is none of `P`, `D`, `A` and `R`, nor `S` of a payer's own system; or the version is not `D0`; or the header
    /// response status (501-F1) is neither `A` nor `R`, or is `R` beside a status other than `R`.
    #[error("a response status is unknown or contradicts the header")]
    BadStatus,
    /// One of the four amounts is missing, doubled, no amount or negative.
    #[error("the amounts of a transaction are missing or invalid")]
    BadAmount,
    /// The authorization number (503-F3) is missing, doubled or not sixteen digits of a payer and
    /// a serial above zero.
    #[error("an authorization number is missing or invalid")]
    BadAuthorization,
    /// The reject codes are missing, more than five, none of two or three digits and capital letters, or not as many as the
    /// reject count says.
    #[error("the reject codes of a transaction are missing or invalid")]
    BadRejects,
    /// The prescription number or its qualifier is missing or invalid.
    #[error("the prescription number of a transaction is missing or invalid")]
    BadClaim,
}

impl From<AllocError> for AnswerFault {
    ghost from_gives = { λ _ e. e ≡ OutOfMemory };

    fn from(_error: AllocError) -> AnswerFault {
        AnswerFault::OutOfMemory
    }
}

impl<T: Drop> From<AllocFailed<T>> for AnswerFault {
    ghost from_gives = { λ _ e. e ≡ OutOfMemory };

    fn from(_error: AllocFailed<T>) -> AnswerFault {
        AnswerFault::OutOfMemory
    }
}

/// An answer: its header, and one ruling for each transaction, in order.
#[derive(Drop)]
pub struct Answer {
    header: ResponseHeader,
    rulings: Vec<Ruling>,
}

impl Model for Answer {
    ghost use Rattle.claim_profile.specs.Ruling.{AnswerParts};

    ghost Value = { AnswerParts };

    ghost view = { λ a. record { header = a.header; rulings = a.rulings.items } };
}

impl Answer {
    /// The header of the response.
    pub fn header(&self) -> &ResponseHeader
        ensures { result.now ≡ self.now.header }
    {
        &self.header
    }

    /// The rulings, one for each transaction.
    pub fn rulings(&self) -> &[Ruling]
        ensures { result.now ≡ self.now.rulings }
    {
        &self.rulings
    }

    /// The rulings, one for each transaction.
    pub fn into_rulings(self) -> Vec<Ruling>
        ensures { result.items ≡ self.rulings }
    {
        let Answer { header: _, rulings } = self;
        rulings
    }
}

/// Reads an answer. Fields and segments come in any order, unknown ones and fields that a ruling
/// does not have are ignored, and empty values do not count.
pub fn read_answer(alloc: Global, bytes: &[u8]) -> Result<Answer, AnswerFault>
    ensures read { IfOk result (λ answer. answer_of bytes.now ≡ Ok answer) }
    // The first fault, unless memory ran out.
    ensures fault { IfErr result (λ fault. FailsAs fault (answer_of bytes.now)) }
{
    read_answer_into(Vec::new(alloc), bytes)
}

/// Reads what a payer's own system answers, as [`read_answer`] does, but for its authorization numbers (503-F3), which may be any
/// or none and are not looked at, for fees that are paid (507-F7): one that is not there is 0, and for the status `S` of a reversal
/// that it is asked about again, which is read as `A`.
pub fn read_advice(alloc: Global, bytes: &[u8]) -> Result<Answer, AnswerFault>
    ensures read { IfOk result (λ advice. advice_of bytes.now ≡ Ok advice) }
    ensures fault { IfErr result (λ fault. FailsAs fault (advice_of bytes.now)) }
{
    read_said(Speaker::System, Vec::new(alloc), bytes)
}

/// Reads an answer as [`read_answer`] does, its rulings into a list whose memory is used again. What the list held is gone.
pub fn read_answer_into(list: Vec<Ruling>, bytes: &[u8]) -> Result<Answer, AnswerFault>
    ensures read { IfOk result (λ answer. answer_of bytes.now ≡ Ok answer) }
    ensures fault { IfErr result (λ fault. FailsAs fault (answer_of bytes.now)) }
{
    read_said(Speaker::Book, list, bytes)
}

/// Who gives an answer.
#[derive(Clone, Copy)]
pub(crate) enum Speaker {
    /// A payer's book: its authorization numbers are read.
    Book,
    /// A payer's own system: its authorization numbers are not looked at, a fee may be left out, and `S` is a status.
    System,
}

/// Reads an answer of this speaker, its rulings into a list whose memory is used again.
#[tactic(auto, using(crate::proofs::RulingList::framing_fails))]
fn read_said(by: Speaker, list: Vec<Ruling>, bytes: &[u8]) -> Result<Answer, AnswerFault>
    ensures read { IfOk result (λ answer. said_by by bytes.now ≡ Ok answer) }
    ensures fault { IfErr result (λ fault. FailsAs fault (said_by by bytes.now)) }
{
    let framed = match check_response(bytes) {
        Ok(framed) => framed,
        Err(_) => return Err(AnswerFault::Framing),
    };
    let header = *framed.header();
    let rulings = rulings_of(by, list, &header, framed.body(), framed.group_count())?;
    Ok(Answer { header, rulings })
}

/// Tells whether bytes are an answer, as [`read_answer`] does, and gives its header. Takes no memory.
#[tactic(auto, using(crate::proofs::RulingList::framing_fails))]
pub fn check_answer(bytes: &[u8]) -> Result<ResponseHeader, AnswerFault>
    ensures read { IfOk result (λ header. (rulings : List Ruling)
        × (answer_of bytes.now ≡ Ok (record { header = header; rulings = rulings }))) }
    // Which fault it is: the first one.
    ensures fault { IfErr result (λ fault. answer_of bytes.now ≡ Err fault) }
{
    let framed = match check_response(bytes) {
        Ok(framed) => framed,
        Err(_) => return Err(AnswerFault::Framing),
    };
    let header = *framed.header();
    check_rulings(&header, framed.body(), framed.group_count())?;
    Ok(header)
}

/// Tests the rulings of the groups after a place, this many, in order.
#[tactic(auto, using(crate::proofs::RulingList::begins, crate::proofs::RulingList::is_done))]
fn check_rulings(header: &ResponseHeader, from: Cursor<'_>, count: usize) -> Result<(), AnswerFault>
    requires { count ≡ length (groups_of from.bytes.now) }
    ensures read { OnOk result ((rulings : List Ruling)
        × (rulings_in Book header.now (groups_of from.entry.bytes.now) ≡ Ok rulings)) }
    ensures fault { IfErr result (λ fault. rulings_in Book header.now (groups_of from.entry.bytes.now) ≡ Err fault) }
{
    let mut rest = from;
    let mut left = count;
    while let Some(group) = next_group(rest, left) {
        let _ruling = ruling(Speaker::Book, header, group)?;
        rest = group;
        left -= 1;
    }
    Ok(())
}

/// The rulings of the groups after a place, this many, in order, in a list whose memory is used again.
#[tactic(auto, using(crate::proofs::RulingList::begins, crate::proofs::RulingList::is_done))]
fn rulings_of(
    by: Speaker,
    list: Vec<Ruling>,
    header: &ResponseHeader,
    from: Cursor<'_>,
    count: usize,
) -> Result<Vec<Ruling>, AnswerFault>
    requires { count ≡ length (groups_of from.bytes.now) }
    ensures read { IfOk result (λ rulings. rulings_in by header.now (groups_of from.entry.bytes.now)
        ≡ Ok rulings.items) }
    ensures fault { IfErr result (λ fault. FailsAs fault (rulings_in by header.now (groups_of from.entry.bytes.now))) }
{
    let mut rulings = list;
    rulings.clear();
    let mut rest = from;
    let mut left = count;
    while let Some(group) = next_group(rest, left) {
        let ruling = ruling(by, header, group)?;
        rulings.push(ruling)?;
        rest = group;
        left -= 1;
    }
    Ok(rulings)
}

/// The place where the next group begins, of this many that are left: after the last one none is looked for.
#[inline(always)]
fn next_group(rest: Cursor<'_>, left: usize) -> Option<Cursor<'_>>
    requires { left ≡ length (groups_of rest.bytes.now) }
    ensures groups { FindsGroup rest.entry.bytes.now result }
    ensures shorter { IfSome result (λ x. length x.bytes.now < length rest.entry.bytes.now) }
{
    if left == 0 {
        return None;
    }
    rest.group()
}

/// The ruling that the segments of one transaction spell. Takes no memory.
fn ruling(by: Speaker, header: &ResponseHeader, group: Cursor<'_>) -> Result<Ruling, AnswerFault>
    ensures { result ≡ ruling_in by header.now (shared_of group.entry.bytes.now) }
{
    ruling_of(by, header, &AnswerValues::of(group), group)
}

/// The ruling that these values of a group spell.
fn ruling_of(
    by: Speaker,
    header: &ResponseHeader,
    values: &AnswerValues<'_>,
    group: Cursor<'_>,
) -> Result<Ruling, AnswerFault>
    ensures { result ≡ or_rejection (ruled_seen by header.now (answer_seen values.now))
        (rejection_in (shared_of group.entry.bytes.now) (seen values.now.reject_count)) }
{
    match ruled(by, header, values)? {
        Some(ruling) => Ok(ruling),
        None => rejected(values.reject_count, group),
    }
}

/// The ruling that these values spell, None where the transaction is rejected.
fn ruled(
    by: Speaker,
    header: &ResponseHeader,
    values: &AnswerValues<'_>,
) -> Result<Option<Ruling>, AnswerFault>
    ensures { result ≡ ruled_seen by header.now (answer_seen values.now) }
{
    match status_beside(by, header, values.status)? {
        Status::Paid => {
            let (auth, prescription, amounts) = payment(by, values)?;
            Ok(Some(Ruling::Paid {
                auth,
                prescription,
                amounts,
            }))
        }
        Status::Duplicate => {
            let (auth, prescription, amounts) = payment(by, values)?;
            Ok(Some(Ruling::Duplicate {
                auth,
                prescription,
                amounts,
            }))
        }
        Status::Reversed => {
            let auth = authorization(by, values.authorization)?;
            let prescription = prescription(values)?;
            Ok(Some(Ruling::Reversed { auth, prescription }))
        }
        Status::Rejected => Ok(None),
    }
}

/// What a paid claim has: authorization number, prescription number and amounts.
fn payment(by: Speaker, values: &AnswerValues<'_>) -> Result<(Auth, u64, Amounts), AnswerFault>
    ensures { result ≡ payment_seen by (answer_seen values.now) }
{
    let auth = authorization(by, values.authorization)?;
    let prescription = prescription(values)?;
    let amounts = amounts(by, values)?;
    Ok((auth, prescription, amounts))
}

fn authorization(by: Speaker, found: Found<'_>) -> Result<Auth, AnswerFault>
    ensures { result ≡ authorization_seen by (seen found.entry) }
{
    match by {
        Speaker::Book => given_authorization(found),
        Speaker::System => Ok(Auth::unread()),
    }
}

fn given_authorization(found: Found<'_>) -> Result<Auth, AnswerFault>
    ensures { result ≡ authorization_seen Book (seen found.entry) }
{
    match found.one() {
        Some(text) => Auth::read(text).ok_or(AnswerFault::BadAuthorization),
        None => Err(AnswerFault::BadAuthorization),
    }
}

fn prescription(values: &AnswerValues<'_>) -> Result<u64, AnswerFault>
    ensures { result ≡ claim_number_seen (answer_seen values.now) }
{
    if !is_exactly(values.prescription_qualifier, b"1") {
        return Err(AnswerFault::BadClaim);
    }
    number(values.prescription, 12).ok_or(AnswerFault::BadClaim)
}

fn amounts(by: Speaker, values: &AnswerValues<'_>) -> Result<Amounts, AnswerFault>
    ensures { result ≡ money_seen by (answer_seen values.now) }
{
    all_amounts(by, values).ok_or(AnswerFault::BadAmount)
}

/// The four amounts.
fn all_amounts(by: Speaker, values: &AnswerValues<'_>) -> Option<Amounts>
    ensures { result ≡ all_money_seen by (answer_seen values.now) }
{
    let cost = cents(values.cost)?;
    let fee = fee(by, values.fee)?;
    let copay = cents(values.copay)?;
    let total = cents(values.total)?;
    Some(Amounts::of_cents(cost, fee, copay, total))
}

/// The fee that is paid (507-F7), which a payer's own system may leave out.
fn fee(by: Speaker, found: Found<'_>) -> Option<u32>
    ensures value { result ≡ fee_said by (seen found.entry) }
    ensures range { IfSome result (λ n. n ≤ largest) }
{
    match by {
        Speaker::Book => cents(found),
        Speaker::System => cents_if_given(found),
    }
}

/// A rejection, where the count is that of the codes.
fn rejected(count: Found<'_>, group: Cursor<'_>) -> Result<Ruling, AnswerFault>
    ensures { result ≡ rejection_in (shared_of group.entry.bytes.now) (seen count.entry) }
{
    match (FoundCodes::of(group).all(), number(count, 2)) {
        (Some(rejects), Some(count)) if count == rejects.as_slice().len() as u64 => {
            Ok(Ruling::Rejected { rejects })
        }
        _ => Err(AnswerFault::BadRejects),
    }
}
