//! What a line asks of a node: a call, or something to be told.

ghost use Rattle.std.specs.Prelude.{◌≡◌, IfOk};
ghost use Rattle.std.specs.Option.{option_map};
ghost use Rattle.schedule.specs.Events.{cap_in, price_of};
ghost use Rattle.world_setup.specs.declared.call.Call.TheVariants.{Cap};
ghost use Rattle.node_service.specs.Asking.{adjudication, asked_of, asked_seen, bytes_in, call_of, call_with, cents_in, named_of, named_submission, noted_of, noted_seen, plain_call, plan_change, reference_in, reference_of, rule_change, submission, taking, terms_change, timed, unnoted};

use crate::questions::{MOST_NUMBER_DIGITS, Question, question_of};
use input_text::{PrintedFault, read_decimal, split_word, unprint};
use octets::Octets;
use schedule::{cap_in, node_in, price_in, product_in, switches_in};
use std::alloc::{AllocError, Global};
use world_setup::Call;

/// The most digits of a fee or a copay (own).
const MOST_CENTS_DIGITS: usize = 10;

/// The largest number of 32 bits.
const LARGEST: u64 = 4_294_967_295;

/// The most bytes of what a caller calls a submission (own).
const MOST_REFERENCE: usize = 64;

/// A call on the node, and what is noted of it.
#[derive(Drop)]
pub(crate) struct Noted {
    pub(crate) call: Call,
    /// When it is made: milliseconds, as the host counts them; 0 where it does not say.
    pub(crate) time: u64,
    /// What the caller calls it; no byte where it has no name.
    pub(crate) reference: Octets,
}

/// What a line asks of a node.
#[derive(Drop)]
pub(crate) enum Asked {
    /// A call on the node.
    Call(Noted),
    /// Something to be told, which changes nothing.
    Tell(Question),
}

/// What a line asks; `None` where it spells nothing.
///
/// The lines: `submit TEXT`, `submit-as REFERENCE TEXT`, `tick`, `take FROM TEXT`, `adjudicate FROM ADVICE TEXT`, `stop`, `start`,
/// `plan PRODUCT PRICE`, `terms FEE COPAY`, `retry SWITCHES AGAIN TRIES`, `cap ENTRIES`, each also after `at TIME`, and those that change nothing,
/// `answer NUMBER`, `open NUMBER COUNT`, `count`, `row NUMBER`, `payments NUMBER COUNT`. Texts, references and advices are printed bytes.
///
/// # Errors
/// Memory was refused.
#[tactic(auto, unfolding(crate::specs::Asking::asked_of))]
pub(crate) fn asked_of(alloc: Global, line: &[u8]) -> Result<Option<Asked>, AllocError>
    ensures { IfOk result (λ asked. option_map asked_seen asked ≡ asked_of line.now) }
{
    if let Some(noted) = noted_of(alloc, line)? {
        return Ok(Some(Asked::Call(noted)));
    }
    match question_of(line) {
        Some(question) => Ok(Some(Asked::Tell(question))),
        None => Ok(None),
    }
}

/// The call that a line spells, and what is noted of it.
#[tactic(auto, unfolding(crate::specs::Asking::noted_of))]
fn noted_of(alloc: Global, line: &[u8]) -> Result<Option<Noted>, AllocError>
    ensures { IfOk result (λ noted. option_map noted_seen noted ≡ noted_of line.now) }
{
    match split_word(line) {
        Some((word, rest)) if word == b"at".as_slice() => timed(alloc, rest),
        _ => named_of(alloc, line),
    }
}

/// A call at a time.
#[tactic(auto, unfolding(crate::specs::Asking::timed))]
fn timed(alloc: Global, rest: &[u8]) -> Result<Option<Noted>, AllocError>
    ensures { IfOk result (λ noted. option_map noted_seen noted ≡ timed rest.now) }
{
    let Some((first, line)) = split_word(rest) else {
        return Ok(None);
    };
    let Some(time) = read_decimal(first, MOST_NUMBER_DIGITS) else {
        return Ok(None);
    };
    match named_of(alloc, line)? {
        Some(
            Noted {
                call,
                reference,
                ..
            },
        ) => Ok(Some(Noted {
            call,
            time,
            reference,
        })),
        None => Ok(None),
    }
}

/// A call, or a submission under a reference.
#[tactic(auto, unfolding(crate::specs::Asking::named_of))]
fn named_of(alloc: Global, line: &[u8]) -> Result<Option<Noted>, AllocError>
    ensures { IfOk result (λ noted. option_map noted_seen noted ≡ named_of line.now) }
{
    match split_word(line) {
        Some((word, rest)) if word == b"submit-as".as_slice() => named_submission(alloc, rest),
        _ => Ok(unnoted(alloc, call_of(alloc, line)?)),
    }
}

/// A call of which nothing is noted.
fn unnoted(alloc: Global, call: Option<Call>) -> Option<Noted>
    ensures { option_map noted_seen result ≡ unnoted call }
{
    let call = call?;
    Some(Noted {
        call,
        time: 0,
        reference: Octets::from_vec(Vec::new(alloc)),
    })
}

/// A submission under a reference.
#[tactic(auto, unfolding(crate::specs::Asking::named_submission))]
fn named_submission(alloc: Global, rest: &[u8]) -> Result<Option<Noted>, AllocError>
    ensures { IfOk result (λ noted. option_map noted_seen noted ≡ named_submission rest.now) }
{
    let Some((name, text)) = split_word(rest) else {
        return Ok(None);
    };
    let Some(reference) = reference_in(alloc, name)? else {
        return Ok(None);
    };
    match submission(alloc, text)? {
        Some(call) => Ok(Some(Noted {
            call,
            time: 0,
            reference,
        })),
        None => Ok(None),
    }
}

/// What a caller calls a submission: printed bytes, of 1 to 64.
#[tactic(auto, unfolding(crate::specs::Asking::reference_in))]
fn reference_in(alloc: Global, word: &[u8]) -> Result<Option<Octets>, AllocError>
    ensures { IfOk result (λ name. name ≡ reference_in word.now) }
{
    match unprint(alloc, word) {
        Ok(name) => Ok(reference_of(name)),
        Err(PrintedFault::BadByte(_)) => Ok(None),
        Err(PrintedFault::OutOfMemory) => Err(AllocError),
    }
}

/// A reference has 1 to 64 bytes.
fn reference_of(name: Vec<u8>) -> Option<Octets>
    ensures { result ≡ reference_of name.items }
{
    if 1 <= name.len() && name.len() <= MOST_REFERENCE {
        Some(Octets::from_vec(name))
    } else {
        None
    }
}

/// The call that a line spells; `None` where it spells none.
///
/// # Errors
/// Memory was refused.
#[tactic(auto, unfolding(crate::specs::Asking::call_of))]
fn call_of(alloc: Global, line: &[u8]) -> Result<Option<Call>, AllocError>
    ensures { IfOk result (λ call. call ≡ call_of line.now) }
{
    match split_word(line) {
        Some((word, rest)) => call_with(alloc, word, rest),
        None => Ok(plain_call(line)),
    }
}

/// The call of a word and what stands after it.
fn call_with(alloc: Global, word: &[u8], rest: &[u8]) -> Result<Option<Call>, AllocError>
    ensures { IfOk result (λ call. call ≡ call_with word.now rest.now) }
{
    if word == b"submit".as_slice() {
        return submission(alloc, rest);
    }
    if word == b"take".as_slice() {
        return taking(alloc, rest);
    }
    if word == b"adjudicate".as_slice() {
        return adjudication(alloc, rest);
    }
    if word == b"plan".as_slice() {
        return plan_change(alloc, rest);
    }
    if word == b"terms".as_slice() {
        return Ok(terms_change(rest));
    }
    if word == b"retry".as_slice() {
        return rule_change(alloc, rest);
    }
    if word == b"cap".as_slice() {
        return Ok(cap_change(rest));
    }
    Ok(None)
}

/// The calls that are one word.
fn plain_call(line: &[u8]) -> Option<Call>
    ensures { result ≡ plain_call line.now }
{
    if line == b"tick".as_slice() {
        return Some(Call::Tick);
    }
    if line == b"stop".as_slice() {
        return Some(Call::Stop);
    }
    if line == b"start".as_slice() {
        return Some(Call::Start);
    }
    None
}

/// A submission, of a request in printed bytes.
fn submission(alloc: Global, text: &[u8]) -> Result<Option<Call>, AllocError>
    ensures { IfOk result (λ call. call ≡ submission text.now) }
{
    match unprint(alloc, text) {
        Ok(text) => Ok(Some(Call::Submit(Octets::from_vec(text)))),
        Err(PrintedFault::BadByte(_)) => Ok(None),
        Err(PrintedFault::OutOfMemory) => Err(AllocError),
    }
}

/// The taking of a packet, by its sender and its printed bytes.
#[tactic(auto, unfolding(crate::specs::Asking::taking))]
fn taking(alloc: Global, rest: &[u8]) -> Result<Option<Call>, AllocError>
    ensures { IfOk result (λ call. call ≡ taking rest.now) }
{
    let Some((word, text)) = split_word(rest) else {
        return Ok(None);
    };
    let Some(from) = node_in(word) else {
        return Ok(None);
    };
    match unprint(alloc, text) {
        Ok(bytes) => Ok(Some(Call::Take {
            from,
            bytes: Octets::from_vec(bytes),
        })),
        Err(PrintedFault::BadByte(_)) => Ok(None),
        Err(PrintedFault::OutOfMemory) => Err(AllocError),
    }
}

/// The taking of a packet with an advice, by its sender, the printed bytes of the advice as one word, and the packet's.
#[tactic(auto, unfolding(crate::specs::Asking::adjudication))]
fn adjudication(alloc: Global, rest: &[u8]) -> Result<Option<Call>, AllocError>
    ensures { IfOk result (λ call. call ≡ adjudication rest.now) }
{
    let Some((word, behind)) = split_word(rest) else {
        return Ok(None);
    };
    let Some(from) = node_in(word) else {
        return Ok(None);
    };
    let Some((first, text)) = split_word(behind) else {
        return Ok(None);
    };
    let Some(advice) = bytes_in(alloc, first)? else {
        return Ok(None);
    };
    match bytes_in(alloc, text)? {
        Some(bytes) => Ok(Some(Call::Adjudicate {
            from,
            bytes,
            advice,
        })),
        None => Ok(None),
    }
}

/// The bytes that a text spells; `None` where it spells none.
fn bytes_in(alloc: Global, text: &[u8]) -> Result<Option<Octets>, AllocError>
    ensures { IfOk result (λ bytes. bytes ≡ bytes_in text.now) }
{
    match unprint(alloc, text) {
        Ok(bytes) => Ok(Some(Octets::from_vec(bytes))),
        Err(PrintedFault::BadByte(_)) => Ok(None),
        Err(PrintedFault::OutOfMemory) => Err(AllocError),
    }
}

/// The change of a price, by a product and its price.
#[tactic(auto, unfolding(crate::specs::Asking::plan_change))]
fn plan_change(alloc: Global, rest: &[u8]) -> Result<Option<Call>, AllocError>
    ensures { IfOk result (λ call. call ≡ plan_change rest.now) }
{
    let Some((word, price)) = split_word(rest) else {
        return Ok(None);
    };
    let Some(product) = product_in(alloc, word)? else {
        return Ok(None);
    };
    match price_in(price) {
        Some(price) => Ok(Some(Call::Plan { product, price })),
        None => Ok(None),
    }
}

/// The change of the terms of a plan, by a fee and a copay.
#[tactic(auto, unfolding(crate::specs::Asking::terms_change))]
fn terms_change(rest: &[u8]) -> Option<Call>
    ensures { result ≡ terms_change rest.now }
{
    let (first, behind) = split_word(rest)?;
    let fee = cents_in(first)?;
    let copay = cents_in(behind)?;
    Some(Call::Terms { fee, copay })
}

/// Another rule of retries, by switches and two numbers.
#[tactic(auto, unfolding(crate::specs::Asking::rule_change))]
fn rule_change(alloc: Global, rest: &[u8]) -> Result<Option<Call>, AllocError>
    ensures { IfOk result (λ call. call ≡ rule_change rest.now) }
{
    let Some((switches, behind)) = split_word(rest) else {
        return Ok(None);
    };
    let Some(nodes) = switches_in(alloc, switches)? else {
        return Ok(None);
    };
    let Some((first, second)) = split_word(behind) else {
        return Ok(None);
    };
    let Some(again) = cents_in(first) else {
        return Ok(None);
    };
    match cents_in(second) {
        Some(tries) => Ok(Some(Call::Retry {
            nodes,
            again,
            tries,
        })),
        None => Ok(None),
    }
}

/// Another cap.
fn cap_change(word: &[u8]) -> Option<Call>
    ensures { result ≡ option_map Cap (cap_in word.now) }
{
    let entries = cap_in(word)?;
    Some(Call::Cap { entries })
}

/// The number of cents that a word spells.
fn cents_in(word: &[u8]) -> Option<u32>
    ensures { result ≡ cents_in word.now }
{
    let number = read_decimal(word, MOST_CENTS_DIGITS)?;
    price_of(number)
}

/// A number of 32 bits.
fn price_of(number: u64) -> Option<u32>
    ensures { result ≡ price_of number }
{
    if number > LARGEST {
        return None;
    }
    Some(number as u32)
}
