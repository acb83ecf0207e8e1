//! The lines of commands.

ghost use Rattle.std.specs.Prelude.{◌≡◌, ◌∷◌, [], ◌++◌, true, codes, decimal, IfSome, IsSome, OnOk};
ghost use Rattle.claim_profile.specs.Ruling.{answer_of};
ghost use Rattle.claim_model.specs.Refusal.{refusal_of, refusal_name};
ghost use Rattle.world_report.specs.Words.{Line};
ghost use Rattle.world_report.specs.Adding.{AddsLine, AddsLines, AddsWords};
ghost use Rattle.world_report.specs.Places.{place_mark};
ghost use Rattle.schedule_run.specs.Told.{is_unreadable, done_line, number_line, refusal_line, pharmacy_word, answer_lines, open_lines, settled_lines, open_line, settled_line, IsLineOf};

use claim_profile::{AnswerFault, Ruling, read_answer};
use schedule::put_node;
use std::alloc::{AllocError, Global};
use world_report::{end_line, put_mark, put_number, put_ruling, put_word};
use world_setup::{Fault, Node};

/// Appends the line of a command that was made, or of its refusal.
#[tactic(auto, using(std::proofs::lemmas::Result::on_ok_weaker, crate::proofs::Words::refusal_told, crate::proofs::Words::on_ok_both))]
pub(crate) fn put_outcome(out: &mut Vec<u8>, outcome: Result<(), Fault>) -> Result<(), AllocError>
    ensures { OnOk result ((line : Line) × AddsLine out.old out.new line × IsLineOf (λ _. done_line) outcome line) }
{
    match outcome {
        Ok(()) => put_done(out),
        Err(fault) => put_fault(out, fault),
    }
}

/// Appends the line of a submission: the number of its entry, or its refusal.
#[tactic(auto, using(std::proofs::lemmas::Result::on_ok_weaker, crate::proofs::Words::refusal_told, crate::proofs::Words::on_ok_both))]
pub(crate) fn put_submitted(
    out: &mut Vec<u8>,
    outcome: Result<u64, Fault>,
) -> Result<(), AllocError>
    ensures { OnOk result ((line : Line) × AddsLine out.old out.new line × IsLineOf number_line outcome line) }
{
    match outcome {
        Ok(number) => put_entered(out, number),
        Err(fault) => put_fault(out, fault),
    }
}

/// Appends the line of what was made.
#[tactic(auto, using(std::proofs::lemmas::Result::on_ok_weaker, world_report::proofs::JoinedWords::line_joins, world_report::proofs::JoinedWords::no_words))]
pub(crate) fn put_done(out: &mut Vec<u8>) -> Result<(), AllocError>
    ensures { OnOk result (AddsLine out.old out.new done_line) }
{
    out.extend_from_slice(b"ok")?;
    end_line(out)
}

/// Appends the line of a submission that was taken.
#[tactic(auto, using(std::proofs::lemmas::Result::on_ok_weaker, world_report::proofs::JoinedWords::line_joins))]
fn put_entered(out: &mut Vec<u8>, number: u64) -> Result<(), AllocError>
    ensures { OnOk result (AddsLine out.old out.new (number_line number)) }
{
    out.extend_from_slice(b"number")?;
    put_number(out, number)?;
    end_line(out)
}

/// Appends the line of what a node refused.
fn put_fault(out: &mut Vec<u8>, fault: Fault) -> Result<(), AllocError>
    ensures line { OnOk result (IfSome (refusal_of fault)
        (λ why. AddsLine out.old out.new (refusal_line (refusal_name why)))) }
    ensures known { OnOk result (IsSome (refusal_of fault)) }
{
    match fault {
        Fault::OutOfMemory => Err(AllocError),
        Fault::Refused(why) => put_refused(out, why.name().as_bytes()),
    }
}

/// Appends the line of a refusal.
#[tactic(auto, using(std::proofs::lemmas::Result::on_ok_weaker, world_report::proofs::JoinedWords::line_joins))]
pub(crate) fn put_refused(out: &mut Vec<u8>, name: &[u8]) -> Result<(), AllocError>
    ensures { OnOk result (AddsLine out.old out.new (refusal_line name.now)) }
{
    out.extend_from_slice(b"refused")?;
    put_word(out, name)?;
    end_line(out)
}

/// Appends the lines of a request that is still open: one for each of its places.
pub(crate) fn put_open(
    out: &mut Vec<u8>,
    pharmacy: u16,
    number: u64,
    places: u8,
) -> Result<(), AllocError>
    ensures { OnOk result (AddsLines out.old out.new (open_lines pharmacy number places)) }
{
    let count = u64::from(places);
    for passed in 0..count {
        put_open_place(out, pharmacy, number, passed + 1, count)?;
    }
    Ok(())
}

/// Appends the line of a place without an answer.
fn put_open_place(
    out: &mut Vec<u8>,
    pharmacy: u16,
    number: u64,
    place: u64,
    count: u64,
) -> Result<(), AllocError>
    ensures { OnOk result (AddsLine out.old out.new (open_line pharmacy number count place)) }
{
    put_pharmacy(out, pharmacy)?;
    put_place(out, number, place, count)?;
    put_word(out, b"open")?;
    end_line(out)
}

/// Appends the lines of a request that is settled: one for each place of the request.
pub(crate) fn put_settled(
    out: &mut Vec<u8>,
    alloc: Global,
    pharmacy: u16,
    number: u64,
    answer: &[u8],
) -> Result<(), AllocError>
    ensures { OnOk result (AddsLines out.old out.new (answer_lines pharmacy number (answer_of answer.now))) }
{
    match read_answer(alloc, answer) {
        Ok(answer) => put_rulings(out, pharmacy, number, answer.rulings()),
        Err(fault) => put_unread(out, fault),
    }
}

/// Appends the line of an answer that cannot be read.
fn put_unread(out: &mut Vec<u8>, fault: AnswerFault) -> Result<(), AllocError>
    ensures line { OnOk result (AddsLine out.old out.new (refusal_line (codes "Unreadable"))) }
    ensures known { OnOk result (is_unreadable fault ≡ true) }
{
    match fault {
        AnswerFault::OutOfMemory => Err(AllocError),
        _ => put_refused(out, b"Unreadable"),
    }
}

/// Appends the lines of the rulings at all places.
fn put_rulings(
    out: &mut Vec<u8>,
    pharmacy: u16,
    number: u64,
    rulings: &[Ruling],
) -> Result<(), AllocError>
    ensures { OnOk result (AddsLines out.old out.new (settled_lines pharmacy number rulings.now)) }
{
    let count = rulings.len() as u64;
    for (passed, ruling) in rulings.iter().enumerate() {
        put_settled_place(out, pharmacy, number, passed as u64 + 1, count, ruling)?;
    }
    Ok(())
}

/// Appends the line of a place with its ruling.
fn put_settled_place(
    out: &mut Vec<u8>,
    pharmacy: u16,
    number: u64,
    place: u64,
    count: u64,
    ruling: &Ruling,
) -> Result<(), AllocError>
    ensures { OnOk result (AddsLine out.old out.new (settled_line pharmacy number count place ruling.now)) }
{
    put_pharmacy(out, pharmacy)?;
    put_place(out, number, place, count)?;
    put_word(out, b"settled")?;
    put_ruling(out, ruling)?;
    end_line(out)
}

/// Appends the pharmacy of a request.
fn put_pharmacy(out: &mut Vec<u8>, pharmacy: u16) -> Result<(), AllocError>
    ensures { OnOk result (out.new.items ≡ out.old.items ++ pharmacy_word pharmacy) }
{
    put_node(out, Node::Pharmacy(pharmacy))
}

/// Appends the number of a request, and the place where it has several.
#[tactic(auto, using(std::proofs::lemmas::Result::on_ok_weaker, crate::proofs::Words::word_more))]
fn put_place(out: &mut Vec<u8>, number: u64, place: u64, count: u64) -> Result<(), AllocError>
    ensures { OnOk result (AddsWords out.old out.new ((decimal number ++ place_mark count place) ∷ [])) }
{
    put_number(out, number)?;
    put_mark(out, count, place)
}
