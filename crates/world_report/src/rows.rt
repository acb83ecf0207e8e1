//! The lines of a switch's table and of a payer's book.

ghost use Rattle.std.specs.Prelude.{◌≡◌, ◌≤◌, ◌++◌, drop, OnOk};
ghost use Rattle.world_report.specs.Adding.{AddsLine, AddsWords};
ghost use Rattle.world_report.specs.Places.{txn_name, flight_word, flight_line, standing_word, standing_words, row_words, told_at};

use crate::backwards::{LINE, byte_before, digits_before};
use crate::places::{Place, put_mark};
use crate::rulings::put_ruling;
use crate::words::{end_line, put_word};
use claim_profile::Ruling;
use envelope::TxnId;
use std::alloc::AllocError;
use switch_node::InFlight;

/// Appends the line of a request in flight: its transaction, and `answered` or `open`.
#[tactic(auto, using(std::proofs::lemmas::Result::on_ok_weaker, crate::proofs::JoinedWords::line_joins))]
pub fn put_in_flight(out: &mut Vec<u8>, request: &InFlight) -> Result<(), AllocError>
    ensures { OnOk result (AddsLine out.old out.new (flight_line request.now.id request.now.answered)) }
{
    put_txn(out, request.id)?;
    put_word(out, flight_word(request.answered))?;
    end_line(out)
}

fn flight_word(answered: bool) -> &'static [u8]
    ensures { result.now ≡ flight_word answered }
{
    if answered { b"answered" } else { b"open" }
}

/// Appends the line of a place of a row: its transaction, the code of the request, the ruling, and after a payment
/// `reversed` or `standing`.
pub(crate) fn put_row_place(
    out: &mut Vec<u8>,
    id: TxnId,
    place: &Place,
    ruling: &Ruling,
    reversed: bool,
) -> Result<(), AllocError>
    ensures { OnOk result (AddsLine out.old out.new (told_at (txn_name id) place.now (row_words ruling.now reversed))) }
{
    put_txn(out, id)?;
    put_mark(out, place.count, place.number)?;
    put_word(out, &place.code)?;
    put_ruled(out, ruling, reversed)?;
    end_line(out)
}

/// Appends a ruling and whether its payment stands.
#[tactic(auto, using(std::proofs::lemmas::Result::on_ok_weaker, crate::proofs::JoinedWords::words_join))]
fn put_ruled(out: &mut Vec<u8>, ruling: &Ruling, reversed: bool) -> Result<(), AllocError>
    ensures { OnOk result (AddsWords out.old out.new (row_words ruling.now reversed)) }
{
    put_ruling(out, ruling)?;
    put_standing(out, ruling, reversed)
}

/// Appends whether a payment stands; nothing after another ruling.
#[tactic(auto, using(crate::proofs::JoinedWords::no_words))]
fn put_standing(out: &mut Vec<u8>, ruling: &Ruling, reversed: bool) -> Result<(), AllocError>
    ensures { OnOk result (AddsWords out.old out.new (standing_words ruling.now reversed)) }
{
    match ruling {
        Ruling::Paid { .. } => put_word(out, standing_word(reversed)),
        Ruling::Duplicate { .. } => Ok(()),
        Ruling::Reversed { .. } => Ok(()),
        Ruling::Rejected { .. } => Ok(()),
    }
}

fn standing_word(reversed: bool) -> &'static [u8]
    ensures { result.now ≡ standing_word reversed }
{
    if reversed { b"reversed" } else { b"standing" }
}

/// Appends a transaction: the pharmacy, a point, and its number there.
fn put_txn(out: &mut Vec<u8>, id: TxnId) -> Result<(), AllocError>
    ensures { OnOk result (out.new.items ≡ out.old.items ++ txn_name id) }
{
    let mut text = [0; LINE];
    let start = write_txn(id, &mut text);
    out.extend_from_slice(&text[start..])?;
    Ok(())
}

/// Writes a transaction at the end of a text, and gives the place where it begins.
fn write_txn(id: TxnId, text: &mut [u8; LINE]) -> usize
    ensures within { result ≤ 45 }
    ensures written { drop result text.new ≡ txn_name id }
{
    let number = digits_before(id.number(), text, LINE);
    let point = byte_before(b'.', text, number);
    digits_before(u64::from(id.pharmacy()), text, point)
}
