//! The lines of events, and those that name a node.

ghost use Rattle.std.specs.Prelude.{◌≡◌, ◌≤◌, ◌∷◌, [], ◌-◌, drop, decimal, IsTrue, OnOk};
ghost use Rattle.world_report.specs.Words.{line_text};
ghost use Rattle.world_report.specs.Adding.{AddsLine, AddsWords};
ghost use Rattle.world_report.specs.Heads.{power_word, head_line, numbers_from, done_line, refused_line};

use crate::backwards::{LINE, byte_before, digits_before};
use crate::numbers::{put_number, put_numbers};
use crate::words::{end_line, put_word};
use input_text::put_decimal;
use std::alloc::AllocError;
use std::ops::Range;

/// Appends the line of a node: its kind and number, `up` or `down`, and how many entries or rows it has.
pub fn put_head(
    out: &mut Vec<u8>,
    kind: &[u8],
    number: u64,
    up: bool,
    noun: &[u8],
    count: u64,
) -> Result<(), AllocError>
    ensures { OnOk result (AddsLine out.old out.new (head_line kind.now number up noun.now count)) }
{
    out.extend_from_slice(kind)?;
    put_number(out, number)?;
    put_state(out, up, noun, count)?;
    end_line(out)
}

/// Appends whether a node is up, and how many entries or rows it has.
fn put_state(out: &mut Vec<u8>, up: bool, noun: &[u8], count: u64) -> Result<(), AllocError>
    ensures { OnOk result (AddsWords out.old out.new (power_word up ∷ noun.now ∷ decimal count ∷ [])) }
{
    put_word(out, power_word(up))?;
    put_word(out, noun)?;
    put_number(out, count)
}

fn power_word(up: bool) -> &'static [u8]
    ensures { result.now ≡ power_word up }
{
    if up { b"up" } else { b"down" }
}

/// Appends the line of an event that was made: its number from 1, and the numbers of the packets that it sent.
#[tactic(auto, using(std::proofs::lemmas::Result::on_ok_weaker))]
pub fn put_done(out: &mut Vec<u8>, event: u64, sent: Range<u64>) -> Result<(), AllocError>
    ensures { OnOk result (AddsLine out.old out.new
        (done_line event (numbers_from sent.start (sent.end - sent.start)))) }
{
    if is_one(&sent) {
        return put_done_with_one(out, event, sent.start);
    }
    put_decimal(out, event)?;
    put_word(out, b"ok")?;
    put_numbers(out, sent.start, sent.end)?;
    end_line(out)
}

/// Whether a range has one number.
#[inline(always)]
fn is_one(range: &Range<u64>) -> bool
    ensures { IsTrue result → range.now.end - range.now.start ≡ 1 }
{
    range.start < range.end && range.end - range.start == 1
}

/// Appends the line of an event that sent one packet, as most do, in one piece.
fn put_done_with_one(out: &mut Vec<u8>, event: u64, packet: u64) -> Result<(), AllocError>
    ensures { OnOk result (AddsLine out.old out.new (done_line event (packet ∷ []))) }
{
    let mut text = [0; LINE];
    let start = write_done(event, packet, &mut text);
    out.extend_from_slice(&text[start..])?;
    Ok(())
}

/// Writes that line at the end of a text, and gives the place where it begins.
fn write_done(event: u64, packet: u64, text: &mut [u8; LINE]) -> usize
    ensures within { result ≤ 45 }
    ensures written { drop result text.new ≡ line_text (done_line event (packet ∷ [])) }
{
    let end = byte_before(b'\n', text, LINE);
    let number = digits_before(packet, text, end);
    let space = byte_before(b' ', text, number);
    let second = byte_before(b'k', text, space);
    let first = byte_before(b'o', text, second);
    let word = byte_before(b' ', text, first);
    digits_before(event, text, word)
}

/// Appends the line of an event that was refused: its number from 1, and the refusal's name.
pub fn put_refused(out: &mut Vec<u8>, event: u64, name: &[u8]) -> Result<(), AllocError>
    ensures { OnOk result (AddsLine out.old out.new (refused_line event name.now)) }
{
    put_decimal(out, event)?;
    put_word(out, b"refused")?;
    put_word(out, name)?;
    end_line(out)
}
