//! Cutting envelopes and records.

ghost use Rattle.std.specs.Prelude.{◌≡◌, ◌≤◌, ◌+◌, ◌-◌, List, [], ◌++◌, length, min, take, drop, true, IfOk, OnOk, IfSome};
ghost use Rattle.std.specs.Option.{option_map};
ghost use Rattle.kept_records.specs.Fields.{text_codec};
ghost use Rattle.message_parts.specs.declared.part.PartKind.TheVariants as part;
ghost use Rattle.message_parts.specs.AtRest.{count_at, head_told, is_book, piece_told, record_told, taken_told, text_told};
ghost use Rattle.message_parts.specs.Steps.{IsPacket, packet_form, packet_rows, head_parts, width_of, some_carried};
ghost use Rattle.message_parts.specs.Added.{next_bytes, next_taken, left_of, AddsTransmission, Tells, TellsAll};

use crate::books::cut_book;
use crate::cutter::Cutter;
use crate::dissecting::{Carried, cut_carried};
use crate::journals::cut_journal;
use crate::layout::Form;
use crate::marks::Mark;
use crate::part::PartKind;
use crate::transmissions::cut_head;
use codec::take_u32;
use envelope::LARGEST_PAYLOAD;
use std::alloc::AllocError;

/// The head of an envelope.
static PACKET: [(PartKind, usize); 6] = [
    (PartKind::Mark(Mark::Letters), 2),
    (PartKind::Mark(Mark::FormatVersion), 1),
    (PartKind::Mark(Mark::Kind), 1),
    (PartKind::Mark(Mark::Pharmacy), 2),
    (PartKind::Mark(Mark::Number), 8),
    (PartKind::Mark(Mark::Length), 4),
];

/// Cuts an envelope. What it carries is cut as its head says, and as a request where the head says neither.
#[tactic(auto, using(crate::proofs::Wholes::packet))]
pub(crate) fn cut_packet(
    cutter: &mut Cutter<'_>,
    carried: &mut Vec<Carried>,
) -> Result<(), AllocError>
    requires start { cutter.old.place ≡ 0 }
    requires no_part { cutter.old.parts ≡ [] }
    requires none { carried.old.items ≡ [] }
    ensures whole { cutter.new.whole ≡ cutter.old.whole }
    ensures place { OnOk result (cutter.new.place ≡ length cutter.old.whole) }
    ensures packet { OnOk result (IsPacket cutter.old.whole cutter.new.parts carried.new.items) }
{
    let form = packet_form(cutter.left());
    let size = cutter.left().len();
    let left = cut_packet_head(cutter, size)?;
    cut_payload(cutter, carried, form, left)
}

/// Cuts the head of an envelope, as far as the bytes reach, and gives how many are left of them.
#[tactic(auto, unfolding(crate::specs::Steps::packet_rows))]
fn cut_packet_head(cutter: &mut Cutter<'_>, size: usize) -> Result<usize, AllocError>
    requires { cutter.old.place + size ≤ length cutter.old.whole }
    ensures whole { cutter.new.whole ≡ cutter.old.whole }
    ensures left { IfOk result (λ left. left ≡ size - width_of packet_rows) }
    ensures place { IfOk result (λ left. cutter.new.place + left ≡ cutter.old.place + size) }
    ensures parts { OnOk result (cutter.new.parts
        ≡ cutter.old.parts ++ head_parts packet_rows cutter.old.place (next_bytes cutter.old size)) }
{
    cut_head(cutter, PACKET.as_slice(), size)
}

/// Cuts what an envelope carries, where bytes are left.
#[tactic(auto, using(crate::proofs::Wholes::nothing_added))]
fn cut_payload(
    cutter: &mut Cutter<'_>,
    carried: &mut Vec<Carried>,
    form: Form,
    size: usize,
) -> Result<(), AllocError>
    requires { cutter.old.place + size ≤ length cutter.old.whole }
    ensures whole { cutter.new.whole ≡ cutter.old.whole }
    ensures place { OnOk result (cutter.new.place ≡ cutter.old.place + size) }
    ensures parts { OnOk result (AddsTransmission form cutter.old.place (next_bytes cutter.old size)
        cutter.old.parts cutter.new.parts) }
    ensures carried { OnOk result (carried.new.items
        ≡ carried.old.items ++ some_carried form cutter.old.place (next_bytes cutter.old size)) }
{
    if size == 0 {
        return Ok(());
    }
    cut_carried(cutter, carried, form, size)
}

/// What an envelope carries by its head, and a request where it says neither.
fn packet_form(bytes: &[u8]) -> Form
    ensures { result ≡ packet_form bytes.now }
{
    match bytes {
        [_, _, _, kind, ..] => if *kind == 2 {
            Form::Answer
        } else {
            Form::Request
        },
        _ => Form::Request,
    }
}

/// Cuts a journal or a book.
#[tactic(auto, unfolding(crate::specs::AtRest::record_told))]
pub(crate) fn cut_record(
    cutter: &mut Cutter<'_>,
    carried: &mut Vec<Carried>,
) -> Result<(), AllocError>
    ensures whole { cutter.new.whole ≡ cutter.old.whole }
    ensures told { OnOk result (TellsAll record_told cutter.old cutter.new carried.old.items carried.new.items) }
{
    if is_book(cutter.left()) {
        return cut_book(cutter, carried);
    }
    cut_journal(cutter, carried)
}

/// Whether a record is a book.
pub fn is_book(bytes: &[u8]) -> bool
    ensures { result ≡ is_book bytes.now }
{
    match bytes {
        [first, second, ..] => *first == b'P' && *second == b'B',
        _ => false,
    }
}

/// Cuts a text after its length, and says whether all of it was there.
#[tactic(auto, using(crate::proofs::AtRest::if_ok, crate::proofs::AtRest::text_there, crate::proofs::AtRest::no_text, crate::proofs::AtRest::text_fits))]
pub(crate) fn cut_text(
    cutter: &mut Cutter<'_>,
    carried: &mut Vec<Carried>,
    form: Form,
) -> Result<bool, AllocError>
    ensures whole { cutter.new.whole ≡ cutter.old.whole }
    ensures told { IfOk result (λ whole. Tells (text_told form) whole cutter.old cutter.new
        carried.old.items carried.new.items) }
{
    let left = cutter.left();
    let size = text_size(left);
    cut_mark(cutter, Mark::Length, 4)?;
    match size {
        Some(size) => cut_sized(cutter, carried, form, size),
        None => Ok(false),
    }
}

/// How many bytes the text has that stands here after its length; none where it is cut off or too long.
#[tactic(auto, unfolding(kept_records::specs::Fields::text_codec, codec::specs::Fields::u32_at, codec::specs::Fields::bytes_at))]
fn text_size(bytes: &[u8]) -> Option<usize>
    ensures text { text_codec.at bytes.now
        ≡ option_map (λ size. (take size (drop 4 bytes.now), drop size (drop 4 bytes.now))) result }
    ensures room { IfSome result (λ size. 4 + size ≤ length bytes.now) }
{
    let (size, rest) = take_u32(bytes)?;
    let size = size as usize;
    if size > LARGEST_PAYLOAD || size > rest.len() {
        return None;
    }
    Some(size)
}

/// Cuts the next bytes, this many, as a transmission, and says that they were there.
#[tactic(auto, using(crate::proofs::AtRest::sized))]
fn cut_sized(
    cutter: &mut Cutter<'_>,
    carried: &mut Vec<Carried>,
    form: Form,
    size: usize,
) -> Result<bool, AllocError>
    requires { cutter.old.place + size ≤ length cutter.old.whole }
    ensures whole { cutter.new.whole ≡ cutter.old.whole }
    ensures told { IfOk result (λ whole. Tells (taken_told form (next_taken cutter.old size)) whole
        cutter.old cutter.new carried.old.items carried.new.items) }
{
    cut_carried(cutter, carried, form, size)?;
    Ok(true)
}

/// Cuts marks of fixed widths, as far as the bytes reach.
#[tactic(auto, using(crate::proofs::AtRest::head))]
pub(crate) fn cut_marks(
    cutter: &mut Cutter<'_>,
    marks: &[(PartKind, usize)],
) -> Result<(), AllocError>
    ensures whole { cutter.new.whole ≡ cutter.old.whole }
    ensures told { OnOk result ((carried : List Carried)
        → Tells (head_told marks.now) true cutter.old cutter.new carried carried) }
{
    let size = cutter.left().len();
    let _left = cut_head(cutter, marks, size)?;
    Ok(())
}

/// Cuts a mark of this many bytes, or what is left of it.
pub(crate) fn cut_mark(cutter: &mut Cutter<'_>, mark: Mark, width: usize) -> Result<(), AllocError>
    ensures whole { cutter.new.whole ≡ cutter.old.whole }
    ensures place { OnOk result (cutter.new.place ≡ cutter.old.place + min width (length (left_of cutter.old))) }
    ensures left { OnOk result (left_of cutter.new ≡ drop width (left_of cutter.old)) }
    ensures told { OnOk result ((carried : List Carried)
        → Tells (piece_told (part.Mark mark) width) true cutter.old cutter.new carried carried) }
{
    let left = cutter.left();
    let count = width.min(left.len());
    cutter.cut_some(PartKind::Mark(mark), count)
}

/// The number of four bytes that stands this many bytes from the front, and 0 where it is cut off.
pub(crate) fn count_at(bytes: &[u8], place: usize) -> u32
    ensures { result ≡ count_at place bytes.now }
{
    match take_u32(&bytes[place.min(bytes.len())..]) {
        Some((count, _)) => count,
        None => 0,
    }
}
