//! A whole message in parts, and the transmissions that it carries.

ghost use Rattle.std.specs.Prelude.{◌≡◌, ◌≤◌, ◌+◌, [], ◌++◌, length, map, IfOk, OnOk};
ghost use Rattle.message_parts.specs.Naming.{kind_of, kind_name};
ghost use Rattle.message_parts.specs.Parts.{AreParts, part_seen};
ghost use Rattle.message_parts.specs.Messages.{AreOf};
ghost use Rattle.message_parts.specs.Steps.{IsOne, one_carried};
ghost use Rattle.message_parts.specs.Added.{next_bytes, stray_part, AddsTransmission};

use crate::cutter::Cutter;
use crate::layout::Form;
use crate::part::Part;
use crate::records::{cut_packet, cut_record};
use crate::transmissions::cut_transmission;
use std::alloc::{AllocError, Global};

/// What a message is.
#[derive(Clone, Copy, PartialEq, Eq)]
pub enum MessageKind {
    /// A request of a pharmacy.
    Request,
    /// An answer of a payer or a switch.
    Answer,
    /// An envelope with one of the two.
    Packet,
    /// A journal or a book at rest.
    Record,
}

/// A request or an answer in a message: where it stands, and how many bytes it has.
#[derive(Clone, Copy)]
pub struct Carried {
    /// Whether it is a request or an answer.
    pub form: Form,
    /// The place of its first byte in the message.
    pub place: usize,
    /// How many bytes it has.
    pub size: usize,
}

/// A message in parts, in order, and the transmissions in it.
#[derive(Drop)]
pub struct Dissected<'a> {
    /// All its parts.
    pub parts: Vec<Part<'a>>,
    /// The requests and answers in it, in order.
    pub carried: Vec<Carried>,
}

impl MessageKind {
    /// Its name.
    pub fn name(self) -> &'static str
        ensures { result.now ≡ kind_name self }
    {
        match self {
            MessageKind::Request => "request",
            MessageKind::Answer => "answer",
            MessageKind::Packet => "packet",
            MessageKind::Record => "record",
        }
    }

    /// What a message is by its first two bytes: an envelope begins with `PS`, a journal with `PJ`, a book with `PB`,
    /// an answer with `D0`, and a request with six digits. Other bytes are taken for a request.
    pub fn of(bytes: &[u8]) -> MessageKind
        ensures { result ≡ kind_of bytes.now }
    {
        match bytes {
            [b'P', b'S', ..] => MessageKind::Packet,
            [b'P', b'J' | b'B', ..] => MessageKind::Record,
            [b'D', b'0', ..] => MessageKind::Answer,
            _ => MessageKind::Request,
        }
    }
}

/// The parts of a message.
///
/// # Errors
/// Want of memory.
pub fn dissect<'a>(
    alloc: Global,
    kind: MessageKind,
    bytes: &'a [u8],
) -> Result<Dissected<'a>, AllocError>
    // No byte is left out, none is told twice, and each part stands where it says.
    ensures parts { IfOk result (λ d. AreParts bytes.now (map part_seen d.parts.items)) }
    // Each part is the one that begins at its place, and what is carried stands after the head.
    ensures are { IfOk result (λ d. AreOf kind bytes.now (map part_seen d.parts.items) d.carried.items) }
{
    let mut cutter = Cutter::new(alloc, bytes)?;
    let mut carried = Vec::new(alloc);
    cut_message(&mut cutter, &mut carried, kind)?;
    let parts = cutter.finish()?;
    Ok(Dissected { parts, carried })
}

/// Cuts a message of a kind, of which nothing is cut.
fn cut_message(
    cutter: &mut Cutter<'_>,
    carried: &mut Vec<Carried>,
    kind: MessageKind,
) -> Result<(), AllocError>
    requires start { cutter.old.place ≡ 0 }
    requires no_part { cutter.old.parts ≡ [] }
    requires none { carried.old.items ≡ [] }
    ensures whole { cutter.new.whole ≡ cutter.old.whole }
    ensures parts { OnOk result (AreOf kind cutter.old.whole (cutter.new.parts ++ stray_part cutter.new)
        carried.new.items) }
{
    match kind {
        MessageKind::Request => cut_whole(cutter, carried, Form::Request),
        MessageKind::Answer => cut_whole(cutter, carried, Form::Answer),
        MessageKind::Packet => cut_packet(cutter, carried),
        MessageKind::Record => cut_record(cutter, carried),
    }
}

/// Cuts a message that is a request or an answer.
fn cut_whole(
    cutter: &mut Cutter<'_>,
    carried: &mut Vec<Carried>,
    form: Form,
) -> Result<(), AllocError>
    requires start { cutter.old.place ≡ 0 }
    requires no_part { cutter.old.parts ≡ [] }
    requires none { carried.old.items ≡ [] }
    ensures whole { cutter.new.whole ≡ cutter.old.whole }
    ensures place { OnOk result (cutter.new.place ≡ length cutter.old.whole) }
    ensures one { OnOk result (IsOne form cutter.old.whole cutter.new.parts carried.new.items) }
{
    let size = cutter.left().len();
    cut_carried(cutter, carried, form, size)
}

/// Cuts the next bytes, this many, as a transmission that the message carries.
pub(crate) fn cut_carried(
    cutter: &mut Cutter<'_>,
    carried: &mut Vec<Carried>,
    form: Form,
    size: usize,
) -> Result<(), AllocError>
    requires { cutter.old.place + size ≤ length cutter.old.whole }
    ensures whole { cutter.new.whole ≡ cutter.old.whole }
    ensures place { OnOk result (cutter.new.place ≡ cutter.old.place + size) }
    ensures parts { OnOk result (AddsTransmission form cutter.old.place (next_bytes cutter.old size)
        cutter.old.parts cutter.new.parts) }
    ensures carried { OnOk result (carried.new.items
        ≡ carried.old.items ++ one_carried form cutter.old.place (next_bytes cutter.old size)) }
{
    let place = cutter.place();
    carried.push(Carried { form, place, size })?;
    cut_transmission(cutter, form, size)
}
