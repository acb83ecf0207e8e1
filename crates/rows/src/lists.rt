//! Messages as they are read into lists and written from them: transmissions with their parts, orders, and headers.

ghost use Rattle.std.specs.Prelude.{◌≡◌};

use crate::telling::tell_text;
use case_files::{Subject, Told};
use claim_profile::{read_order, read_readable};
use d0_header::{RequestHeader, ResponseHeader};
use d0_segments::{Field, Header, Segment, Transmission, read_request, read_response, write};
use std::alloc::{AllocError, Global};

/// Rows of lists.
#[derive(Drop)]
pub(crate) struct Lists;

impl Subject for Lists {
    fn tell(&mut self, told: &mut Told, alloc: Global, word: &str, argument: &[u8]) {
        match word {
            "request" => request(told, alloc, argument),
            "response" => response(told, alloc, argument),
            "order" => orders(told, alloc, argument),
            "field" => field(told, argument),
            "one-field" => one_field(told, alloc, argument),
            "request-again" => request_again(told, argument),
            "accepting" => answering(told, argument),
            "response-again" => response_again(told, argument),
            _ => told.refuse(),
        }
    }
}

/// Tells the parts of a request, or its first fault.
fn request(told: &mut Told, alloc: Global, text: &[u8]) {
    match read_request(alloc, text) {
        Ok(built) => {
            told.shown(built.header().count());
            parts(told, alloc, &built, text);
        }
        Err(fault) => told.named(fault),
    }
}

/// Tells the parts of a response, or its first fault.
fn response(told: &mut Told, alloc: Global, text: &[u8]) {
    match read_response(alloc, text) {
        Ok(built) => {
            told.shown(built.header().count());
            parts(told, alloc, &built, text);
        }
        Err(fault) => told.named(fault),
    }
}

/// Tells the parts of a transmission, which is written as it was read.
fn parts<H: Header>(told: &mut Told, alloc: Global, built: &Transmission<'_, H>, text: &[u8]) {
    match listed(alloc, built) {
        Ok(listed) => told.bytes(listed.as_slice()),
        Err(_) => told.refuse(),
    }
    match write(alloc, built) {
        Ok(again) => kept(told, again.as_slice(), text),
        Err(_) => told.refuse(),
    }
}

/// Tells where a transmission is written in another way than it was read.
fn kept(told: &mut Told, again: &[u8], text: &[u8]) {
    if again != text {
        told.word("written as");
        told.bytes(again);
    }
}

/// The parts of a transmission: `/` and the name of each segment, a space, the name, `=` and the value of each field, and
/// `+` before each group.
fn listed<H: Header>(alloc: Global, built: &Transmission<'_, H>) -> Result<Vec<u8>, AllocError> {
    let mut out = Vec::new(alloc);
    put_segments(&mut out, built.shared())?;
    for place in 0..built.groups().len() {
        out.push(b'+')?;
        put_segments(&mut out, built.group(place))?;
    }
    Ok(out)
}

/// Appends the parts of segments.
fn put_segments(out: &mut Vec<u8>, segments: &[Segment<'_>]) -> Result<(), AllocError> {
    for segment in segments {
        put_name(out, segment.id())?;
        for field in segment.fields() {
            put_field(out, field)?;
        }
    }
    Ok(())
}

/// Appends the name of a segment.
fn put_name(out: &mut Vec<u8>, id: [u8; 2]) -> Result<(), AllocError> {
    out.push(b'/')?;
    out.extend_from_slice(&id)
}

/// Appends a field.
fn put_field(out: &mut Vec<u8>, field: &Field<'_>) -> Result<(), AllocError> {
    out.push(b' ')?;
    out.extend_from_slice(&field.id())?;
    out.push(b'=')?;
    out.extend_from_slice(field.value())
}

/// Tells for each transaction of a request whether it is taken.
fn orders(told: &mut Told, alloc: Global, text: &[u8]) {
    match read_readable(alloc, text) {
        Ok(request) => {
            for place in 0..request.groups().len() {
                match read_order(&request, place) {
                    Ok(_) => told.word("taken"),
                    Err(fault) => told.shown(fault),
                }
            }
        }
        Err(fault) => told.named(fault),
    }
}

/// Tells a field that is made of a name and a value.
fn field(told: &mut Told, argument: &[u8]) {
    match argument {
        [first, second, b' ', value @ ..] => match Field::new([*first, *second], value) {
            Ok(field) => {
                told.bytes(&field.id());
                told.bytes(field.value());
            }
            Err(fault) => told.named(fault),
        },
        _ => told.refuse(),
    }
}

/// Tells the request of a header and one group, whose one segment 99 has one field. The field stands after the header.
fn one_field(told: &mut Told, alloc: Global, argument: &[u8]) {
    match argument.get(56..) {
        Some([first, second, value @ ..]) => match Field::new([*first, *second], value) {
            Ok(field) => behind_header(told, alloc, argument, field),
            Err(fault) => told.named(fault),
        },
        _ => told.refuse(),
    }
}

/// The same after a header that announces one group.
fn behind_header(told: &mut Told, alloc: Global, argument: &[u8], field: Field<'_>) {
    match RequestHeader::read(argument) {
        Ok(header) if header.count() == 1 => tell_text(told, by_hand(alloc, header, field)),
        _ => told.refuse(),
    }
}

/// The text of a transmission that is made of these parts.
fn by_hand(alloc: Global, header: RequestHeader, field: Field<'_>) -> Result<Vec<u8>, AllocError>
    requires { header.count ≡ 1 }
{
    let group = vec![in alloc; Segment::new(*b"99", vec![in alloc; field]?)]?;
    let groups = vec![in alloc; group]?;
    write(alloc, &Transmission::new(header, Vec::new(alloc), groups))
}

/// Tells the header that a request begins with as it is written.
fn request_again(told: &mut Told, text: &[u8]) {
    match RequestHeader::read(text) {
        Ok(header) => told.bytes(&header.to_bytes()),
        Err(fault) => told.named(fault),
    }
}

/// Tells the header of the answer that accepts a request.
fn answering(told: &mut Told, text: &[u8]) {
    match RequestHeader::read(text) {
        Ok(header) => told.bytes(&ResponseHeader::answering(&header, b'A').to_bytes()),
        Err(fault) => told.named(fault),
    }
}

/// Tells the header that an answer begins with as it is written.
fn response_again(told: &mut Told, text: &[u8]) {
    match ResponseHeader::read(text) {
        Ok(header) => told.bytes(&header.to_bytes()),
        Err(fault) => told.named(fault),
    }
}
