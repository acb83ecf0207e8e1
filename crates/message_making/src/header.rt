//! The header of a message.

ghost use Rattle.std.specs.Prelude.{◌≡◌, ◌++◌, [], None};
ghost use Rattle.d0_header.specs.Field.{IsPlain};
ghost use Rattle.d0_header.specs.Request.{request_text};
ghost use Rattle.message_making.specs.Judged.{wrong_in_header};
ghost use Rattle.message_making.specs.PlainFields.{header_said};

use crate::fields::PlainHeader;
use crate::texts::{exact, padded, put, text_in};
use d0_header::RequestHeader;

/// The header of these fields: version D0, one transaction of this code.
pub(crate) fn header_of(fields: &PlainHeader, code: [u8; 2]) -> RequestHeader
    requires sound { wrong_in_header fields.now ≡ None }
    requires code { IsPlain 2 code }
    ensures { result ≡ header_said code fields.now }
{
    let text = header_bytes(fields, code);
    match RequestHeader::read(&text) {
        Ok(header) => header,
        Err(_) => unreachable!(),
    }
}

/// The bytes of the header of these fields.
fn header_bytes(fields: &PlainHeader, code: [u8; 2]) -> [u8; 56]
    requires sound { wrong_in_header fields.now ≡ None }
    ensures { result ≡ request_text (header_said code fields.now) }
{
    let bin: [u8; 6] = exact(text_in(&fields.bin));
    let pcn: [u8; 10] = padded(text_in(&fields.pcn));
    let qualifier: [u8; 2] = padded(text_in(&fields.qualifier));
    let provider: [u8; 15] = padded(text_in(&fields.provider));
    let date: [u8; 8] = exact(text_in(&fields.date));
    let vendor: [u8; 10] = padded(text_in(&fields.vendor));
    let mut text = [0; 56];
    let place = put(&mut text, 0, &bin);
    let place = put(&mut text, place, b"D0");
    let place = put(&mut text, place, &code);
    let place = put(&mut text, place, &pcn);
    let place = put(&mut text, place, b"1");
    let place = put(&mut text, place, &qualifier);
    let place = put(&mut text, place, &provider);
    let place = put(&mut text, place, &date);
    let _end = put(&mut text, place, &vendor);
    text
}
