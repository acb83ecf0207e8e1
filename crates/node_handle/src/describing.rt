//! What is in a message, as claimdecode tells it.

ghost use Rattle.std.specs.Prelude.{◌≡◌, false};
ghost use Rattle.message_words.specs.Described.{description, is_refused};
ghost use Rattle.message_parts.specs.Naming.{kind_of};
ghost use Rattle.node_handle.specs.Messages.{Describes, style_of};

use crate::reading::copy_out;
use crate::refusal::Refusal;
use message_parts::MessageKind;
use message_words::{Page, Style};
use std::alloc::Global;

/// The style that a number asks for: lines by 0, else JSON.
pub fn style_of(json: u32) -> Style
    ensures { result ≡ style_of json }
{
    if json == 0 { Style::Lines } else { Style::Json }
}

/// Copies the description of a message into a buffer: lines for people, or an object of JSON.
///
/// What is described is told apart by its first two bytes, as `claimdecode` does it.
///
/// # Errors
/// Memory was refused, or `ShortBuffer`. Then the buffer is as it was.
pub fn describe(
    alloc: Global,
    style: Style,
    message: &[u8],
    buffer: &mut [u8],
    size: &mut usize,
) -> Result<(), Refusal>
    ensures { Describes style message.now result buffer.old buffer.new size.old size.new }
{
    let page = page_of(alloc, style, message);
    if page.is_refused() {
        return Err(Refusal::OutOfMemory);
    }
    copy_out(page.as_slice(), buffer, size)
}

/// The description of a message.
fn page_of(alloc: Global, style: Style, message: &[u8]) -> Page
    ensures { is_refused result ≡ false
        → result.out.bytes.items ≡ description style (false, false) 1 (kind_of message.now) message.now }
{
    let mut page = Page::new(alloc, style);
    page.describe(alloc, 1, MessageKind::of(message), message);
    page
}
