//! The message that a description tells.

ghost use Rattle.std.specs.Prelude.{◌≡◌, ◌++◌, IfErr, IfOk, OnOk, Some};
ghost use Rattle.message_encoding.specs.Parts.{message_of, seen};
ghost use Rattle.message_lines.specs.declared.fault.Fault.TheVariants as fault;
ghost use Rattle.message_lines.specs.declared.fault.Lack.TheVariants as lack;
ghost use Rattle.message_lines.specs.declared.fault.Misread.TheVariants as misread;
ghost use Rattle.message_lines.specs.MadeMessage.{IsMade, IsOf, ReadsBack, whole};
ghost use Rattle.message_lines.specs.Refused.{IsRefused, IsUnmade};

use crate::fault::{Fault, Lack, Misread, Refusal, Unmade};
use crate::manner::{Manner, kind_worded};
use message_encoding::{Described, Misfit, ReadFault};
use message_words::{Page, Spelling, Style};
use std::alloc::{AllocError, Global};

/// A message that was made of a description.
#[derive(Drop)]
pub struct Made {
    /// Its bytes.
    pub bytes: Vec<u8>,
    /// Whether a byte 0x02 stood before it, and a byte 0x03 behind it.
    pub around: (bool, bool),
}

impl Made {
    /// Appends its bytes, with those that stood around it.
    ///
    /// # Errors
    /// Memory was refused.
    pub(crate) fn put_whole(&self, text: &mut Vec<u8>) -> Result<(), AllocError>
        ensures { OnOk result (text.new.items ≡ text.old.items ++ whole self.now) }
    {
        let (before, behind) = self.around;
        text.extend_from_slice(if before { b"\x02" } else { b"" })?;
        text.extend_from_slice(self.bytes.as_slice())?;
        text.extend_from_slice(if behind { b"\x03" } else { b"" })
    }
}

/// The message that a text describes. It is described again, and each part has to be told as the text tells it.
///
/// # Errors
/// Why the text gives no message; `OutOfMemory`.
pub(crate) fn message_in(alloc: Global, json: &[u8]) -> Result<Made, Unmade>
    ensures made { IfOk result (λ made. IsMade json.now made) }
    ensures refused { IfErr result (λ why. IsUnmade json.now why) }
{
    match Described::read(alloc, json) {
        Ok(described) => match message_of(alloc, &described) {
            Ok(made) => Ok(made),
            Err(Lack::OutOfMemory) => Err(Unmade::OutOfMemory),
            Err(Lack::Fault(fault)) => Err(Unmade::Refused(Refusal {
                fault,
                described: Some(described),
            })),
        },
        Err(ReadFault::OutOfMemory) => Err(Unmade::OutOfMemory),
        Err(ReadFault::NotJson) => Err(Unmade::Refused(Refusal {
            fault: Fault::NotJson,
            described: None,
        })),
    }
}

/// The message of a description that was read.
fn message_of(alloc: Global, described: &Described) -> Result<Made, Lack>
    ensures made { IfOk result (λ made. IsOf (seen described.now) made) }
    ensures refused { IfErr result (λ why. IsRefused why (seen described.now)) }
{
    let bytes = described.message(alloc)?;
    check_again(alloc, described, bytes.as_slice())?;
    let around = (
        described.text("dropped_before").is_some(),
        described.text("dropped_behind").is_some(),
    );
    Ok(Made { bytes, around })
}

/// Refuses bytes whose description tells a part otherwise than this one. One that is not read, or tells no parts, cannot come about:
/// it is refused at the first part.
fn check_again(alloc: Global, described: &Described, bytes: &[u8]) -> Result<(), Lack>
    ensures back { OnOk result (ReadsBack (seen described.now) bytes.now) }
    ensures refused { IfErr result (λ why. message_of (seen described.now) ≡ Some bytes.now
        → IsRefused why (seen described.now)) }
{
    let manner = Manner {
        kind: kind_worded(described.text("kind")),
        spelling: Spelling::Raw,
    };
    let mut page = Page::new(alloc, Style::Json);
    page.describe(alloc, 1, manner.kind_of(bytes), bytes);
    if page.is_refused() {
        return Err(Lack::OutOfMemory);
    }
    let again = match Described::read(alloc, page.as_slice()) {
        Ok(again) => again,
        Err(ReadFault::OutOfMemory) => return Err(Lack::OutOfMemory),
        Err(ReadFault::NotJson) => return Err(otherwise(0)),
    };
    match described.first_other(alloc, &again) {
        Ok(None) => Ok(()),
        Ok(Some(place)) => Err(otherwise(place)),
        Err(Misfit::OutOfMemory) => Err(Lack::OutOfMemory),
        Err(Misfit::NoParts) => Err(otherwise(0)),
        Err(Misfit::Part(place, _)) => Err(otherwise(place)),
    }
}

/// That a message is described with another part at a place.
fn otherwise(place: usize) -> Lack
    ensures { result ≡ lack.Fault (fault.Part place misread.ReadsOtherwise) }
{
    Lack::Fault(Fault::Part(place, Misread::ReadsOtherwise))
}
