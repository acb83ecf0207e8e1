//! Where the schedule of an input begins, and the text of the settings before it.

ghost use Rattle.std.specs.Prelude.{◌≡◌, ◌++◌, [], OnOk, IfOk, IfSome, IfNone, is_some};
ghost use Rattle.std.specs.List.{list_any};
ghost use Rattle.std.specs.Str.Lines.{lines};
ghost use Rattle.schedule.specs.Division.{ended_settings, ends_in_newline, is_divider, scheduled_lines, settings_text};

use input_text::Lines;
use std::alloc::{AllocError, Global};

/// The line between the settings and the schedule (own).
const DIVIDER: &[u8] = b"---";

/// The two parts of an input.
#[derive(Drop)]
pub struct Division<'a> {
    /// The text of the settings: their lines without the carriage returns that belong to line ends.
    pub settings: Vec<u8>,
    /// The bytes after the line that divides; none where no line does.
    pub schedule: &'a [u8],
}

/// Divides an input at its first line that is exactly `---`. Without one, all of it is settings.
///
/// One carriage return right before a newline belongs to the line end and is dropped, in the settings too.
#[tactic(auto, unfolding(crate::specs::Division::settings_text))]
pub fn divide(alloc: Global, input: &[u8]) -> Result<Division<'_>, AllocError>
    ensures settings { IfOk result (λ parts. parts.settings.items ≡ settings_text input.now) }
    ensures schedule { IfOk result (λ parts. lines parts.schedule.now ≡ scheduled_lines input.now) }
{
    let mut settings = Vec::new(alloc);
    let schedule = match front(&mut settings, input)? {
        Some(schedule) => schedule,
        None => {
            if !ends_in_newline(input) {
                settings.pop();
            }
            &[]
        }
    };
    Ok(Division { settings, schedule })
}

/// Appends the lines before the first that divides, each with a newline, and gives what stands after that line.
fn front<'a>(settings: &mut Vec<u8>, input: &'a [u8]) -> Result<Option<&'a [u8]>, AllocError>
    ensures settings { OnOk result (settings.new.items ≡ settings.old.items ++ ended_settings input.now) }
    ensures schedule { IfOk result (λ schedule. IfSome schedule (λ rest. lines rest.now ≡ scheduled_lines input.now)) }
    ensures divided { IfOk result (λ schedule. is_some schedule ≡ list_any is_divider (lines input.now)) }
    ensures whole { IfOk result (λ schedule. IfNone schedule (scheduled_lines input.now ≡ [])) }
{
    let mut lines = Lines::new(input);
    while let Some(line) = lines.next() {
        if line.text == DIVIDER {
            return Ok(Some(lines.remainder()));
        }
        settings.extend_from_slice(line.text)?;
        settings.push(b'\n')?;
    }
    Ok(None)
}

/// Whether the last byte is a newline.
fn ends_in_newline(input: &[u8]) -> bool
    ensures { result ≡ ends_in_newline input.now }
{
    input.last() == Some(&b'\n')
}
