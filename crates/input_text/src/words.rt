//! Words, which one space parts.

ghost use Rattle.std.specs.Prelude.{◌≡◌};
ghost use Rattle.std.specs.Option.{option_map};
ghost use Rattle.input_text.specs.Words.{split_word};

use crate::search::place_of;

/// The word before the first space, and what stands after that one space; None where no space stands.
///
/// Nothing is trimmed: the word or the rest may be empty, and the rest may begin with a further space.
pub fn split_word(line: &[u8]) -> Option<(&[u8], &[u8])>
    ensures { option_map (λ parts. (parts.0.now, parts.1.now)) result ≡ split_word line.now }
{
    match place_of(b' ', line) {
        Some(space) => Some((&line[..space], &line[space + 1..])),
        None => None,
    }
}
