//! The head and the entries of a journal, taken from the front of bytes.

ghost use Rattle.std.specs.Prelude.{◌≡◌};
ghost use Rattle.std.specs.Option.{option_map, option_copied};
ghost use Rattle.kept_records.specs.Heads.{journal_head_codec};
ghost use Rattle.kept_records.specs.Entries.{answer_codec, entry_codec, entry_taken};

use crate::texts::take_text;
use codec::{take_u8, take_u16, take_u32, take_u64};

/// A head: the two bytes that begin it, the version, the pharmacy, and how many entries it claims.
#[derive(Clone, Copy)]
pub(crate) struct JournalHead {
    pub(crate) mark: u16,
    pub(crate) version: u8,
    pub(crate) number: u16,
    pub(crate) count: u32,
}

/// An entry: its number, its request, and its answer if there is one.
#[derive(Clone, Copy)]
pub(crate) struct JournalEntry<'a> {
    pub(crate) number: u64,
    pub(crate) request: &'a [u8],
    pub(crate) answer: Option<&'a [u8]>,
}

/// The head at the front and what follows it; none where it is cut off.
#[tactic(auto, unfolding(crate::specs::Heads::journal_head_codec))]
pub(crate) fn take_head(bytes: &[u8]) -> Option<(JournalHead, &[u8])>
    ensures { option_map (λ taken. (taken.0, taken.1.now)) result ≡ journal_head_codec.at bytes.now }
{
    let (mark, rest) = take_u16(bytes)?;
    let (version, rest) = take_u8(rest)?;
    let (number, rest) = take_u16(rest)?;
    let (count, rest) = take_u32(rest)?;
    let head = JournalHead {
        mark,
        version,
        number,
        count,
    };
    Some((head, rest))
}

/// The entry at the front and what follows it; none where it is cut off, a text has more than 32,768 bytes,
/// or the flag is neither 0 nor 1.
#[tactic(auto, unfolding(crate::specs::Entries::entry_codec))]
pub(crate) fn take_entry(bytes: &[u8]) -> Option<(JournalEntry<'_>, &[u8])>
    ensures { option_map (λ taken. (entry_taken taken.0, taken.1.now)) result ≡ entry_codec.at bytes.now }
{
    let (number, rest) = take_u64(bytes)?;
    let (request, rest) = take_text(rest)?;
    let (answer, rest) = take_answer(rest)?;
    let entry = JournalEntry {
        number,
        request,
        answer,
    };
    Some((entry, rest))
}

/// The answer at the front, if there is one, and what follows it; none where it is cut off, too long or
/// after another flag than 0 or 1.
#[tactic(auto, unfolding(crate::specs::Entries::answer_codec))]
fn take_answer(bytes: &[u8]) -> Option<(Option<&[u8]>, &[u8])>
    ensures { option_map (λ taken. (option_copied taken.0, taken.1.now)) result ≡ answer_codec.at bytes.now }
{
    let (flag, rest) = take_u8(bytes)?;
    match flag {
        0 => Some((None, rest)),
        1 => {
            let (answer, rest) = take_text(rest)?;
            Some((Some(answer), rest))
        }
        _ => None,
    }
}
