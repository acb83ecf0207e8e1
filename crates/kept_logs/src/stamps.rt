//! What a host noted of a call.

ghost use Rattle.std.specs.Prelude.{◌≡◌, ◌++◌, OnOk};
ghost use Rattle.std.specs.Option.{option_map};
ghost use Rattle.kept_logs.specs.LogSeen.{stamp_seen};
ghost use Rattle.kept_logs.specs.Stamps.{is_plain, no_stamp, stamp_codec};

use codec::{put_text, put_u64, take_text, take_u64};
use std::alloc::AllocError;

/// What a host noted of a call (own).
#[derive(Clone, Copy)]
pub struct Stamp<'a> {
    /// When the call was made: milliseconds, as the host counts them; 0 where it did not say.
    pub time: u64,
    /// What the caller calls it; no byte where it has no name.
    pub reference: &'a [u8],
}

impl<'a> Stamp<'a> {
    /// Nothing was noted.
    pub fn none() -> Stamp<'a>
        ensures { stamp_seen result ≡ no_stamp }
    {
        Stamp {
            time: 0,
            reference: &[],
        }
    }
}

/// Whether nothing was noted; and what was noted fits in any case.
#[tactic(auto, unfolding(crate::specs::Stamps::stamp_codec))]
pub(crate) fn is_plain(stamp: &Stamp<'_>) -> bool
    ensures plain { result ≡ is_plain (stamp_seen stamp.now) }
    ensures fits { stamp_codec.Fits (stamp_seen stamp.now) }
{
    stamp.time == 0 && stamp.reference.len() == 0
}

/// Puts what was noted.
#[tactic(auto, unfolding(crate::specs::Stamps::stamp_codec))]
pub(crate) fn put_stamp(out: &mut Vec<u8>, stamp: &Stamp<'_>) -> Result<(), AllocError>
    ensures text { OnOk result (out.new.items ≡ out.old.items ++ stamp_codec.text (stamp_seen stamp.now)) }
    ensures fits { stamp_codec.Fits (stamp_seen stamp.now) }
{
    put_u64(out, stamp.time)?;
    put_text(out, stamp.reference)
}

/// What was noted, at the front, and what follows it; none where it is cut off.
#[tactic(auto, unfolding(crate::specs::Stamps::stamp_codec))]
pub(crate) fn take_stamp(bytes: &[u8]) -> Option<(Stamp<'_>, &[u8])>
    ensures { option_map (λ taken. (stamp_seen taken.0, taken.1.now)) result ≡ stamp_codec.at bytes.now }
{
    let (time, rest) = take_u64(bytes)?;
    let (reference, rest) = take_text(rest)?;
    Some((Stamp { time, reference }, rest))
}
