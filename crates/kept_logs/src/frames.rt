//! Records in a file.

ghost use Rattle.std.specs.Prelude.{◌≡◌, ◌==◌, true, length, IfOk};
ghost use Rattle.std.specs.Option.{option_copied};
ghost use Rattle.kept_logs.specs.Digests.{version_seen};
ghost use Rattle.kept_logs.specs.Frames.{behind_frame, frame_text, frame_at, body_at, is_size, is_zeros, no_record};
ghost use Rattle.kept_logs.specs.MetSeen.{frame_seen};

use crate::expected_bytes::{Met, meet};
use crate::sums::check_of;
use crate::version::LogVersion;
use codec::{put_u64, take_u64};
use std::alloc::{AllocError, Global};

/// What a record takes beside its body, in bytes: its length twice, and what vouches for it.
const AROUND: usize = 24;

/// The most bytes that the body of a record has (own): the sum of all packets of the largest journal has fewer.
const MOST_BODY: u64 = 4_294_967_295;

/// What stands at the front of bytes.
#[derive(Clone, Copy)]
pub(crate) enum Frame<'a> {
    /// A record with this body, and this follows.
    Whole(&'a [u8], &'a [u8]),
    /// The beginning of a record that is cut off.
    CutOff,
    /// No record of this number.
    Damaged,
}

/// Whether a body may have this many bytes: at least one.
fn is_size(size: u64) -> bool
    ensures { result ≡ is_size size }
{
    0 < size && size <= MOST_BODY
}

/// Whether bytes are zeros alone.
fn is_zeros(bytes: &[u8]) -> bool
    ensures { result ≡ is_zeros bytes.now }
{
    bytes.iter().all(is_zero)
}

/// Whether a byte is zero.
fn is_zero(byte: &u8) -> bool
    ensures { result ≡ (byte.now == 0) }
{
    *byte == 0
}

/// The record of this number with this body, in a log of this version.
///
/// # Errors
/// Memory was refused, or the body has more bytes than a record may: the process has to end then, as where there is no
/// memory.
#[tactic(auto, unfolding(crate::specs::Frames::frame_text))]
pub(crate) fn frame_of(
    alloc: Global,
    version: LogVersion,
    number: u64,
    body: &[u8],
) -> Result<Vec<u8>, AllocError>
    ensures text { IfOk result (λ frame. frame.items ≡ frame_text (version_seen version) number body.now) }
    ensures fits { IfOk result (λ _. is_size (length body.now) ≡ true) }
{
    let size = body.len() as u64;
    if !is_size(size) {
        return Err(AllocError);
    }
    let mut frame = Vec::with_capacity(alloc, body.len().saturating_add(AROUND))?;
    put_u64(&mut frame, size)?;
    put_u64(&mut frame, u64::MAX - size)?;
    frame.extend_from_slice(body)?;
    frame.extend_from_slice(&check_of(version, number, body))?;
    Ok(frame)
}

/// The record of this number at the front of bytes of a log of this version.
#[tactic(auto, unfolding(crate::specs::Frames::frame_at))]
pub(crate) fn take_frame(version: LogVersion, number: u64, bytes: &[u8]) -> Frame<'_>
    ensures { frame_seen result ≡ frame_at (version_seen version) number bytes.now }
{
    let Some((size, rest)) = take_u64(bytes) else {
        return Frame::CutOff;
    };
    if !is_size(size) {
        return no_record(size, rest);
    }
    let complement = u64::MAX - size;
    match meet(&complement.to_be_bytes(), rest) {
        Met::Whole(rest) => take_body(version, number, size, rest),
        Met::Torn => Frame::CutOff,
        Met::Differs => Frame::Damaged,
    }
}

/// What follows the undamaged record of this number that begins these bytes of a log of this version; none where there is no such record, or it is cut off.
pub fn behind_record(version: LogVersion, number: u64, bytes: &[u8]) -> Option<&[u8]>
    ensures { option_copied result ≡ behind_frame (frame_at (version_seen version) number bytes.now) }
{
    match take_frame(version, number, bytes) {
        Frame::Whole(_, after) => Some(after),
        Frame::CutOff => None,
        Frame::Damaged => None,
    }
}

/// What stands after a length that no body has: where all is zero up to the end, bytes that a crash has lost.
fn no_record(size: u64, rest: &[u8]) -> Frame<'_>
    ensures { frame_seen result ≡ no_record size rest.now }
{
    if size == 0 && is_zeros(rest) {
        Frame::CutOff
    } else {
        Frame::Damaged
    }
}

/// The record of this number with a body of this many bytes, which begins here.
#[tactic(auto, unfolding(crate::specs::Frames::body_at))]
fn take_body(version: LogVersion, number: u64, size: u64, bytes: &[u8]) -> Frame<'_>
    ensures { frame_seen result ≡ body_at (version_seen version) number size bytes.now }
{
    if (bytes.len() as u64) < size {
        return Frame::CutOff;
    }
    let size = size as usize;
    let body = &bytes[..size];
    match meet(&check_of(version, number, body), &bytes[size..]) {
        Met::Whole(after) => Frame::Whole(body, after),
        Met::Torn => Frame::CutOff,
        Met::Differs => Frame::Damaged,
    }
}
