//! The file of a log: the log alone, or after what it begins with.

ghost use Rattle.std.specs.Prelude.{◌≡◌, IfOk};
ghost use Rattle.std.specs.Option.{option_map};
ghost use Rattle.log_turning.specs.Files.{file_text, named_in, part_in, size_in, split_in};
ghost use Rattle.log_turning.specs.Joined.{part_seen};

use crate::joining::Part;
use codec::{put_u64, take_u64};
use std::alloc::{AllocError, Global};

/// The bytes that begin the file of a log that goes on after closed ones: its name and its version (own).
const NAME: [u8; 3] = [b'P', b'T', 1];

/// How many bytes stand before the rest in such a file: name, version, and how many bytes the rest has.
pub const BEFORE_REST: usize = 11;

/// The file of a log that begins with this rest.
#[tactic(auto, unfolding(crate::specs::Files::file_text))]
pub fn write_file(alloc: Global, rest: &[u8], log: &[u8]) -> Result<Vec<u8>, AllocError>
    ensures { IfOk result (λ file. file.items ≡ file_text rest.now log.now) }
{
    let mut file = Vec::new(alloc);
    file.extend_from_slice(&NAME)?;
    put_u64(&mut file, rest.len() as u64)?;
    file.extend_from_slice(rest)?;
    file.extend_from_slice(log)?;
    Ok(file)
}

/// How many bytes the rest has that stands in a file of these first bytes; `None` where it has none, and the file is the log.
#[tactic(auto, unfolding(crate::specs::Files::size_in))]
pub fn rest_size(bytes: &[u8]) -> Option<u64>
    ensures { result ≡ size_in bytes.now }
{
    let (size, _) = take_u64(named(bytes)?)?;
    Some(size)
}

/// What the file of a log has: the rest that the log begins with, where there is one, and the log.
#[tactic(auto, unfolding(crate::specs::Files::part_in))]
pub fn part_of(bytes: &[u8]) -> Part<'_>
    ensures { part_seen result ≡ part_in bytes.now }
{
    match split(bytes) {
        Some((rest, log)) => Part {
            rest: Some(rest),
            log,
        },
        None => Part {
            rest: None,
            log: bytes,
        },
    }
}

/// The rest, and the log after it.
#[tactic(auto, unfolding(crate::specs::Files::split_in, kept_logs::specs::Fields::text_at, codec::specs::Fields::bytes_at))]
fn split(bytes: &[u8]) -> Option<(&[u8], &[u8])>
    ensures { option_map (λ parts. (parts.0.now, parts.1.now)) result ≡ split_in bytes.now }
{
    let (size, behind) = take_u64(named(bytes)?)?;
    if (behind.len() as u64) < size {
        return None;
    }
    let size = size as usize;
    Some((&behind[..size], &behind[size..]))
}

/// What follows the name and the version.
#[tactic(auto, unfolding(crate::specs::Files::named_in, codec::specs::Fields::bytes_at))]
fn named(bytes: &[u8]) -> Option<&[u8]>
    ensures { option_map (λ behind. behind.now) result ≡ named_in bytes.now }
{
    if bytes.len() < NAME.len() || bytes[..NAME.len()] != NAME[..] {
        return None;
    }
    Some(&bytes[NAME.len()..])
}
