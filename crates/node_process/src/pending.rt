//! Lines as they come whole.

ghost use Rattle.std.specs.Prelude.{◌≡◌, ◌<◌, ◌+◌, ◌++◌, [], length, drop, position, IfErr, IfSome, OnOk};
ghost use Rattle.std.specs.List.{AllByRecursion};
ghost use Rattle.std.specs.Str.Lines.{strip_carriage_return};
ghost use Rattle.kept_logs.specs.Fits.{FitsStamped};
ghost use Rattle.node_service.specs.Serving.{after_line};
ghost use Rattle.node_service.specs.Lines.{after_lines, line_kept, lines_kept};
ghost use Rattle.node_process.specs.Ends.{IsTooMuch, IsUnheeded};
ghost use Rattle.node_process.specs.Heard.{NoNewline, begun_line, is_newline, whole_lines};

use crate::unserved::Unserved;
use memchr::memchr;
use node_service::Service;
use std::alloc::{AllocError, Global};

/// The most bytes of a line (own).
const MOST_BYTES: usize = 16_777_216;

/// Serves the lines that have come whole with these bytes, and keeps what has begun of the next one.
///
/// # Errors
/// Memory was refused, or what has begun is longer than a line may be: `LongLine`.
#[tactic(auto, using(crate::proofs::Splitting::none_ends, crate::proofs::Hearing::taken_all, crate::proofs::Hearing::taken_fits, crate::proofs::Hearing::nothing_ends, crate::proofs::Hearing::none_left, crate::proofs::Hearing::on_ok, crate::proofs::Hearing::whatever, crate::proofs::Hearing::too_much))]
pub(crate) fn serve_heard(
    alloc: Global,
    service: &mut Service,
    pending: &mut Vec<u8>,
    bytes: &[u8],
) -> Result<(), Unserved>
    requires { NoNewline pending.old.items }
    ensures served { OnOk result
        (service.new ≡ after_lines service.old (whole_lines (pending.old.items ++ bytes.now))) }
    ensures fits { OnOk result
        (AllByRecursion FitsStamped (lines_kept service.old (whole_lines (pending.old.items ++ bytes.now)))) }
    ensures kept { OnOk result (pending.new.items ≡ begun_line (pending.old.items ++ bytes.now)) }
    ensures begun { OnOk result (NoNewline pending.new.items) }
    ensures why { IfErr result (IsUnheeded (pending.old.items ++ bytes.now)) }
{
    let mut rest = bytes;
    for _ in 0..bytes.len() {
        match newline_in(rest) {
            Some(end) => {
                serve_line(alloc, service, pending, &rest[..end])?;
                rest = behind(rest, end);
            }
            None => return keep_begun(pending, rest),
        }
    }
    keep_begun(pending, rest)
}

/// The place of the first newline.
#[tactic(auto, using(crate::proofs::Splitting::found_first))]
fn newline_in(bytes: &[u8]) -> Option<usize>
    ensures first { result ≡ position is_newline bytes.now }
    ensures bound { IfSome result (λ place. place < length bytes.now) }
{
    memchr(b'\n', bytes)
}

/// The bytes after the one at this place.
fn behind(bytes: &[u8], end: usize) -> &[u8]
    requires { end < length bytes.now }
    ensures { result.now ≡ drop (end + 1) bytes.now }
{
    &bytes[end + 1..]
}

/// Keeps what has begun of a line.
fn keep_begun(pending: &mut Vec<u8>, bytes: &[u8]) -> Result<(), Unserved>
    ensures kept { OnOk result (pending.new.items ≡ pending.old.items ++ bytes.now) }
    ensures why { IfErr result (IsTooMuch (pending.old.items ++ bytes.now)) }
{
    pending.extend_from_slice(bytes)?;
    if pending.len() > MOST_BYTES {
        return Err(Unserved::LongLine);
    }
    Ok(())
}

/// Serves the line that had begun, with its end.
fn serve_line(
    alloc: Global,
    service: &mut Service,
    pending: &mut Vec<u8>,
    end: &[u8],
) -> Result<(), AllocError>
    ensures served { OnOk result (service.new
        ≡ after_line service.old (strip_carriage_return (pending.old.items ++ end.now))) }
    ensures fits { OnOk result (AllByRecursion FitsStamped
        (line_kept service.old (strip_carriage_return (pending.old.items ++ end.now)))) }
    ensures none { OnOk result (pending.new.items ≡ []) }
{
    pending.extend_from_slice(end)?;
    service.serve(alloc, without_carriage_return(pending.as_slice()))?;
    pending.clear();
    Ok(())
}

/// A line without the one carriage return at its end, if it has one.
fn without_carriage_return(line: &[u8]) -> &[u8]
    ensures { result.now ≡ strip_carriage_return line.now }
{
    match line {
        [front @ .., b'\r'] => front,
        _ => line,
    }
}
