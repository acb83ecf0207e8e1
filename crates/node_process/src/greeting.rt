//! How many calls a node's logs have, and the line that says so.

ghost use Rattle.std.specs.Prelude.{◌≡◌, ◌++◌, codes, decimal, IfOk, OnOk};
ghost use Rattle.node_process.specs.Ends.{TellsLack};
ghost use Rattle.node_process.specs.Safe.{behind_line, greeting};

use input_text::put_decimal;
use node_service::ready_line;
use std::alloc::{AllocError, Global};

/// How many calls of a log and before it there are, where these are fewer than there are at least.
pub(crate) fn lack(before: u64, calls: u64, least: u64) -> Option<u64>
    ensures { TellsLack before calls least result }
{
    let Some(all) = before.checked_add(calls) else {
        return None;
    };
    if all < least {
        return Some(all);
    }
    None
}

/// The line that says that a node is served: how many calls its log has, and how many were made before it, where there were some.
pub(crate) fn greeting(alloc: Global, before: u64, calls: u64) -> Result<Vec<u8>, AllocError>
    ensures { IfOk result (λ line. line.items ≡ greeting before calls) }
{
    if before == 0 {
        ready_line(alloc, calls)
    } else {
        behind_line(alloc, before, calls)
    }
}

/// The line of a log that goes on after closed ones.
fn behind_line(alloc: Global, before: u64, calls: u64) -> Result<Vec<u8>, AllocError>
    ensures { IfOk result (λ line. line.items ≡ behind_line before calls) }
{
    let mut line = Vec::new(alloc);
    put_behind(&mut line, before, calls)?;
    Ok(line)
}

/// Appends that a node is served, how many calls its log has, and how many were made before it.
fn put_behind(line: &mut Vec<u8>, before: u64, calls: u64) -> Result<(), AllocError>
    ensures { OnOk result (line.new.items ≡ line.old.items ++ behind_line before calls) }
{
    line.extend_from_slice(b"ready ")?;
    put_decimal(line, calls)?;
    line.extend_from_slice(b" behind ")?;
    put_decimal(line, before)?;
    line.extend_from_slice(b"\n")
}
