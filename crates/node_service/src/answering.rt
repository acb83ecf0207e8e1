//! What is written of a node, and of its calls.

ghost use Rattle.std.specs.Prelude.{◌≡◌, ◌++◌, map, IfOk, OnOk};
ghost use Rattle.world_setup.specs.Seen.{sent_seen};
ghost use Rattle.node_service.specs.Answering.{answer_line, done_line, idle_line, known_line, number_line, ready_line, refused_line, sent_line, sent_lines};

use input_text::{put_decimal, put_printed};
use schedule::put_node;
use std::alloc::{AllocError, Global};
use world_setup::Sent;

/// The line that says that a node is served, and how many calls its log has.
///
/// # Errors
/// Memory was refused.
pub fn ready_line(alloc: Global, calls: u64) -> Result<Vec<u8>, AllocError>
    ensures { IfOk result (λ line. line.items ≡ ready_line calls) }
{
    let mut line = Vec::new(alloc);
    put_ready(&mut line, calls)?;
    Ok(line)
}

/// Appends that a node is served, and how many calls its log has.
fn put_ready(out: &mut Vec<u8>, calls: u64) -> Result<(), AllocError>
    ensures { OnOk result (out.new.items ≡ out.old.items ++ ready_line calls) }
{
    out.extend_from_slice(b"ready ")?;
    put_decimal(out, calls)?;
    out.extend_from_slice(b"\n")
}

/// Appends a line for each packet that a node sent: `send`, the addressee and the packet in printed bytes.
#[tactic(auto, unfolding(crate::specs::Answering::sent_lines), using(crate::proofs::Loops::texts_go_on))]
pub(crate) fn put_sent(out: &mut Vec<u8>, sent: &[Sent]) -> Result<(), AllocError>
    ensures { OnOk result (out.new.items ≡ out.old.items ++ sent_lines (map sent_seen sent.now)) }
{
    for one in sent {
        put_one(out, one)?;
    }
    Ok(())
}

/// Appends the line of one packet.
#[tactic(auto, unfolding(crate::specs::Answering::sent_line))]
fn put_one(out: &mut Vec<u8>, one: &Sent) -> Result<(), AllocError>
    ensures { OnOk result (out.new.items ≡ out.old.items ++ sent_line (sent_seen one.now)) }
{
    out.extend_from_slice(b"send ")?;
    put_node(out, one.to)?;
    out.extend_from_slice(b" ")?;
    put_printed(out, one.bytes.as_slice())?;
    out.extend_from_slice(b"\n")
}

/// Appends that a call was refused, by the name of its refusal.
pub(crate) fn put_refused(out: &mut Vec<u8>, name: &[u8]) -> Result<(), AllocError>
    ensures { OnOk result (out.new.items ≡ out.old.items ++ refused_line name.now) }
{
    out.extend_from_slice(b"refused ")?;
    out.extend_from_slice(name)?;
    out.extend_from_slice(b"\n")
}

/// Appends that a call was made.
pub(crate) fn put_done(out: &mut Vec<u8>) -> Result<(), AllocError>
    ensures { OnOk result (out.new.items ≡ out.old.items ++ done_line) }
{
    out.extend_from_slice(b"ok\n")
}

/// Appends that a tick changes nothing, and was not recorded.
pub(crate) fn put_idle(out: &mut Vec<u8>) -> Result<(), AllocError>
    ensures { OnOk result (out.new.items ≡ out.old.items ++ idle_line) }
{
    out.extend_from_slice(b"idle\n")
}

/// Appends the number of the entry of a submission that was made before.
pub(crate) fn put_known(out: &mut Vec<u8>, number: u64) -> Result<(), AllocError>
    ensures { OnOk result (out.new.items ≡ out.old.items ++ known_line number) }
{
    out.extend_from_slice(b"known ")?;
    put_decimal(out, number)?;
    out.extend_from_slice(b"\n")
}

/// Appends the number of the entry that a submission made.
pub(crate) fn put_number(out: &mut Vec<u8>, number: u64) -> Result<(), AllocError>
    ensures { OnOk result (out.new.items ≡ out.old.items ++ number_line number) }
{
    out.extend_from_slice(b"number ")?;
    put_decimal(out, number)?;
    out.extend_from_slice(b"\n")
}

/// Appends the answer to a number, in printed bytes.
pub(crate) fn put_answer(out: &mut Vec<u8>, bytes: &[u8]) -> Result<(), AllocError>
    ensures { OnOk result (out.new.items ≡ out.old.items ++ answer_line bytes.now) }
{
    out.extend_from_slice(b"answer ")?;
    put_printed(out, bytes)?;
    out.extend_from_slice(b"\n")
}
