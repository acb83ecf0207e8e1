//! Logs of which each fits its node, and which no order of their calls brings together.

ghost use Rattle.std.specs.Prelude.{◌≡◌, map, flat_map, take, slice_get, codes, IfOk, OnOk};
ghost use Rattle.std.specs.List.{list_any, list_all};
ghost use Rattle.std.specs.Option.{option_copied};
ghost use Rattle.bin_routes.specs.Table.{RouteMaps};
ghost use Rattle.claim_model.specs.Bytes.{bytes_with};
ghost use Rattle.world_setup.specs.Seen.{node_seen, call_seen, sent_seen};
ghost use Rattle.node_log.specs.LogSeen.{logs_seen};
ghost use Rattle.table_text.specs.Adding.{Adds};
ghost use Rattle.log_audit.specs.Adding.{Tells};
ghost use Rattle.log_audit.specs.Sentences.{sentence, told_line, told_lines};
ghost use Rattle.log_audit.specs.Waits.{Progress as ProgressSeen, is_packet, has_sent, sent_before, sent_ever, waits, is_held, has_next, is_stuck, kind_words, packet_pieces, sent_words, sender_pieces, taken_text, wait_text, wait_line, held_lines, waiting_lines, IsWaitingText};
ghost use Rattle.log_audit.specs.WaitsSeen.{progress_seen};

use crate::judging::walking::calls_that_go;
use crate::judging::wrongs::put_call;
use crate::sentences::{Manner, Piece, put_pieces, put_told};
use crate::tables::packets::opened;
use envelope::Kind;
use node_log::{NodeLog, Record, is_same_node};
use octets::Octets;
use std::alloc::{AllocError, Global};
use world_setup::{Call, Node, Sent};

/// A log, and how many of its calls were made.
#[derive(Clone, Copy)]
pub(crate) struct Progress<'a> {
    log: &'a NodeLog,
    made: usize,
}

impl<'a> Progress<'a> {
    /// The next call of the log, if there is one.
    fn next(&self) -> Option<&'a Record>
        ensures { option_copied result ≡ slice_get self.now.log.now.calls.items self.now.made }
    {
        self.log.records().get(self.made)
    }
}

/// The lines on logs which no order of their calls brings together: the call of each node that could not go on, and what it
/// waits for.
pub(crate) fn waiting_lines(
    alloc: Global,
    manner: Manner,
    logs: &[NodeLog],
) -> Result<Vec<u8>, AllocError>
    ensures { (routes : RouteMaps) → IfOk result (λ text.
        IsWaitingText (bytes_with routes) (logs_seen logs.now) manner text.items) }
{
    let made = calls_that_go(alloc, logs)?;
    let lines = progress_of(alloc, logs, made.as_slice())?;
    let mut out = Vec::new(alloc);
    put_waiting(&mut out, manner, lines.as_slice())?;
    Ok(out)
}

/// Logs, of each of which this many calls were made.
fn progress_of<'a>(
    alloc: Global,
    logs: &'a [NodeLog],
    made: &[usize],
) -> Result<Vec<Progress<'a>>, AllocError>
    ensures { IfOk result (λ lines.
        map (λ (p : ProgressSeen). p.log) (map progress_seen lines.items) ≡ logs_seen logs.now) }
{
    let mut lines = Vec::new(alloc);
    for (place, log) in logs.iter().enumerate() {
        let made = made.get(place).copied().unwrap_or(0);
        lines.push(Progress { log, made })?;
    }
    Ok(lines)
}

/// Appends the lines on logs whose next calls all wait.
#[tactic(auto, unfolding(crate::specs::Waits::waiting_lines))]
fn put_waiting(out: &mut Vec<u8>, manner: Manner, lines: &[Progress<'_>]) -> Result<(), AllocError>
    ensures { Tells out.old out.new
        (λ ctx. told_lines manner (waiting_lines ctx (map progress_seen lines.now))) result }
{
    if is_stuck(lines) {
        put_all_held(out, manner, lines)
    } else {
        put_told(out, manner, b"no order of these calls is a run")
    }
}

/// Whether some log has calls left, and the next call of each that has waits.
fn is_stuck(lines: &[Progress<'_>]) -> bool
    ensures { result ≡ is_stuck (map progress_seen lines.now) }
{
    all_held(lines) && any_next(lines)
}

/// Whether the next call of each log waits, if there is one.
fn all_held(lines: &[Progress<'_>]) -> bool
    ensures { result ≡ list_all (λ line. is_held (map progress_seen lines.now) (progress_seen line)) lines.now }
{
    lines.iter().all(|line| is_held(lines, line))
}

/// Whether some log has calls left.
fn any_next(lines: &[Progress<'_>]) -> bool
    ensures { result ≡ list_any (λ line. has_next (progress_seen line)) lines.now }
{
    lines.iter().any(|line| line.next().is_some())
}

/// Whether the next call of a log waits, if there is one.
fn is_held(lines: &[Progress<'_>], line: &Progress<'_>) -> bool
    ensures { result ≡ is_held (map progress_seen lines.now) (progress_seen line.now) }
{
    match line.next() {
        Some(one) => waits(lines, line.log.node(), one.call()),
        None => true,
    }
}

/// Whether a call waits: it takes a packet that no call sent which was made.
fn waits(lines: &[Progress<'_>], node: Node, call: &Call) -> bool
    ensures { result ≡ waits (map progress_seen lines.now) (node_seen node) (call_seen call.now) }
{
    match call {
        Call::Take { from, bytes } => !was_sent(lines, *from, node, bytes),
        Call::Adjudicate { from, bytes, .. } => !was_sent(lines, *from, node, bytes),
        Call::Submit(_) => false,
        Call::Tick => false,
        Call::Stop => false,
        Call::Start => false,
        Call::Plan { .. } => false,
        Call::Terms { .. } => false,
        Call::Retry { .. } => false,
        Call::Cap { .. } => false,
    }
}

/// Appends the line on the next call of each log that has one.
fn put_all_held(out: &mut Vec<u8>, manner: Manner, lines: &[Progress<'_>]) -> Result<(), AllocError>
    ensures { Tells out.old out.new (λ ctx. told_lines manner
        (flat_map (held_lines ctx (map progress_seen lines.now)) (map progress_seen lines.now))) result }
{
    for line in lines {
        put_held(out, manner, lines, line)?;
    }
    Ok(())
}

/// Appends the line on the next call of a log, if there is one.
fn put_held(
    out: &mut Vec<u8>,
    manner: Manner,
    lines: &[Progress<'_>],
    line: &Progress<'_>,
) -> Result<(), AllocError>
    ensures { Tells out.old out.new
        (λ ctx. told_lines manner (held_lines ctx (map progress_seen lines.now) (progress_seen line.now))) result }
{
    let records = line.log.records();
    if line.made < records.len() {
        let number = line.made as u64 + 1;
        put_wait(
            out,
            manner,
            lines,
            line.log.node(),
            number,
            records[line.made].call(),
        )
    } else {
        Ok(())
    }
}

/// Appends the line on a call that waits.
fn put_wait(
    out: &mut Vec<u8>,
    manner: Manner,
    lines: &[Progress<'_>],
    node: Node,
    number: u64,
    call: &Call,
) -> Result<(), AllocError>
    ensures { Tells out.old out.new (λ ctx. told_line manner
        (wait_line ctx (map progress_seen lines.now) (node_seen node) number (call_seen call.now))) result }
{
    let mut line = Vec::new(*out.allocator());
    put_wait_line(&mut line, lines, node, number, call)?;
    put_told(out, manner, line.as_slice())
}

/// Appends what the line on a call that waits says.
#[tactic(auto, unfolding(crate::specs::Waits::wait_line))]
fn put_wait_line(
    line: &mut Vec<u8>,
    lines: &[Progress<'_>],
    node: Node,
    number: u64,
    call: &Call,
) -> Result<(), AllocError>
    ensures { Tells line.old line.new
        (λ ctx. wait_line ctx (map progress_seen lines.now) (node_seen node) number (call_seen call.now)) result }
{
    put_call(line, node, number)?;
    put_reason(line, lines, node, call)
}

/// Appends what a call waits for.
fn put_reason(
    line: &mut Vec<u8>,
    lines: &[Progress<'_>],
    node: Node,
    call: &Call,
) -> Result<(), AllocError>
    ensures { Tells line.old line.new
        (λ ctx. wait_text ctx (map progress_seen lines.now) (node_seen node) (call_seen call.now)) result }
{
    match call {
        Call::Take { from, bytes } => put_taken(line, lines, node, *from, bytes),
        Call::Adjudicate { from, bytes, .. } => put_taken(line, lines, node, *from, bytes),
        Call::Submit(_) => put_no_event(line),
        Call::Tick => put_no_event(line),
        Call::Stop => put_no_event(line),
        Call::Start => put_no_event(line),
        Call::Plan { .. } => put_no_event(line),
        Call::Terms { .. } => put_no_event(line),
        Call::Retry { .. } => put_no_event(line),
        Call::Cap { .. } => put_no_event(line),
    }
}

/// Appends a packet that a node waits for, and who sent it.
fn put_taken(
    line: &mut Vec<u8>,
    lines: &[Progress<'_>],
    node: Node,
    from: Node,
    bytes: &Octets,
) -> Result<(), AllocError>
    ensures { Tells line.old line.new
        (λ ctx. taken_text ctx (map progress_seen lines.now) (node_seen node) (node_seen from) bytes.now) result }
{
    put_packet(line, bytes.as_slice())?;
    put_sender(line, from, is_sent(lines, from, node, bytes))
}

/// Appends that no event makes a call on a node of its kind.
fn put_no_event(line: &mut Vec<u8>) -> Result<(), AllocError>
    ensures { OnOk result (Adds line.old line.new (codes "no event makes this call on such a node")) }
{
    line.extend_from_slice(b"no event makes this call on such a node")
}

/// Appends a packet by what it carries: the request or the answer of a transaction, or how many bytes that are no envelope.
fn put_packet(line: &mut Vec<u8>, bytes: &[u8]) -> Result<(), AllocError>
    ensures { Tells line.old line.new (λ ctx. sentence (packet_pieces ctx bytes.now)) result }
{
    match opened(bytes) {
        Ok(envelope) => {
            let id = envelope.id();
            let pieces = [
                Piece::Words(kind_words(envelope.kind())),
                Piece::Number(u64::from(id.pharmacy())),
                Piece::Words(b"."),
                Piece::Number(id.number()),
            ];
            put_pieces(line, &pieces)
        }
        Err(_) => {
            let pieces = [
                Piece::Number(bytes.len() as u64),
                Piece::Words(b" bytes that are no envelope"),
            ];
            put_pieces(line, &pieces)
        }
    }
}

/// The words before the transaction of a packet.
fn kind_words(kind: Kind) -> &'static [u8]
    ensures { result.now ≡ kind_words kind }
{
    match kind {
        Kind::Request => b"the request of ",
        Kind::Answer => b"the answer to ",
    }
}

/// Appends who sent a packet that a call waits for, or that nobody did.
fn put_sender(line: &mut Vec<u8>, from: Node, later: bool) -> Result<(), AllocError>
    ensures { OnOk result (Adds line.old line.new (sentence (sender_pieces (node_seen from) later))) }
{
    let pieces = [
        Piece::Words(b" from "),
        Piece::Named(from),
        Piece::Words(sent_words(later)),
    ];
    put_pieces(line, &pieces)
}

/// Whether a later call sent a packet, or nobody.
fn sent_words(later: bool) -> &'static [u8]
    ensures { result.now ≡ sent_words later }
{
    if later {
        b" is sent by a later call alone"
    } else {
        b" was sent by nobody"
    }
}

/// Whether a call of a node that was made sent these bytes to that node.
fn was_sent(lines: &[Progress<'_>], from: Node, to: Node, bytes: &Octets) -> bool
    ensures { result ≡ list_any
        (λ line. sent_before (node_seen from) (node_seen to) bytes.now (progress_seen line)) lines.now }
{
    lines.iter().any(|line| sent_before(line, from, to, bytes))
}

/// Whether a log is of a node, and a call of it that was made sent these bytes to that node.
fn sent_before(line: &Progress<'_>, from: Node, to: Node, bytes: &Octets) -> bool
    ensures { result ≡ sent_before (node_seen from) (node_seen to) bytes.now (progress_seen line.now) }
{
    line.log.is_of(from) && has_sent(first_of(line.log.records(), line.made), to, bytes)
}

/// The first of records, this many at most.
fn first_of(records: &[Record], count: usize) -> &[Record]
    ensures { result.now ≡ take count records.now }
{
    match records.get(..count) {
        Some(first) => first,
        None => records,
    }
}

/// Whether some call of a node sent these bytes to that node.
fn is_sent(lines: &[Progress<'_>], from: Node, to: Node, bytes: &Octets) -> bool
    ensures { result ≡ list_any
        (λ line. sent_ever (node_seen from) (node_seen to) bytes.now (progress_seen line)) lines.now }
{
    lines.iter().any(|line| sent_ever(line, from, to, bytes))
}

/// Whether a log is of a node, and some call of it sent these bytes to that node.
fn sent_ever(line: &Progress<'_>, from: Node, to: Node, bytes: &Octets) -> bool
    ensures { result ≡ sent_ever (node_seen from) (node_seen to) bytes.now (progress_seen line.now) }
{
    line.log.is_of(from) && has_sent(line.log.records(), to, bytes)
}

/// Whether some of these calls sent these bytes to that node.
fn has_sent(records: &[Record], to: Node, bytes: &Octets) -> bool
    ensures { result ≡ list_any (has_sent (node_seen to) bytes.now) records.now }
{
    records.iter().any(|one| is_among(one.sent(), to, bytes))
}

/// Whether these bytes are among packets to that node.
fn is_among(sent: &[Sent], to: Node, bytes: &Octets) -> bool
    ensures { result ≡ list_any (is_packet (node_seen to) bytes.now) (map sent_seen sent.now) }
{
    is_any(sent, to, bytes)
}

/// Whether one of these packets is of these bytes, and to that node.
fn is_any(sent: &[Sent], to: Node, bytes: &Octets) -> bool
    ensures { result ≡ list_any (λ one. is_packet (node_seen to) bytes.now (sent_seen one)) sent.now }
{
    sent.iter().any(|one| is_packet(one, to, bytes))
}

/// Whether a packet is of these bytes, and to that node.
fn is_packet(sent: &Sent, to: Node, bytes: &Octets) -> bool
    ensures { result ≡ is_packet (node_seen to) bytes.now (sent_seen sent.now) }
{
    is_same_node(sent.to, to) && sent.bytes == *bytes
}
