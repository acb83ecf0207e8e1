//! Logs that their nodes do not make.

ghost use Rattle.std.specs.Prelude.{◌≡◌, map, IfOk, OnOk};
ghost use Rattle.std.specs.Option.{option_map};
ghost use Rattle.claim_model.specs.Bytes.{bytes_with};
ghost use Rattle.world_setup.specs.Seen.{node_seen, sent_seen, settings_seen};
ghost use Rattle.node_log.specs.LogSeen.{log_seen, logs_seen};
ghost use Rattle.table_text.specs.Adding.{Adds};
ghost use Rattle.log_audit.specs.Adding.{AddsLine, AddsLines};
ghost use Rattle.log_audit.specs.Sentences.{sentence, told_lines};
ghost use Rattle.log_audit.specs.Wrongs.{Bytes as BytesWrong, common, packet_wrong, wrong_from, wrong_in, call_made, calls_made, first_wrong, call_pieces, wrong_pieces, wrong_line, line_of_wrong, log_wrongs, wrong_lines};
ghost use Rattle.log_audit.specs.WrongsSeen.{wrong_seen, first_seen, made_as, ended_as};
ghost use Rattle.world_setup.specs.Taken.{routes_in};

use crate::sentences::{Manner, Piece, put_pieces, put_told};
use bin_routes::Routes;
use node_log::{NodeLog, Record, is_same_node, is_there};
use node_state::NodeState;
use std::alloc::{AllocError, Global};
use world_setup::{CheckedSettings, Fault, Node, Sent};

/// What is wrong with a call of a log.
#[derive(Clone, Copy)]
pub(crate) enum Wrong {
    /// The node refuses it by this name.
    Refused(&'static [u8]),
    /// The node sends this many packets, and the log has this many.
    Count(u64, u64),
    /// The packet of this number, from 1, is for this node in the log, and for another one by the node.
    Addressee(u64, Node),
    /// The packet of this number to this node has other bytes in the log from this place on, from 0.
    Bytes(u64, Node, u64),
}

/// The first call that a node does not make as its log has it, by its number from 1.
#[derive(Clone, Copy)]
pub(crate) struct FirstWrong {
    pub(crate) call: u64,
    pub(crate) wrong: Wrong,
}

/// The lines on each log whose node does not make it, with the first call that it does not make and how.
pub(crate) fn wrong_lines(
    alloc: Global,
    manner: Manner,
    settings: &CheckedSettings,
    logs: &[NodeLog],
) -> Result<Vec<u8>, AllocError>
    ensures { IfOk result (λ text. text.items ≡ told_lines manner
        (wrong_lines (bytes_with (routes_in settings.now)) (settings_seen settings.now) (logs_seen logs.now))) }
{
    let mut out = Vec::new(alloc);
    put_wrongs(&mut out, manner, settings, logs)?;
    Ok(out)
}

/// Appends these lines.
fn put_wrongs(
    out: &mut Vec<u8>,
    manner: Manner,
    settings: &CheckedSettings,
    logs: &[NodeLog],
) -> Result<(), AllocError>
    ensures { OnOk result (AddsLines manner out.old out.new
        (wrong_lines (bytes_with (routes_in settings.now)) (settings_seen settings.now) (logs_seen logs.now))) }
{
    for log in logs {
        put_log_wrongs(out, manner, settings, log)?;
    }
    Ok(())
}

/// Appends a line on a log that its node does not make.
fn put_log_wrongs(
    out: &mut Vec<u8>,
    manner: Manner,
    settings: &CheckedSettings,
    log: &NodeLog,
) -> Result<(), AllocError>
    ensures { OnOk result (AddsLines manner out.old out.new
        (log_wrongs (bytes_with (routes_in settings.now)) (settings_seen settings.now) (log_seen log.now))) }
{
    let found = first_wrong(*out.allocator(), settings, log)?;
    put_found(out, manner, log.node(), found)
}

/// Appends the line on a wrong call, where there is one.
fn put_found(
    out: &mut Vec<u8>,
    manner: Manner,
    node: Node,
    found: Option<FirstWrong>,
) -> Result<(), AllocError>
    ensures { OnOk result (AddsLines manner out.old out.new
        (line_of_wrong (node_seen node) (option_map first_seen found))) }
{
    match found {
        Some(first) => put_first(out, manner, node, first),
        None => Ok(()),
    }
}

/// Appends the line on a wrong call.
fn put_first(
    out: &mut Vec<u8>,
    manner: Manner,
    node: Node,
    first: FirstWrong,
) -> Result<(), AllocError>
    ensures { OnOk result (AddsLine manner out.old out.new (wrong_line (node_seen node) (first_seen first))) }
{
    let mut line = Vec::new(*out.allocator());
    put_wrong_line(&mut line, node, first)?;
    put_told(out, manner, line.as_slice())
}

/// Appends what the line on a wrong call says.
#[tactic(auto, unfolding(crate::specs::Wrongs::wrong_line))]
pub(crate) fn put_wrong_line(
    line: &mut Vec<u8>,
    node: Node,
    first: FirstWrong,
) -> Result<(), AllocError>
    ensures { OnOk result (Adds line.old line.new (wrong_line (node_seen node) (first_seen first))) }
{
    put_call(line, node, first.call)?;
    put_wrong(line, first.wrong)
}

/// Appends which call of which node a line is on.
pub(crate) fn put_call(line: &mut Vec<u8>, node: Node, call: u64) -> Result<(), AllocError>
    ensures { OnOk result (Adds line.old line.new (sentence (call_pieces (node_seen node) call))) }
{
    let pieces = [
        Piece::Named(node),
        Piece::Words(b" call "),
        Piece::Number(call),
        Piece::Words(b": "),
    ];
    put_pieces(line, &pieces)
}

/// Appends what is wrong with a call.
fn put_wrong(line: &mut Vec<u8>, wrong: Wrong) -> Result<(), AllocError>
    ensures { OnOk result (Adds line.old line.new (sentence (wrong_pieces (wrong_seen wrong)))) }
{
    match wrong {
        Wrong::Refused(name) => put_pieces(
            line,
            &[Piece::Words(b"the node refuses it: "), Piece::Words(name)],
        ),
        Wrong::Count(made, kept) => put_pieces(
            line,
            &[
                Piece::Words(b"packets that the node sends "),
                Piece::Number(made),
                Piece::Words(b", that the log has "),
                Piece::Number(kept),
            ],
        ),
        Wrong::Addressee(packet, to) => put_pieces(
            line,
            &[
                Piece::Words(b"packet "),
                Piece::Number(packet),
                Piece::Words(b" to "),
                Piece::Named(to),
                Piece::Words(b" is for another node than the one that the node sends"),
            ],
        ),
        Wrong::Bytes(packet, to, place) => put_bytes_wrong(line, packet, to, place),
    }
}

/// Appends from which place on the bytes of a packet are wrong.
fn put_bytes_wrong(line: &mut Vec<u8>, packet: u64, to: Node, place: u64) -> Result<(), AllocError>
    ensures { OnOk result (Adds line.old line.new
        (sentence (wrong_pieces (BytesWrong packet (node_seen to) place)))) }
{
    let pieces = [
        Piece::Words(b"packet "),
        Piece::Number(packet),
        Piece::Words(b" to "),
        Piece::Named(to),
        Piece::Words(b" has other bytes than the node sends, from byte "),
        Piece::Number(place),
        Piece::Words(b" on"),
    ];
    put_pieces(line, &pieces)
}

/// The first call of a log that its node does not make as the log has it. A log of a node that is not there has none.
fn first_wrong(
    alloc: Global,
    settings: &CheckedSettings,
    log: &NodeLog,
) -> Result<Option<FirstWrong>, AllocError>
    ensures { IfOk result (λ found. option_map first_seen found
        ≡ first_wrong (bytes_with (routes_in settings.now)) (settings_seen settings.now) (log_seen log.now)) }
{
    if !is_there(settings.settings(), log.node()) {
        return Ok(None);
    }
    let mut node = NodeState::opening(alloc, settings, log.node())?;
    make_calls(alloc, settings.routes(), &mut node, log.records())
}

/// Makes the calls of records on a node, up to the first that it does not make as its record has it.
pub(crate) fn make_calls(
    alloc: Global,
    routes: &Routes,
    node: &mut NodeState,
    records: &[Record],
) -> Result<Option<FirstWrong>, AllocError>
    ensures { IfOk result (λ found. calls_made (bytes_with routes.now) node.old 1 records.now ≡ ended_as found node.new) }
{
    for (passed, one) in records.iter().enumerate() {
        if let Some(wrong) = make_call(alloc, routes, node, one)? {
            return Ok(Some(FirstWrong {
                call: passed as u64 + 1,
                wrong,
            }));
        }
    }
    Ok(None)
}

/// Makes the call of a record on a node; what is wrong with it, where the node does not make it as the record has it.
fn make_call(
    alloc: Global,
    routes: &Routes,
    node: &mut NodeState,
    one: &Record,
) -> Result<Option<Wrong>, AllocError>
    ensures { IfOk result (λ found. call_made (bytes_with routes.now) node.old one.now ≡ made_as found node.new) }
{
    match node.step(alloc, routes, one.call()) {
        Ok(sent) => Ok(wrong_in(sent.as_slice(), one.sent())),
        Err(Fault::OutOfMemory) => Err(AllocError),
        Err(fault) => Ok(Some(Wrong::Refused(fault.name().as_bytes()))),
    }
}

/// What is wrong with the packets that a log has of a call, where its node sends those that were made.
fn wrong_in(made: &[Sent], kept: &[Sent]) -> Option<Wrong>
    ensures { option_map wrong_seen result ≡ wrong_in (map sent_seen made.now) (map sent_seen kept.now) }
{
    if made.len() == kept.len() {
        wrong_among(made, kept)
    } else {
        Some(Wrong::Count(made.len() as u64, kept.len() as u64))
    }
}

/// The first packet that is wrong.
fn wrong_among(made: &[Sent], kept: &[Sent]) -> Option<Wrong>
    ensures { option_map wrong_seen result ≡ wrong_from 1 (map sent_seen made.now) (map sent_seen kept.now) }
{
    for (passed, one) in made.iter().enumerate() {
        if passed >= kept.len() {
            return None;
        }
        if let Some(wrong) = packet_wrong(passed as u64 + 1, one, &kept[passed]) {
            return Some(wrong);
        }
    }
    None
}

/// What is wrong with a packet of this number, which a node sends as one and the log has as the other.
fn packet_wrong(number: u64, made: &Sent, kept: &Sent) -> Option<Wrong>
    ensures { option_map wrong_seen result ≡ packet_wrong number (sent_seen made.now) (sent_seen kept.now) }
{
    if !is_same_node(made.to, kept.to) {
        return Some(Wrong::Addressee(number, kept.to));
    }
    if made.bytes == kept.bytes {
        return None;
    }
    let place = common(made.bytes.as_slice(), kept.bytes.as_slice());
    Some(Wrong::Bytes(number, kept.to, place))
}

/// How many bytes are the same before the first that differs, or that only one text has.
#[tactic(auto, using(crate::proofs::Comparing::common_past))]
fn common(made: &[u8], kept: &[u8]) -> u64
    ensures { result ≡ common made.now kept.now }
{
    for (passed, one) in made.iter().enumerate() {
        if passed >= kept.len() {
            return passed as u64;
        }
        if *one != kept[passed] {
            return passed as u64;
        }
    }
    made.len() as u64
}
