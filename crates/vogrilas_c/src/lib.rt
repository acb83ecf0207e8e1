//! The static library of one node, for C and for whatever calls C. `include/vogrilas.h` is its header, which says what a
//! caller owes.
//!
//! Each export is a call of node_handle and says what that says, by the number of its outcome. None of them starts a
//! thread, waits, or reads or writes a file.
#![tactic(auto)]

ghost use Rattle.std.specs.Prelude.{◌≡◌};
ghost use Rattle.std.specs.declared.option.Option.TheVariants.{None};
ghost use Rattle.node_handle.specs.Numbers.{Says};
ghost use Rattle.node_handle.specs.Calls.{Caps, Clears, CopiesRecords, CopiesRecordsAfter, CopiesWritten, Counts, Keeps, Opens, Serves};
ghost use Rattle.node_handle.specs.Sharings.{OpensSettings, OpensUnder};
ghost use Rattle.node_handle.specs.Texts.{Prints, Unprints};
ghost use Rattle.node_handle.specs.Messages.{Describes, Makes, style_of};
ghost use Rattle.claim_profile.specs.Building.{billing_text, reversal_text};
ghost use Rattle.message_making.specs.Judged.{wrong_in_billing, wrong_in_reversal};
ghost use Rattle.message_making.specs.PlainFields.{billing_said, reversal_said};
ghost use Rattle.node_handle.specs.Typed.{Adjudicates, Takes, submit_line};
ghost use Rattle.node_handle.specs.Asked.{GivesAnswer, GivesRequest, Sizes};
ghost use Rattle.node_handle.specs.Heard.{GivesHeard};
ghost use Rattle.node_handle.specs.Payments.{ListsPayments};
ghost use Rattle.node_handle.specs.Audits.{Audits};

use node_handle::{
    NodeHandle, PlainBilling, PlainPayment, PlainReversal, SettingsHandle, audit, billing,
    describe, number_of, print, reversal, style_of, unprint,
};
use std::alloc::Global;

/// The version of the library: a million for the first number, a thousand for the second, one for the third.
const VERSION: u32 = 8_000;

/// The version of the library.
#[unsafe(no_mangle)]
pub extern "C" fn vogrilas_version() -> u32
    ensures { result ≡ 8000 }
{
    VERSION
}

/// Opens the node of a name under settings, from the bytes of its log.
#[unsafe(no_mangle)]
pub extern "C" fn vogrilas_open(
    alloc: Global,
    node: &mut NodeHandle,
    settings: &[u8],
    name: &[u8],
    log: &[u8],
    seed: &[u8],
    kept: &mut usize,
) -> u32
    ensures { Says result (λ said.
        Opens node.old.part.node settings.now name.now log.now said kept.old kept.new node.new.part.node) }
{
    number_of(node.open(alloc, settings, name, log, seed, kept))
}

/// Opens settings, for any number of nodes.
#[unsafe(no_mangle)]
pub extern "C" fn vogrilas_open_settings(
    alloc: Global,
    settings: &mut SettingsHandle,
    text: &[u8],
    seed: &[u8],
) -> u32
    ensures { Says result (λ said.
        OpensSettings settings.old.part.settings text.now said settings.new.part.settings) }
{
    number_of(settings.open(alloc, text, seed))
}

/// Opens the node of a name under settings that were opened, from the bytes of its log.
#[unsafe(no_mangle)]
pub extern "C" fn vogrilas_open_under(
    alloc: Global,
    node: &mut NodeHandle,
    settings: &mut SettingsHandle,
    name: &[u8],
    log: &[u8],
    kept: &mut usize,
) -> u32
    ensures settings { settings.new.part.settings ≡ settings.old.part.settings }
    ensures opened { Says result (λ said. OpensUnder settings.old.part.settings node.old.part.node name.now log.now said
        kept.old kept.new node.new.part.node) }
{
    number_of(node.open_under(alloc, settings, name, log, kept))
}

/// Lets go of settings. Nodes that were opened under them stay as they are.
#[unsafe(no_mangle)]
pub extern "C" fn vogrilas_close_settings(alloc: Global, settings: &mut SettingsHandle)
    ensures { settings.new.part.settings ≡ None }
{
    settings.close(alloc);
}

/// Does what a line asks of the node.
#[unsafe(no_mangle)]
pub extern "C" fn vogrilas_serve(alloc: Global, node: &mut NodeHandle, line: &[u8]) -> u32
    ensures { Says result (λ said. Serves node.old.part.node line.now said node.new.part.node) }
{
    number_of(node.serve(alloc, line))
}

/// Enters a request, of a pharmacy.
#[unsafe(no_mangle)]
pub extern "C" fn vogrilas_submit(alloc: Global, node: &mut NodeHandle, request: &[u8]) -> u32
    ensures { Says result (λ said. Serves node.old.part.node (submit_line request.now) said node.new.part.node) }
{
    number_of(node.submit(alloc, request))
}

/// Takes a packet that has come from the node of this name.
#[unsafe(no_mangle)]
pub extern "C" fn vogrilas_take(
    alloc: Global,
    node: &mut NodeHandle,
    from: &[u8],
    packet: &[u8],
) -> u32
    ensures { Says result (λ said. Takes node.old.part.node from.now packet.now said node.new.part.node) }
{
    number_of(node.receive(alloc, from, packet))
}

/// Takes a packet that has come from the node of this name, with an advice.
#[unsafe(no_mangle)]
pub extern "C" fn vogrilas_adjudicate(
    alloc: Global,
    node: &mut NodeHandle,
    from: &[u8],
    packet: &[u8],
    advice: &[u8],
) -> u32
    ensures { Says result (λ said.
        Adjudicates node.old.part.node from.now packet.now advice.now said node.new.part.node) }
{
    number_of(node.adjudicate(alloc, from, packet, advice))
}

/// Copies what is to be appended to the log, and synced: the records that the host has not said to be on disk.
#[unsafe(no_mangle)]
pub extern "C" fn vogrilas_records(
    alloc: Global,
    node: &mut NodeHandle,
    buffer: &mut [u8],
    size: &mut usize,
) -> u32
    ensures kept { node.new.part.node ≡ node.old.part.node }
    ensures copied { Says result (λ said.
        CopiesRecords node.old.part.node said buffer.old buffer.new size.old size.new) }
{
    number_of(node.records(alloc, buffer, size))
}

/// Copies what comes after so many bytes of that.
#[unsafe(no_mangle)]
pub extern "C" fn vogrilas_records_after(
    alloc: Global,
    node: &mut NodeHandle,
    passed: usize,
    buffer: &mut [u8],
    size: &mut usize,
) -> u32
    ensures kept { node.new.part.node ≡ node.old.part.node }
    ensures copied { Says result (λ said.
        CopiesRecordsAfter passed node.old.part.node said buffer.old buffer.new size.old size.new) }
{
    number_of(node.records_after(alloc, passed, buffer, size))
}

/// Copies what came of the lines: the words of the calls of which the host has said that all records are on disk.
#[unsafe(no_mangle)]
pub extern "C" fn vogrilas_written(
    alloc: Global,
    node: &mut NodeHandle,
    buffer: &mut [u8],
    size: &mut usize,
) -> u32
    ensures kept { node.new.part.node ≡ node.old.part.node }
    ensures copied { Says result (λ said.
        CopiesWritten node.old.part.node said buffer.old buffer.new size.old size.new) }
{
    number_of(node.written(alloc, buffer, size))
}

/// Tells how many calls the node's log has, those included that are to be appended.
#[unsafe(no_mangle)]
pub extern "C" fn vogrilas_calls(alloc: Global, node: &mut NodeHandle, calls: &mut u64) -> u32
    ensures kept { node.new.part.node ≡ node.old.part.node }
    ensures counted { Says result (λ said. Counts node.old.part.node said calls.old calls.new) }
{
    number_of(node.calls(alloc, calls))
}

/// Tells how many entries a pharmacy's journal has, slots a switch's table, or rows a payer's book.
#[unsafe(no_mangle)]
pub extern "C" fn vogrilas_count(alloc: Global, node: &mut NodeHandle, count: &mut u64) -> u32
    ensures kept { node.new.part.node ≡ node.old.part.node }
    ensures counted { Says result (λ said. Sizes node.old.part.node said count.old count.new) }
{
    number_of(node.count(alloc, count))
}

/// Tells how many entries a pharmacy's journal may have, slots a switch's table, or rows a payer's book.
#[unsafe(no_mangle)]
pub extern "C" fn vogrilas_most(alloc: Global, node: &mut NodeHandle, most: &mut u64) -> u32
    ensures kept { node.new.part.node ≡ node.old.part.node }
    ensures told { Says result (λ said. Caps node.old.part.node said most.old most.new) }
{
    number_of(node.most(alloc, most))
}

/// Copies the request of a pharmacy's entry.
#[unsafe(no_mangle)]
pub extern "C" fn vogrilas_request(
    alloc: Global,
    node: &mut NodeHandle,
    number: u64,
    buffer: &mut [u8],
    size: &mut usize,
) -> u32
    ensures kept { node.new.part.node ≡ node.old.part.node }
    ensures copied { Says result (λ said.
        GivesRequest number node.old.part.node said buffer.old buffer.new size.old size.new) }
{
    number_of(node.request(alloc, number, buffer, size))
}

/// Copies the answer that the node holds for a request, by its pharmacy and its number there.
#[unsafe(no_mangle)]
pub extern "C" fn vogrilas_answer(
    alloc: Global,
    node: &mut NodeHandle,
    pharmacy: u16,
    number: u64,
    buffer: &mut [u8],
    size: &mut usize,
) -> u32
    ensures kept { node.new.part.node ≡ node.old.part.node }
    ensures copied { Says result (λ said.
        GivesAnswer pharmacy number node.old.part.node said buffer.old buffer.new size.old size.new) }
{
    number_of(node.answer(alloc, pharmacy, number, buffer, size))
}

/// Copies the answer of a pharmacy's entry that a payer gave, whether or not it is on disk.
#[unsafe(no_mangle)]
pub extern "C" fn vogrilas_heard(
    alloc: Global,
    node: &mut NodeHandle,
    pharmacy: u16,
    number: u64,
    buffer: &mut [u8],
    size: &mut usize,
) -> u32
    ensures kept { node.new.part.node ≡ node.old.part.node }
    ensures copied { Says result (λ said.
        GivesHeard pharmacy number node.old.part.node said buffer.old buffer.new size.old size.new) }
{
    number_of(node.heard(alloc, pharmacy, number, buffer, size))
}

/// Copies the payments that a pharmacy counts, or those of a payer's book with what reversed them.
#[unsafe(no_mangle)]
pub extern "C" fn vogrilas_payments(
    alloc: Global,
    node: &mut NodeHandle,
    payments: &mut [PlainPayment],
    count: &mut usize,
) -> u32
    ensures kept { node.new.part.node ≡ node.old.part.node }
    ensures copied { Says result (λ said.
        ListsPayments node.old.part.node said payments.old payments.new count.old count.new) }
{
    number_of(node.payments(alloc, payments, count))
}

/// Notes that this many bytes of the records are on disk, and what stands in the log's file before them.
#[unsafe(no_mangle)]
pub extern "C" fn vogrilas_kept(alloc: Global, node: &mut NodeHandle, size: usize) -> u32
    ensures { Says result (λ said. Keeps node.old.part.node size said node.new.part.node) }
{
    number_of(node.keep(alloc, size))
}

/// Forgets what was written, once it was used.
#[unsafe(no_mangle)]
pub extern "C" fn vogrilas_clear(alloc: Global, node: &mut NodeHandle) -> u32
    ensures { Says result (λ said. Clears node.old.part.node said node.new.part.node) }
{
    number_of(node.clear(alloc))
}

/// Lets the node go. A handle without one stays as it is.
#[unsafe(no_mangle)]
pub extern "C" fn vogrilas_close(alloc: Global, node: &mut NodeHandle)
    ensures { node.new.part.node ≡ None }
{
    node.close(alloc);
}

/// Copies the text that spells bytes in lines.
#[unsafe(no_mangle)]
pub extern "C" fn vogrilas_print(
    alloc: Global,
    bytes: &[u8],
    buffer: &mut [u8],
    size: &mut usize,
) -> u32
    ensures { Says result (λ said. Prints bytes.now said buffer.old buffer.new size.old size.new) }
{
    number_of(print(alloc, bytes, buffer, size))
}

/// Copies the bytes that a text spells.
#[unsafe(no_mangle)]
pub extern "C" fn vogrilas_unprint(
    alloc: Global,
    text: &[u8],
    buffer: &mut [u8],
    size: &mut usize,
) -> u32
    ensures { Says result (λ said. Unprints text.now said buffer.old buffer.new size.old size.new) }
{
    number_of(unprint(alloc, text, buffer, size))
}

/// Copies the billing that fields say, or tells the first wrong field.
#[unsafe(no_mangle)]
pub extern "C" fn vogrilas_make_billing(
    alloc: Global,
    fields: &PlainBilling,
    buffer: &mut [u8],
    size: &mut usize,
    field: &mut u32,
) -> u32
    ensures { Says result (λ said. Makes (wrong_in_billing fields.now) (billing_text (billing_said fields.now)) said
        buffer.old buffer.new size.old size.new field.old field.new) }
{
    number_of(billing(alloc, fields, buffer, size, field))
}

/// Copies the reversal that fields say, or tells the first wrong field.
#[unsafe(no_mangle)]
pub extern "C" fn vogrilas_make_reversal(
    alloc: Global,
    fields: &PlainReversal,
    buffer: &mut [u8],
    size: &mut usize,
    field: &mut u32,
) -> u32
    ensures { Says result (λ said. Makes (wrong_in_reversal fields.now) (reversal_text (reversal_said fields.now)) said
        buffer.old buffer.new size.old size.new field.old field.new) }
{
    number_of(reversal(alloc, fields, buffer, size, field))
}

/// Copies the description of a message: an object of JSON where `json` is not 0, else lines for people.
#[unsafe(no_mangle)]
pub extern "C" fn vogrilas_describe(
    alloc: Global,
    message: &[u8],
    json: u32,
    buffer: &mut [u8],
    size: &mut usize,
) -> u32
    ensures { Says result (λ said. Describes (style_of json) message.now said buffer.old buffer.new size.old size.new) }
{
    number_of(describe(alloc, style_of(json), message, buffer, size))
}

/// Judges whether logs are those of one legal run, and copies what claimaudit tells of them: an object of JSON where `json` is
/// not 0, else lines. The logs stand one after another, each of its size.
#[unsafe(no_mangle)]
pub extern "C" fn vogrilas_audit(
    alloc: Global,
    settings: &[u8],
    logs: &[u8],
    sizes: &[usize],
    json: u32,
    buffer: &mut [u8],
    size: &mut usize,
) -> u32
    ensures { Says result (λ said.
        Audits settings.now logs.now sizes.now (style_of json) said buffer.old buffer.new size.old size.new) }
{
    number_of(audit(alloc, style_of(json), settings, logs, sizes, buffer, size))
}
