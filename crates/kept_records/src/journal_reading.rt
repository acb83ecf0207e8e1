//! Journals as they are read.

ghost use Rattle.std.specs.Prelude.{◌≡◌, ◌<◌, length, Ok, Err, Some, None, IfOk, IfErr, OnOk};
ghost use Rattle.std.specs.Option.{option_copied};
ghost use Rattle.pharmacy_journal.specs.Resting.{added};
ghost use Rattle.kept_records.specs.Faults.{RefusesAs, RefusesAt, ended};
ghost use Rattle.kept_records.specs.Journals.{head_in, ruled_in, entry_in, entries_in, journal_in, IsKept};
ghost use Rattle.kept_records.specs.Versions.{is_journal_version};

use crate::fault::RecordFault;
use crate::journal_laws::journal_is_its_text;
use crate::journal_parts::{JournalHead, take_entry, take_head};
use crate::rules::{RULED_VERSION, read_rule};
use crate::versions::judge_version;
use pharmacy_journal::{JournalAtRest, PharmacySettings, RowFault};
use std::alloc::Global;

/// The two bytes that begin a journal, as a number.
pub(crate) const MARK: u16 = 0x504a;

/// Reads the journal of the pharmacy of this number, which is all of the bytes. The number is not zero, and
/// the settings name a switch.
///
/// Version 2 is read, version 1 where every request has exactly one transaction, and version 3 where the
/// pharmacy goes by another rule of retries than that of its settings. In version 3 the rule stands after
/// the 9 bytes of the head: after how many ticks an entry is sent again (4 bytes) and how often to one
/// switch (4 bytes), each 1 to 1,000, how many switches there are (2 bytes), 1 to 4,096, and the number of
/// each (2 bytes). Which switches there are in the network is not asked. A journal of another version goes
/// by the rule of its settings.
///
/// # Errors
/// The first cause that stands decides: `Short` for fewer than 9 bytes, `NotABook` for other bytes than
/// `PJ` or another pharmacy, `Version`, `BadRecord` at 9 where in version 3 the rule is cut off, has other
/// numbers or is that of the settings, and then the first faulty entry: `BadRecord` where it is cut off,
/// a text has more than 32,768 bytes, the flag is neither 0 nor 1, or it cannot be added (it is beyond the
/// cap, the request is not readable or of another provider, or the answer is none to it), and
/// `NumberOrder` where it is good and has not the next number. Bytes after the last entry are
/// `BadRecord` at their first. `OutOfMemory` may stand in place of any answer.
pub fn read_journal(
    alloc: Global,
    bytes: &[u8],
    number: u16,
    settings: PharmacySettings,
) -> Result<JournalAtRest, RecordFault>
    requires some_number { 0 < number }
    requires some_node { 0 < length settings.nodes }
    ensures ok { IfOk result (λ j. journal_in number settings bytes.now ≡ Ok j) }
    ensures fault { RefusesAs (journal_in number settings bytes.now) result }
    // What is read can be made, and the bytes are its text.
    ensures found { IfOk result (λ j. IsKept number settings bytes.now j) }
{
    journal_is_its_text();
    read_parts(alloc, bytes, number, settings)
}

/// The journal that the head and all that follows it are.
#[tactic(auto, unfolding(crate::specs::Journals::journal_in))]
fn read_parts(
    alloc: Global,
    bytes: &[u8],
    number: u16,
    settings: PharmacySettings,
) -> Result<JournalAtRest, RecordFault>
    requires some_number { 0 < number }
    requires some_node { 0 < length settings.nodes }
    ensures ok { IfOk result (λ j. journal_in number settings bytes.now ≡ Ok j) }
    ensures fault { RefusesAs (journal_in number settings bytes.now) result }
{
    let (head, rest) = asked_head(bytes, number)?;
    let journal = JournalAtRest::new(alloc, number, settings)?;
    let (journal, rest) = ruled(alloc, head.version, journal, rest)?;
    read_entries(alloc, journal, head, bytes.len(), rest)
}

/// The head of the journal that is asked for, and what follows it.
#[tactic(auto, unfolding(crate::specs::Journals::head_in))]
fn asked_head(bytes: &[u8], number: u16) -> Result<(JournalHead, &[u8]), RecordFault>
    ensures ok { IfOk result (λ read. head_in number bytes.now ≡ Ok (read.0, read.1.now)) }
    ensures fault { IfErr result (λ e. head_in number bytes.now ≡ Err e) }
{
    let Some((head, rest)) = take_head(bytes) else {
        return Err(RecordFault::Short);
    };
    if head.mark != MARK || head.number != number {
        return Err(RecordFault::NotABook);
    }
    if !is_known(head.version) {
        return Err(RecordFault::Version);
    }
    Ok((head, rest))
}

/// Whether journals of this version are read.
fn is_known(version: u8) -> bool
    ensures { result ≡ is_journal_version version }
{
    version == 1 || version == 2 || version == 3
}

/// The journal of this version, with the rule of retries that stands at the front where there is one, and
/// what follows it.
#[tactic(auto, unfolding(crate::specs::Journals::ruled_in))]
fn ruled(
    alloc: Global,
    version: u8,
    journal: JournalAtRest,
    bytes: &[u8],
) -> Result<(JournalAtRest, &[u8]), RecordFault>
    ensures ok { IfOk result (λ read. ruled_in version journal bytes.now ≡ Ok (read.0, read.1.now)) }
    ensures fault { RefusesAs (ruled_in version journal bytes.now) result }
{
    if version != RULED_VERSION {
        return Ok((journal, bytes));
    }
    let (rule, rest) = read_rule(alloc, journal.settings(), bytes)?;
    Ok((journal.with_rule(rule), rest))
}

/// The journal with as many entries more as the head says, which are all of these last bytes of `total`.
fn read_entries(
    alloc: Global,
    mut journal: JournalAtRest,
    head: JournalHead,
    total: usize,
    bytes: &[u8],
) -> Result<JournalAtRest, RecordFault>
    ensures ok { IfOk result (λ j. entries_in head.version total head.count journal bytes.now ≡ Ok j) }
    ensures fault { RefusesAs (entries_in head.version total head.count journal bytes.now) result }
{
    let mut rest = bytes;
    for _ in 0..head.count {
        let place = total.saturating_sub(rest.len());
        rest = enter(alloc, &mut journal, head.version, place, rest)?;
    }
    finish(journal, total, rest)
}

/// The journal where no byte follows its last entry.
#[tactic(auto, unfolding(crate::specs::Faults::ended))]
fn finish(journal: JournalAtRest, total: usize, rest: &[u8]) -> Result<JournalAtRest, RecordFault>
    ensures { result ≡ ended total (journal, rest.now) }
{
    if rest.is_empty() {
        Ok(journal)
    } else {
        Err(RecordFault::BadRecord(total.saturating_sub(rest.len())))
    }
}

/// Adds the entry at the front and gives what follows it.
#[tactic(auto, unfolding(crate::specs::Journals::entry_in))]
fn enter<'a>(
    alloc: Global,
    journal: &mut JournalAtRest,
    version: u8,
    place: usize,
    bytes: &'a [u8],
) -> Result<&'a [u8], RecordFault>
    ensures ok { IfOk result (λ rest. entry_in version place journal.old bytes.now ≡ Ok (journal.new, rest.now)) }
    ensures fault { RefusesAs (entry_in version place journal.old bytes.now) result }
{
    let Some((entry, rest)) = take_entry(bytes) else {
        return Err(RecordFault::BadRecord(place));
    };
    let next = journal.entries() as u64 + 1;
    add_at(journal, place, entry.request, entry.answer)?;
    judge_version(alloc, version, place, entry.request)?;
    if entry.number != next {
        return Err(RecordFault::NumberOrder(place));
    }
    Ok(rest)
}

/// Adds an entry whose record is at this place.
fn add_at(
    journal: &mut JournalAtRest,
    place: usize,
    request: &[u8],
    answer: Option<&[u8]>,
) -> Result<(), RecordFault>
    ensures ok { OnOk result (added journal.old request.now (option_copied answer.entry) ≡ Some journal.new) }
    ensures fault { RefusesAt place (added journal.old request.now (option_copied answer.entry) ≡ None) result }
{
    match journal.add(request, answer) {
        Ok(()) => Ok(()),
        Err(RowFault::OutOfMemory) => Err(RecordFault::OutOfMemory),
        Err(RowFault::BadRow) => Err(RecordFault::BadRecord(place)),
    }
}
