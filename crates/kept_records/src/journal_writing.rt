//! Journals as they are written.

ghost use Rattle.std.specs.Prelude.{◌≡◌, ◌≤◌, ◌++◌, length, Ok, IfOk, OnOk};
ghost use Rattle.std.specs.Option.{option_copied, ForSome};
ghost use Rattle.claim_model.specs.Journal.{stopped};
ghost use Rattle.envelope.specs.Envelope.{longest_payload};
ghost use Rattle.pharmacy_journal.specs.Entries.{kept_seen};
ghost use Rattle.kept_records.specs.Heads.{journal_head_codec};
ghost use Rattle.kept_records.specs.Entries.{answer_codec, entry_codec, entries_text};
ghost use Rattle.kept_records.specs.Journals.{head_of, kept_text, journal_in, ReadsAs};

use crate::journal_laws::journal_reads_back;
use crate::journal_reading::MARK;
use crate::rules::{put_rule_of, version_by};
use crate::texts::put_text;
use codec::{put_u8, put_u16, put_u32, put_u64};
use pharmacy_journal::{JournalAtRest, KeptEntry, Pharmacy};
use std::alloc::{AllocError, Global};

/// The text of a journal: of version 2 where it goes by the rule of retries of its settings, and of version 3,
/// which has the rule, where it goes by another. It is read as this journal. A rule of more than 4,096 switches,
/// which no pharmacy takes by a call, is refused as memory would be, but where it is that of the settings.
#[tactic(auto, unfolding(crate::specs::Journals::journal_text))]
pub fn write_journal(alloc: Global, journal: &JournalAtRest) -> Result<Vec<u8>, AllocError>
    ensures text { IfOk result (λ text. text.items ≡ kept_text journal.now) }
    ensures read { IfOk result (λ text. ReadsAs text.items journal.now) }
{
    journal_reads_back();
    let rule = journal.rule();
    let version = version_by(journal.settings(), rule);
    let mut text = Vec::new(alloc);
    put_head(
        &mut text,
        version,
        journal.number(),
        journal.entries() as u32,
    )?;
    put_rule_of(&mut text, version, rule)?;
    put_resting(&mut text, journal)?;
    Ok(text)
}

/// The text of the journal that the pharmacy would leave if it stopped, of version 2 or 3 as its rule of retries
/// has it. It is read as that journal. The pharmacy goes on. A rule of more than 4,096 switches is refused as for
/// `write_journal`.
#[tactic(auto, unfolding(crate::specs::Journals::journal_text, claim_model::specs::Journal::stopped))]
pub fn save_journal(alloc: Global, pharmacy: &Pharmacy) -> Result<Vec<u8>, AllocError>
    ensures text { IfOk result (λ text. text.items ≡ kept_text (stopped pharmacy.now)) }
    ensures read { IfOk result (λ text. journal_in pharmacy.now.number pharmacy.now.settings text.items
        ≡ Ok (stopped pharmacy.now)) }
{
    journal_reads_back();
    let rule = pharmacy.rule();
    let version = version_by(pharmacy.settings(), rule);
    let mut text = Vec::new(alloc);
    put_head(
        &mut text,
        version,
        pharmacy.number(),
        pharmacy.entries() as u32,
    )?;
    put_rule_of(&mut text, version, rule)?;
    put_running(&mut text, pharmacy)?;
    Ok(text)
}

/// Puts the head of a journal of this version with this many entries.
#[tactic(auto, unfolding(crate::specs::Heads::journal_head_codec))]
fn put_head(text: &mut Vec<u8>, version: u8, number: u16, count: u32) -> Result<(), AllocError>
    ensures { OnOk result (text.new.items ≡ text.old.items ++ journal_head_codec.text (head_of version number count)) }
{
    put_u16(text, MARK)?;
    put_u8(text, version)?;
    put_u16(text, number)?;
    put_u32(text, count)
}

/// Puts the entries of a journal at rest.
fn put_resting(text: &mut Vec<u8>, journal: &JournalAtRest) -> Result<(), AllocError>
    ensures { OnOk result (text.new.items ≡ text.old.items ++ entries_text 1 journal.now.entries) }
{
    for place in 0..journal.entries() as u64 {
        let Some(kept) = journal.entry(place + 1) else {
            unreachable!()
        };
        put_entry(text, place + 1, kept)?;
    }
    Ok(())
}

/// Puts the entries of a pharmacy that is up.
fn put_running(text: &mut Vec<u8>, pharmacy: &Pharmacy) -> Result<(), AllocError>
    ensures { OnOk result (text.new.items ≡ text.old.items ++ entries_text 1 (stopped pharmacy.now).entries) }
{
    for place in 0..pharmacy.entries() as u64 {
        let Some(kept) = pharmacy.entry(place + 1) else {
            unreachable!()
        };
        put_entry(text, place + 1, kept)?;
    }
    Ok(())
}

/// Puts an entry and its number.
#[tactic(auto, unfolding(crate::specs::Entries::entry_codec))]
fn put_entry(text: &mut Vec<u8>, number: u64, kept: KeptEntry<'_>) -> Result<(), AllocError>
    requires request { length kept.request.now ≤ longest_payload }
    requires answer { ForSome (option_copied kept.answer) (λ answer. length answer ≤ longest_payload) }
    ensures { OnOk result (text.new.items ≡ text.old.items ++ entry_codec.text (number, kept_seen kept.entry)) }
{
    put_u64(text, number)?;
    put_text(text, kept.request)?;
    put_answer(text, kept.answer)
}

/// Puts an answer after its flag.
#[tactic(auto, unfolding(crate::specs::Entries::answer_codec))]
fn put_answer(text: &mut Vec<u8>, answer: Option<&[u8]>) -> Result<(), AllocError>
    requires { ForSome (option_copied answer) (λ answer. length answer ≤ longest_payload) }
    ensures { OnOk result (text.new.items ≡ text.old.items ++ answer_codec.text (option_copied answer.entry)) }
{
    match answer {
        None => put_u8(text, 0),
        Some(answer) => {
            put_u8(text, 1)?;
            put_text(text, answer)
        }
    }
}
