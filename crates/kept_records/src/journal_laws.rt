//! What holds of every journal at rest and its text, as facts that a caller cites by a call.

ghost use Rattle.std.specs.Prelude.{◌≡◌, ℕ, ◌^◌, ◌<◌, ◌≤◌, IsTrue, List, length, slice_index, Ok};
ghost use Rattle.claim_model.specs.Journal.{JournalAtRest, PharmacySettings, opening_rule};
ghost use Rattle.claim_model.specs.Limits.{most_entries};
ghost use Rattle.kept_records.specs.Journals.{IsMade, IsKept, HasKeptRule, HasRuleOf, all_single, journal_text, kept_text, journal_in, ReadsAs};

/// A journal that can be made is read back from the text as which it is written, of version 2 where its rule of retries is
/// that of its settings, and of version 3 where it is another that a text may have; and from that of version 1 where its
/// rule is that of its settings and each request has exactly one transaction.
pub fn journal_reads_back()
    ensures current { (j : JournalAtRest) → IsMade j → HasKeptRule j → j.number < 2 ^ 16
        → length j.entries ≤ most_entries → ReadsAs (kept_text j) j }
    ensures earlier { (j : JournalAtRest) → IsMade j → j.rule ≡ opening_rule j.settings → j.number < 2 ^ 16
        → length j.entries ≤ most_entries → IsTrue (all_single j.entries) → ReadsAs (journal_text 1 j) j }
{}

/// Bytes that are read as a journal are its text, the one that is written or that of version 1, and it has the number and
/// the settings that were asked for, can be made, and has the rule of its settings or one that a text may have.
pub fn journal_is_its_text()
    ensures { (number : ℕ) (settings : PharmacySettings) (bytes : List ℕ) (j : JournalAtRest)
        → ((i : ℕ) → slice_index bytes i < 256)
        → journal_in number settings bytes ≡ Ok j → IsKept number settings bytes j }
{}

/// Two journals that can be made share no text of any version, but where number and entries are the same, and in version 3
/// the rule: a text has neither the settings nor the cap. Under the same settings they do not share the text as which they
/// are written, but where they are the same.
pub fn journals_share_no_text()
    ensures parts { (version other : ℕ) (j k : JournalAtRest) → IsMade j → IsMade k
        → HasRuleOf version j → HasRuleOf other k
        → j.number < 2 ^ 16 → k.number < 2 ^ 16 → length j.entries ≤ most_entries → length k.entries ≤ most_entries
        → journal_text version j ≡ journal_text other k
        → (version ≡ other) × (j.number ≡ k.number) × (j.entries ≡ k.entries) × (version ≡ 3 → j.rule ≡ k.rule) }
    ensures whole { (j k : JournalAtRest) → IsMade j → IsMade k → HasKeptRule j → HasKeptRule k
        → j.number < 2 ^ 16 → k.number < 2 ^ 16 → length j.entries ≤ most_entries → length k.entries ≤ most_entries
        → j.settings ≡ k.settings → kept_text j ≡ kept_text k → j ≡ k }
{}
