//! Whether what was heard is what the journals have.

ghost use Rattle.std.specs.Prelude.{◌≡◌};
ghost use Rattle.std.specs.List.{list_all};
ghost use Rattle.node_logged.specs.Ledgers.{has_answers, heard_of, is_answer};
ghost use Rattle.node_logged.specs.LedgerSeen.{tills_seen};
ghost use Rattle.node_logged.specs.TillSeen.{till_seen};

use crate::judging::ledger::Ledger;
use crate::till::Till;

/// Whether each answer that was heard is that of the entry of its number.
pub(crate) fn have_answers(ledgers: &[Ledger<'_>], tills: &[Till]) -> bool
    ensures { result ≡ list_all (has_answers (tills_seen tills.now)) ledgers.now }
{
    for ledger in ledgers {
        if !has_answers(ledger, tills) {
            return false;
        }
    }
    true
}

/// Whether each answer that was heard of a pharmacy is its journal's.
fn has_answers(ledger: &Ledger<'_>, tills: &[Till]) -> bool
    ensures { result ≡ has_answers (tills_seen tills.now) ledger.now }
{
    for till in tills {
        if !has_answers_of(ledger, till) {
            return false;
        }
    }
    true
}

/// Whether each answer that was heard at a till is the journal's, if it is a till of the pharmacy.
fn has_answers_of(ledger: &Ledger<'_>, till: &Till) -> bool
    ensures { result ≡ list_all (is_answer ledger.now.entries) (heard_of ledger.now.pharmacy (till_seen till.now)) }
{
    if till.pharmacy() != ledger.pharmacy() {
        return true;
    }
    for (number, answer) in till.heard() {
        if !ledger.has_answer(*number, answer.as_slice()) {
            return false;
        }
    }
    true
}
