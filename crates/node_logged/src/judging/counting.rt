//! How many receipts there are.

ghost use Rattle.std.specs.Prelude.{◌≡◌};
ghost use Rattle.node_logged.specs.Ledgers.{counts_agree, lacking};
ghost use Rattle.node_logged.specs.LedgerSeen.{tills_seen};

use crate::judging::ledger::Ledger;
use crate::till::Till;

/// The first pharmacy whose tills do not have as many receipts as its journal has entries.
pub(crate) fn lacking(ledgers: &[Ledger<'_>], tills: &[Till]) -> Option<u16>
    ensures { result ≡ lacking (tills_seen tills.now) ledgers.now }
{
    for ledger in ledgers {
        if !counts_agree(ledger, tills) {
            return Some(ledger.pharmacy());
        }
    }
    None
}

/// Whether the tills have as many receipts of a pharmacy as its journal has entries.
fn counts_agree(ledger: &Ledger<'_>, tills: &[Till]) -> bool
    ensures { result ≡ counts_agree (tills_seen tills.now) ledger.now }
{
    let mut left = ledger.entries();
    for till in tills {
        let count = till.receipts_of(ledger.pharmacy()).len();
        if count > left {
            return false;
        }
        left -= count;
    }
    left == 0
}
