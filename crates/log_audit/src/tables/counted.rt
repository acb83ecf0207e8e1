//! The authorizations of the payments that pharmacies count.

ghost use Rattle.std.specs.Prelude.{◌≡◌, IfOk, OnOk};
ghost use Rattle.bin_routes.specs.Table.{RouteMaps};
ghost use Rattle.claim_model.specs.Words.{Auth as AuthSeen};
ghost use Rattle.claim_model.specs.Bytes.{bytes_with};
ghost use Rattle.claim_model.specs.Counted.{counted};
ghost use Rattle.claim_model.specs.Payments.{same_auth};
ghost use Rattle.pharmacy_journal.specs.Counting.{has_auth};
ghost use Rattle.log_audit.specs.Tables.{names_auth, is_counted, Joins};

use claim_profile::Auth;
use node_state::{JournalReading, PharmacyNode};
use pharmacy_journal::CountedPayment;
use std::alloc::{AllocError, Global};
use std::collections::BTreeSet;

/// The authorizations of all payments that one of these pharmacies counts.
#[tactic(auto, using(crate::proofs::Authorizations::journals_go_on, crate::proofs::Authorizations::journals_are_done))]
pub(crate) fn counted_auths(
    alloc: Global,
    nodes: &[PharmacyNode],
) -> Result<BTreeSet<Auth>, AllocError>
    ensures { (routes : RouteMaps) → IfOk result (λ auths. (a : AuthSeen)
        → has_auth auths.keys a ≡ is_counted (bytes_with routes) nodes.now a) }
{
    let mut auths = BTreeSet::new(alloc);
    for node in nodes {
        let journal = node.journal(alloc)?;
        take_journal(&mut auths, &journal)?;
    }
    Ok(auths)
}

/// Adds the authorizations that a journal counts.
pub(crate) fn take_journal(
    auths: &mut BTreeSet<Auth>,
    journal: &JournalReading<'_>,
) -> Result<(), AllocError>
    ensures { (routes : RouteMaps) → OnOk result
        (Joins auths.old.keys auths.new.keys (names_auth (counted (bytes_with routes) journal.now))) }
{
    let paid = journal.paid()?;
    take_payments(auths, paid.as_slice())
}

/// Adds the authorizations of payments.
#[tactic(auto, using(crate::proofs::Authorizations::auths_go_on, crate::proofs::Authorizations::auths_are_done))]
fn take_payments(auths: &mut BTreeSet<Auth>, paid: &[CountedPayment]) -> Result<(), AllocError>
    ensures { OnOk result (Joins auths.old.keys auths.new.keys (names_auth paid.now)) }
{
    for payment in paid {
        take_auth(auths, payment.auth())?;
    }
    Ok(())
}

/// Adds an authorization.
fn take_auth(auths: &mut BTreeSet<Auth>, auth: Auth) -> Result<(), AllocError>
    ensures { OnOk result (Joins auths.old.keys auths.new.keys (same_auth auth)) }
{
    auths.insert(auth)?;
    Ok(())
}
