//! What the theorems ask of the crates that read and write bytes.

ghost use Rattle.std.specs.Prelude.{◌≡◌, ◌<◌, ◌≤◌, ℕ, List, length, None, Some};
ghost use Rattle.bin_routes.specs.Row.{Row};
ghost use Rattle.bin_routes.specs.Fault.{first_fault};
ghost use Rattle.bin_routes.specs.Table.{RouteMaps, routes_of};
ghost use Rattle.std.specs.List.{AllByRecursion};
ghost use Rattle.claim_profile.specs.Readable.{readable_header};
ghost use Rattle.claim_model.specs.Words.{RequestHeader, RouteKey, Plan, Claim, Amounts};
ghost use Rattle.claim_model.specs.Readable.{readable};
ghost use Rattle.claim_model.specs.Laws.{Laws, IsOrderOf, IsClaimOf, IsAmounts};
ghost use Rattle.envelope.specs.Opening.{envelope_of};
ghost use Rattle.claim_model.specs.Bytes.{envelope_in, bytes_with};

use bin_routes::{number_laws, range_laws};
use carried_fields::carrying_laws;
use claim_profile::{advice_laws, readable_laws};
use envelope::envelope_reads_back;
use overpunch::{amount_in_range, number_in_range};

/// The crates below read and write bytes as the theorems ask for.
pub fn bytes_keep_laws()
    ensures { (routes : RouteMaps) → Laws (bytes_with routes) }
{
    envelope_reads_back();
    number_in_range();
    amount_in_range();
    carrying_laws();
    advice_laws();
    readable_laws();
    number_laws();
}

/// Rows without a fault lead to payers that are there.
pub fn routes_lead_to_payers()
    ensures { (payers : ℕ) (rows : List Row) (number : ℕ) (key : RouteKey) (payer : ℕ) → first_fault payers rows ≡ None
        → (bytes_with (routes_of rows)).route number key ≡ Some payer → (0 < payer) × (payer ≤ payers) }
{
    range_laws();
    number_laws();
}

/// The requests that the model takes are those that the reader of the profile takes.
#[tactic(auto, using(crate::proofs::BytesLaws::readable_alike))]
pub fn readable_requests()
    ensures { (routes : RouteMaps) (text : List ℕ) → readable (bytes_with routes) text ≡ readable_header text }
{}

/// What a readable request asks for: an order of its header, or one to five reject codes, for each of its
/// transactions; and what a plan pays for such a claim can be written.
#[tactic(auto, using(crate::proofs::BytesLaws::groups_counted, crate::proofs::BytesLaws::orders_are, crate::proofs::BytesLaws::prices_fit))]
pub fn orders_of_requests()
    ensures groups { (routes : RouteMaps) (text : List ℕ) (h : RequestHeader)
        → readable (bytes_with routes) text ≡ Some h → length ((bytes_with routes).orders text) ≡ h.count }
    ensures orders { (routes : RouteMaps) (text : List ℕ) (h : RequestHeader)
        → readable (bytes_with routes) text ≡ Some h → AllByRecursion (IsOrderOf h) ((bytes_with routes).orders text) }
    ensures prices { (routes : RouteMaps) (plan : Plan) (h : RequestHeader) (c : Claim) (amounts : Amounts)
        → IsClaimOf h c → (bytes_with routes).price plan c ≡ Some amounts → IsAmounts amounts }
{
    number_in_range();
    amount_in_range();
}

/// What bytes are as an envelope, or what is wrong with them, does not hang on their place in memory.
#[tactic(auto, using(crate::proofs::Placeless::envelope_alike))]
pub fn envelopes_know_no_place()
    ensures same { (p q : ℕ × ℕ) (bytes : List ℕ) → envelope_in (envelope_of p bytes)
        ≡ envelope_in (envelope_of q bytes) }
    // So bytes that are read wherever they stand are the envelope that the model reads.
    ensures read { (routes : RouteMaps) (place : ℕ × ℕ) (bytes : List ℕ)
        → (bytes_with routes).read_envelope bytes ≡ envelope_in (envelope_of place bytes) }
{}
