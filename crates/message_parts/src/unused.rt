//! Which field of the standard two letters name that this profile does not use.

ghost use Rattle.std.specs.Prelude.{◌≡◌, drop, map};
ghost use Rattle.std.specs.Option.{option_map};
ghost use Rattle.std.specs.Str.{bytes_eq};
ghost use Rattle.message_parts.specs.FieldTitles.{titles, titles_seen, named_in};
ghost use Rattle.message_parts.specs.AnswerFields.{answer_field, message_fields, preferred_fields, paid_fields, shared_fields, reviewed_fields, insurer_fields};
ghost use Rattle.message_parts.specs.Unused.{claim_or_answer_field, unused_field, patient_fields, providers_fields, insurance_fields, other_payers_fields, workers_compensation_fields, dispensed_fields, terms_fields, pricing_fields, clinical_fields};

use crate::answer_fields::{INSURERS, MESSAGES, PAID, PREFERRED, REVIEWED, SHARED};
use crate::claim_fields::{CLINICAL, DISPENSED, PRICING, TERMS};
use crate::names::{Called, Named, named_by};
use crate::numbers::behind;
use crate::party_fields::{INSURANCE, OTHER_PAYERS, PATIENT, PROVIDERS, WORKERS_COMPENSATION};

/// The field of the standard that two letters name, where it is one that this profile does not use.
#[tactic(auto, unfolding(crate::specs::Unused::unused_field))]
pub fn unused_field(letters: &[u8]) -> Option<Named>
    ensures { option_map titles_seen result ≡ unused_field letters.now }
{
    if let Some(named) = of_patient(letters) {
        return Some(named);
    }
    if let Some(named) = of_providers(letters) {
        return Some(named);
    }
    if let Some(named) = of_insurance(letters) {
        return Some(named);
    }
    if let Some(named) = of_other_payers(letters) {
        return Some(named);
    }
    if let Some(named) = of_workers_compensation(letters) {
        return Some(named);
    }
    claim_or_answer_field(letters)
}

/// The same, where none of the segments before a claim's has it.
#[tactic(auto, unfolding(crate::specs::Unused::claim_or_answer_field))]
fn claim_or_answer_field(letters: &[u8]) -> Option<Named>
    ensures { option_map titles_seen result ≡ claim_or_answer_field letters.now }
{
    if let Some(named) = of_dispensed(letters) {
        return Some(named);
    }
    if let Some(named) = of_terms(letters) {
        return Some(named);
    }
    if let Some(named) = of_pricing(letters) {
        return Some(named);
    }
    if let Some(named) = of_clinical(letters) {
        return Some(named);
    }
    answer_field(letters)
}

/// The field of PATIENT that two letters name.
#[tactic(auto, unfolding(crate::specs::Unused::patient_fields))]
fn of_patient(letters: &[u8]) -> Option<Named>
    ensures { option_map titles_seen result ≡ named_in patient_fields letters.now }
{
    named_in(PATIENT.as_slice(), letters)
}

/// The field of PROVIDERS that two letters name.
#[tactic(auto, unfolding(crate::specs::Unused::providers_fields))]
fn of_providers(letters: &[u8]) -> Option<Named>
    ensures { option_map titles_seen result ≡ named_in providers_fields letters.now }
{
    named_in(PROVIDERS.as_slice(), letters)
}

/// The field of INSURANCE that two letters name.
#[tactic(auto, unfolding(crate::specs::Unused::insurance_fields))]
fn of_insurance(letters: &[u8]) -> Option<Named>
    ensures { option_map titles_seen result ≡ named_in insurance_fields letters.now }
{
    named_in(INSURANCE.as_slice(), letters)
}

/// The field of OTHER_PAYERS that two letters name.
#[tactic(auto, unfolding(crate::specs::Unused::other_payers_fields))]
fn of_other_payers(letters: &[u8]) -> Option<Named>
    ensures { option_map titles_seen result ≡ named_in other_payers_fields letters.now }
{
    named_in(OTHER_PAYERS.as_slice(), letters)
}

/// The field of WORKERS_COMPENSATION that two letters name.
#[tactic(auto, unfolding(crate::specs::Unused::workers_compensation_fields))]
fn of_workers_compensation(letters: &[u8]) -> Option<Named>
    ensures { option_map titles_seen result ≡ named_in workers_compensation_fields letters.now }
{
    named_in(WORKERS_COMPENSATION.as_slice(), letters)
}

/// The field of DISPENSED that two letters name.
#[tactic(auto, unfolding(crate::specs::Unused::dispensed_fields))]
fn of_dispensed(letters: &[u8]) -> Option<Named>
    ensures { option_map titles_seen result ≡ named_in dispensed_fields letters.now }
{
    named_in(DISPENSED.as_slice(), letters)
}

/// The field of TERMS that two letters name.
#[tactic(auto, unfolding(crate::specs::Unused::terms_fields))]
fn of_terms(letters: &[u8]) -> Option<Named>
    ensures { option_map titles_seen result ≡ named_in terms_fields letters.now }
{
    named_in(TERMS.as_slice(), letters)
}

/// The field of PRICING that two letters name.
#[tactic(auto, unfolding(crate::specs::Unused::pricing_fields))]
fn of_pricing(letters: &[u8]) -> Option<Named>
    ensures { option_map titles_seen result ≡ named_in pricing_fields letters.now }
{
    named_in(PRICING.as_slice(), letters)
}

/// The field of CLINICAL that two letters name.
#[tactic(auto, unfolding(crate::specs::Unused::clinical_fields))]
fn of_clinical(letters: &[u8]) -> Option<Named>
    ensures { option_map titles_seen result ≡ named_in clinical_fields letters.now }
{
    named_in(CLINICAL.as_slice(), letters)
}

/// The field of answers that two letters name, where it is one that this profile does not use.
#[tactic(auto, unfolding(crate::specs::AnswerFields::answer_field))]
fn answer_field(letters: &[u8]) -> Option<Named>
    ensures { option_map titles_seen result ≡ answer_field letters.now }
{
    if let Some(named) = of_message(letters) {
        return Some(named);
    }
    if let Some(named) = of_preferred(letters) {
        return Some(named);
    }
    if let Some(named) = of_paid(letters) {
        return Some(named);
    }
    if let Some(named) = of_shared(letters) {
        return Some(named);
    }
    if let Some(named) = of_reviewed(letters) {
        return Some(named);
    }
    of_insurer(letters)
}

/// The field of MESSAGES that two letters name.
#[tactic(auto, unfolding(crate::specs::AnswerFields::message_fields))]
fn of_message(letters: &[u8]) -> Option<Named>
    ensures { option_map titles_seen result ≡ named_in message_fields letters.now }
{
    named_in(MESSAGES.as_slice(), letters)
}

/// The field of PREFERRED that two letters name.
#[tactic(auto, unfolding(crate::specs::AnswerFields::preferred_fields))]
fn of_preferred(letters: &[u8]) -> Option<Named>
    ensures { option_map titles_seen result ≡ named_in preferred_fields letters.now }
{
    named_in(PREFERRED.as_slice(), letters)
}

/// The field of PAID that two letters name.
#[tactic(auto, unfolding(crate::specs::AnswerFields::paid_fields))]
fn of_paid(letters: &[u8]) -> Option<Named>
    ensures { option_map titles_seen result ≡ named_in paid_fields letters.now }
{
    named_in(PAID.as_slice(), letters)
}

/// The field of SHARED that two letters name.
#[tactic(auto, unfolding(crate::specs::AnswerFields::shared_fields))]
fn of_shared(letters: &[u8]) -> Option<Named>
    ensures { option_map titles_seen result ≡ named_in shared_fields letters.now }
{
    named_in(SHARED.as_slice(), letters)
}

/// The field of REVIEWED that two letters name.
#[tactic(auto, unfolding(crate::specs::AnswerFields::reviewed_fields))]
fn of_reviewed(letters: &[u8]) -> Option<Named>
    ensures { option_map titles_seen result ≡ named_in reviewed_fields letters.now }
{
    named_in(REVIEWED.as_slice(), letters)
}

/// The field of INSURERS that two letters name.
#[tactic(auto, unfolding(crate::specs::AnswerFields::insurer_fields))]
fn of_insurer(letters: &[u8]) -> Option<Named>
    ensures { option_map titles_seen result ≡ named_in insurer_fields letters.now }
{
    named_in(INSURERS.as_slice(), letters)
}

/// The first field of a table whose number ends with these letters.
pub(crate) fn named_in(table: &[Called], letters: &[u8]) -> Option<Named>
    ensures { option_map titles_seen result ≡ named_in (map (λ c. titles c.0.now c.1.now c.2.now) table.now) letters.now }
{
    for called in table {
        if is_of(called.0.as_bytes(), letters) {
            return Some(named_by(*called));
        }
    }
    None
}

/// Whether a number ends with these letters, after three digits and a dash.
fn is_of(number: &[u8], letters: &[u8]) -> bool
    ensures { result ≡ bytes_eq (drop 4 number.now) letters.now }
{
    behind(number, 4) == letters
}
