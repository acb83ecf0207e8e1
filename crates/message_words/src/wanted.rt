//! What a field has to hold, in words.

ghost use Rattle.std.specs.Prelude.{◌≡◌};
ghost use Rattle.message_words.specs.Wanted.{wanted_fill, wanted_in};

use claim_profile::TransactionCode;
use message_parts::FieldName;

/// What a field of an order has to hold, under this transaction code. Of the fields of the last arm no transaction is
/// rejected for what they hold; a field that is new has to be put among them, or gets words of its own.
pub(crate) fn wanted_in(field: FieldName, code: Option<TransactionCode>) -> &'static str
    ensures { result.now ≡ wanted_in field code }
{
    match field {
        FieldName::Cardholder => "one text of 1 to 20 bytes",
        FieldName::DateOfService => "a day of the calendar, CCYYMMDD",
        FieldName::PrescriptionQualifier => "exactly 1",
        FieldName::Prescription => "one number of 1 to 12 digits",
        FieldName::FillNumber => wanted_fill(code),
        FieldName::ProductQualifier => "exactly 03",
        FieldName::Product => "one text of 1 to 19 bytes",
        FieldName::Quantity => "one number of 1 to 10 digits",
        FieldName::IngredientCost => "one amount that is not negative",
        FieldName::DispensingFee => "at most one amount that is not negative",
        FieldName::TransactionCode => "the code of a billing or a reversal",
        FieldName::Bin
        | FieldName::Version
        | FieldName::Pcn
        | FieldName::TransactionCount
        | FieldName::ProviderQualifier
        | FieldName::Provider
        | FieldName::Vendor
        | FieldName::HeaderStatus
        | FieldName::ResponseStatus
        | FieldName::Authorization
        | FieldName::RejectCount
        | FieldName::RejectCode
        | FieldName::PatientPay
        | FieldName::CostPaid
        | FieldName::FeePaid
        | FieldName::TotalPaid => "another value",
    }
}

/// What a fill number has to be. A reversal may leave it out.
fn wanted_fill(code: Option<TransactionCode>) -> &'static str
    ensures { result.now ≡ wanted_fill code }
{
    match code {
        Some(TransactionCode::Billing) => "one number of 1 or 2 digits",
        Some(TransactionCode::Reversal) => "at most one number of 1 or 2 digits",
        None => "nothing, under a code that is not carried",
    }
}
