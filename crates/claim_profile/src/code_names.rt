//! The names of reject codes.

ghost use Rattle.std.specs.Prelude.{◌≡◌, option_map};
ghost use Rattle.claim_profile.specs.CodeNames.{code_name, common_name};

use crate::reject::Code;

impl Code {
    /// The short name that the standard's list of reject codes gives it. "M/I" is "missing or invalid". Of the codes that no rule
    /// here gives those have one that payers often give.
    pub fn name(&self) -> &'static str
        ensures { result.now ≡ code_name self.now }
    {
        match self {
            Code::Bin => "M/I BIN Number",
            Code::Cardholder => "M/I Cardholder ID",
            Code::DateOfService => "M/I Date of Service",
            Code::Prescription => "M/I Prescription/Service Reference Number",
            Code::FillNumber => "M/I Fill Number",
            Code::Product => "M/I Product/Service ID",
            Code::IngredientCost => "M/I Ingredient Cost Submitted",
            Code::Quantity => "M/I Quantity Dispensed",
            Code::DispensingFee => "M/I Dispensing Fee Submitted",
            Code::NotCovered => "Product/Service Not Covered",
            Code::DuplicateClaim => "Duplicate Paid/Captured Claim",
            Code::ReversalNotProcessed => "Reversal Not Processed",
            Code::Other(other) => match common_name(other.text()) {
                Some(name) => name,
                None => "a code of the payer's own system",
            },
        }
    }
}

/// The name of a code that no rule gives, and payers often give.
fn common_name(text: &[u8]) -> Option<&'static str>
    ensures { option_map (λ name. name.now) result ≡ common_name text.now }
{
    match text {
        b"06" => Some("M/I Group ID"),
        b"09" => Some("M/I Date of Birth"),
        b"19" => Some("M/I Days Supply"),
        b"25" => Some("M/I Prescriber ID"),
        b"40" => Some("Pharmacy Not Contracted With Plan On Date Of Service"),
        b"41" => Some("Submit Bill To Other Processor Or Primary Payer"),
        b"52" => Some("Non-Matched Cardholder ID"),
        b"54" => Some("Non-Matched Product/Service ID Number"),
        b"65" => Some("Patient Is Not Covered"),
        b"69" => Some("Filled After Coverage Terminated"),
        b"75" => Some("Prior Authorization Required"),
        b"76" => Some("Plan Limitations Exceeded"),
        b"78" => Some("Cost Exceeds Maximum"),
        b"79" => Some("Refill Too Soon"),
        b"81" => Some("Claim Too Old"),
        b"85" => Some("Claim Not Processed"),
        b"88" => Some("DUR Reject Error"),
        b"92" => Some("System Unavailable/Host Unavailable"),
        b"99" => Some("Host Processing Error"),
        _ => None,
    }
}
