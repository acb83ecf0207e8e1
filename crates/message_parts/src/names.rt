//! The fields that the product knows, by the standard's numbers and names.

ghost use Rattle.std.specs.Prelude.{◌≡◌};
ghost use Rattle.message_parts.specs.FieldTitles.{holds_amount, titles, titles_seen, titles_of};

/// A field of a header, of an order or of a ruling.
#[derive(Clone, Copy, PartialEq, Eq)]
pub enum FieldName {
    /// 101-A1, six digits.
    Bin,
    /// 102-A2.
    Version,
    /// 103-A3.
    TransactionCode,
    /// 104-A4, the processor control number.
    Pcn,
    /// 109-A9.
    TransactionCount,
    /// 202-B2.
    ProviderQualifier,
    /// 201-B1.
    Provider,
    /// 401-D1.
    DateOfService,
    /// 110-AK.
    Vendor,
    /// 501-F1, of a response.
    HeaderStatus,
    /// 302-C2.
    Cardholder,
    /// 455-EM.
    PrescriptionQualifier,
    /// 402-D2.
    Prescription,
    /// 403-D3.
    FillNumber,
    /// 436-E1.
    ProductQualifier,
    /// 407-D7.
    Product,
    /// 442-E7.
    Quantity,
    /// 409-D9, submitted.
    IngredientCost,
    /// 412-DC, submitted.
    DispensingFee,
    /// 112-AN.
    ResponseStatus,
    /// 503-F3.
    Authorization,
    /// 510-FA.
    RejectCount,
    /// 511-FB.
    RejectCode,
    /// 505-F5.
    PatientPay,
    /// 506-F6.
    CostPaid,
    /// 507-F7.
    FeePaid,
    /// 509-F9.
    TotalPaid,
}

/// How a field is called.
#[derive(Clone, Copy, PartialEq, Eq)]
pub struct Named {
    /// The standard's number, as `401-D1`.
    pub number: &'static str,
    /// Its name for people.
    pub name: &'static str,
    /// Its name in JSON.
    pub key: &'static str,
}

/// The number of a field, its name for people, and its name in JSON.
pub(crate) type Called = (&'static str, &'static str, &'static str);

/// How a field is called, of these words.
pub(crate) fn named_by(called: Called) -> Named
    ensures { titles_seen result ≡ titles called.entry.0.now called.entry.1.now called.entry.2.now }
{
    Named {
        number: called.0,
        name: called.1,
        key: called.2,
    }
}

const BIN: Called = ("101-A1", "BIN number", "bin_number");

const VERSION: Called = ("102-A2", "version", "version");

const TRANSACTION_CODE: Called = ("103-A3", "transaction code", "transaction_code");

const PCN: Called = (
    "104-A4",
    "processor control number",
    "processor_control_number",
);

const TRANSACTION_COUNT: Called = ("109-A9", "transaction count", "transaction_count");

const PROVIDER_QUALIFIER: Called = (
    "202-B2",
    "service provider ID qualifier",
    "service_provider_id_qualifier",
);

const PROVIDER: Called = ("201-B1", "service provider ID", "service_provider_id");

const DATE_OF_SERVICE: Called = ("401-D1", "date of service", "date_of_service");

const VENDOR: Called = ("110-AK", "software vendor ID", "software_vendor_id");

const HEADER_STATUS: Called = ("501-F1", "header response status", "header_response_status");

const CARDHOLDER: Called = ("302-C2", "cardholder ID", "cardholder_id");

const PRESCRIPTION_QUALIFIER: Called = (
    "455-EM",
    "prescription number qualifier",
    "prescription_number_qualifier",
);

const PRESCRIPTION: Called = ("402-D2", "prescription number", "prescription_number");

const FILL_NUMBER: Called = ("403-D3", "fill number", "fill_number");

const PRODUCT_QUALIFIER: Called = ("436-E1", "product ID qualifier", "product_id_qualifier");

const PRODUCT: Called = ("407-D7", "product ID", "product_id");

const QUANTITY: Called = ("442-E7", "quantity dispensed", "quantity_dispensed");

const INGREDIENT_COST: Called = (
    "409-D9",
    "ingredient cost submitted",
    "ingredient_cost_submitted",
);

const DISPENSING_FEE: Called = (
    "412-DC",
    "dispensing fee submitted",
    "dispensing_fee_submitted",
);

const RESPONSE_STATUS: Called = ("112-AN", "response status", "response_status");

const AUTHORIZATION: Called = ("503-F3", "authorization number", "authorization_number");

const REJECT_COUNT: Called = ("510-FA", "reject count", "reject_count");

const REJECT_CODE: Called = ("511-FB", "reject code", "reject_code");

const PATIENT_PAY: Called = ("505-F5", "patient pay amount", "patient_pay_amount");

const COST_PAID: Called = ("506-F6", "ingredient cost paid", "ingredient_cost_paid");

const FEE_PAID: Called = ("507-F7", "dispensing fee paid", "dispensing_fee_paid");

const TOTAL_PAID: Called = ("509-F9", "total amount paid", "total_amount_paid");

impl FieldName {
    /// Whether its value is an amount.
    pub fn is_amount(self) -> bool
        ensures { result ≡ holds_amount self }
    {
        matches!(
            self,
            FieldName::IngredientCost
                | FieldName::DispensingFee
                | FieldName::PatientPay
                | FieldName::CostPaid
                | FieldName::FeePaid
                | FieldName::TotalPaid
        )
    }

    /// The number and the names of the field. Each field has its line here: a new one does not compile without.
    pub fn named(self) -> Named
        ensures { titles_seen result ≡ titles_of self }
    {
        named_by(match self {
            FieldName::Bin => BIN,
            FieldName::Version => VERSION,
            FieldName::TransactionCode => TRANSACTION_CODE,
            FieldName::Pcn => PCN,
            FieldName::TransactionCount => TRANSACTION_COUNT,
            FieldName::ProviderQualifier => PROVIDER_QUALIFIER,
            FieldName::Provider => PROVIDER,
            FieldName::DateOfService => DATE_OF_SERVICE,
            FieldName::Vendor => VENDOR,
            FieldName::HeaderStatus => HEADER_STATUS,
            FieldName::Cardholder => CARDHOLDER,
            FieldName::PrescriptionQualifier => PRESCRIPTION_QUALIFIER,
            FieldName::Prescription => PRESCRIPTION,
            FieldName::FillNumber => FILL_NUMBER,
            FieldName::ProductQualifier => PRODUCT_QUALIFIER,
            FieldName::Product => PRODUCT,
            FieldName::Quantity => QUANTITY,
            FieldName::IngredientCost => INGREDIENT_COST,
            FieldName::DispensingFee => DISPENSING_FEE,
            FieldName::ResponseStatus => RESPONSE_STATUS,
            FieldName::Authorization => AUTHORIZATION,
            FieldName::RejectCount => REJECT_COUNT,
            FieldName::RejectCode => REJECT_CODE,
            FieldName::PatientPay => PATIENT_PAY,
            FieldName::CostPaid => COST_PAID,
            FieldName::FeePaid => FEE_PAID,
            FieldName::TotalPaid => TOTAL_PAID,
        })
    }
}
