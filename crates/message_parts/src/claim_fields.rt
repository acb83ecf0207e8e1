//! Fields of the segments of a claim that this profile carries and does not use, by number and name. Definitions cite
//! these tables.

use crate::names::Called;

/// The claim segment, AM07: what is dispensed.
pub(crate) static DISPENSED: [Called; 20] = [
    ("405-D5", "days supply", "days_supply"),
    ("406-D6", "compound code", "compound_code"),
    ("408-D8", "dispense as written", "dispense_as_written"),
    (
        "414-DE",
        "date prescription written",
        "date_prescription_written",
    ),
    (
        "415-DF",
        "number of refills authorized",
        "number_of_refills_authorized",
    ),
    (
        "419-DJ",
        "prescription origin code",
        "prescription_origin_code",
    ),
    ("460-ET", "quantity prescribed", "quantity_prescribed"),
    (
        "429-DT",
        "special packaging indicator",
        "special_packaging_indicator",
    ),
    (
        "453-EJ",
        "original product ID qualifier",
        "originally_prescribed_product_id_qualifier",
    ),
    (
        "445-EA",
        "originally prescribed product",
        "originally_prescribed_product",
    ),
    (
        "446-EB",
        "originally prescribed quantity",
        "originally_prescribed_quantity",
    ),
    ("600-28", "unit of measure", "unit_of_measure"),
    ("343-HD", "dispensing status", "dispensing_status"),
    (
        "344-HF",
        "intended quantity",
        "quantity_intended_to_be_dispensed",
    ),
    (
        "345-HG",
        "intended days supply",
        "days_supply_intended_to_be_dispensed",
    ),
    (
        "456-EN",
        "associated prescription number",
        "associated_prescription_number",
    ),
    (
        "457-EP",
        "associated prescription date",
        "associated_prescription_date",
    ),
    (
        "995-E2",
        "route of administration",
        "route_of_administration",
    ),
    ("996-G1", "compound type", "compound_type"),
    (
        "454-EK",
        "scheduled prescription ID",
        "scheduled_prescription_id_number",
    ),
];

/// The claim segment, AM07: under which terms.
pub(crate) static TERMS: [Called; 15] = [
    (
        "354-NX",
        "clarification code count",
        "submission_clarification_code_count",
    ),
    (
        "420-DK",
        "submission clarification code",
        "submission_clarification_code",
    ),
    ("308-C8", "other coverage code", "other_coverage_code"),
    ("330-CW", "alternate ID", "alternate_id"),
    ("418-DI", "level of service", "level_of_service"),
    (
        "461-EU",
        "prior authorization type code",
        "prior_authorization_type_code",
    ),
    (
        "462-EV",
        "prior authorization number",
        "prior_authorization_number",
    ),
    (
        "463-EW",
        "intermediary type ID",
        "intermediary_authorization_type_id",
    ),
    (
        "464-EX",
        "intermediary authorization ID",
        "intermediary_authorization_id",
    ),
    ("357-NV", "delay reason code", "delay_reason_code"),
    (
        "880-K5",
        "transaction reference number",
        "transaction_reference_number",
    ),
    (
        "391-MT",
        "patient assignment indicator",
        "patient_assignment_indicator",
    ),
    ("147-U7", "pharmacy service type", "pharmacy_service_type"),
    (
        "458-SE",
        "procedure modifier code count",
        "procedure_modifier_code_count",
    ),
    (
        "459-ER",
        "procedure modifier code",
        "procedure_modifier_code",
    ),
];

/// The pricing segment, AM11.
pub(crate) static PRICING: [Called; 13] = [
    (
        "426-DQ",
        "usual and customary charge",
        "usual_and_customary_charge",
    ),
    ("430-DU", "gross amount due", "gross_amount_due"),
    ("433-DX", "patient paid amount", "patient_paid_amount"),
    (
        "423-DN",
        "basis of cost determination",
        "basis_of_cost_determination",
    ),
    (
        "438-E3",
        "incentive amount submitted",
        "incentive_amount_submitted",
    ),
    (
        "477-BE",
        "professional service fee",
        "professional_service_fee",
    ),
    (
        "478-H7",
        "other amount claimed count",
        "other_amount_claimed_count",
    ),
    (
        "479-H8",
        "other amount claimed qualifier",
        "other_amount_claimed_qualifier",
    ),
    ("480-H9", "other amount claimed", "other_amount_claimed"),
    ("481-HA", "flat sales tax amount", "flat_sales_tax_amount"),
    (
        "482-GE",
        "percentage sales tax amount",
        "percentage_sales_tax_amount",
    ),
    (
        "483-HE",
        "percentage sales tax rate",
        "percentage_sales_tax_rate",
    ),
    (
        "484-JE",
        "percentage sales tax basis",
        "percentage_sales_tax_basis",
    ),
];

/// The segments of drug use review, coupons, compounds and diagnoses, AM08, AM09, AM10 and AM13.
pub(crate) static CLINICAL: [Called; 21] = [
    (
        "473-7E",
        "drug use review code counter",
        "drug_use_review_code_counter",
    ),
    (
        "439-E4",
        "reason for service code",
        "reason_for_service_code",
    ),
    (
        "440-E5",
        "professional service code",
        "professional_service_code",
    ),
    ("441-E6", "result of service code", "result_of_service_code"),
    ("474-8E", "level of effort", "level_of_effort"),
    ("475-J9", "co-agent ID qualifier", "co_agent_id_qualifier"),
    ("476-H6", "co-agent ID", "co_agent_id"),
    ("485-KE", "coupon type", "coupon_type"),
    ("486-ME", "coupon number", "coupon_number"),
    ("487-NE", "coupon value amount", "coupon_value_amount"),
    ("450-EF", "compound dosage form", "compound_dosage_form"),
    (
        "451-EG",
        "compound dispensing unit",
        "compound_dispensing_unit",
    ),
    (
        "447-EC",
        "compound ingredient count",
        "compound_ingredient_count",
    ),
    (
        "488-RE",
        "compound product ID qualifier",
        "compound_product_id_qualifier",
    ),
    ("489-TE", "compound product ID", "compound_product_id"),
    (
        "448-ED",
        "compound ingredient quantity",
        "compound_ingredient_quantity",
    ),
    (
        "449-EE",
        "compound ingredient drug cost",
        "compound_ingredient_drug_cost",
    ),
    (
        "490-UE",
        "compound ingredient cost basis",
        "compound_ingredient_cost_basis",
    ),
    ("491-VE", "diagnosis code count", "diagnosis_code_count"),
    (
        "492-WE",
        "diagnosis code qualifier",
        "diagnosis_code_qualifier",
    ),
    ("424-DO", "diagnosis code", "diagnosis_code"),
];
